//! A poller of sockets.
ghost use Rattle.std.specs.Prelude.{◌≡◌, ◌<◌, ◌≤◌, [], IfOk, length, vec_len};
ghost use Rattle.std.specs.Arc.{arc_value};
ghost use Rattle.mio.specs.Events.{capacity as events_capacity, items};
ghost use Rattle.socket_poller.specs.Reports.{reports_of};

use crate::fault::SockFault;
use crate::group::{Group, Set};
use crate::home::Home;
use crate::limits::{IDLE_MILLIS, LINGERING, POLLERS};
use crate::lingering::Lingerers;
use crate::peer_ends::PeerEnds;
use crate::report::{ends_reading, place_of, report_of};
use crate::sock_link::SockLink;
use crate::sock_listener::SockListener;
use mio::{Events, Poll};
use outside::Count;
use poller::{AddOut, PollOut, Poller, REPORTS, Reports};
use reg_keys::Opening;
use std::alloc::Global;
use std::net::Net;
use std::rt::Clock;
use std::sync::{Arc, Wait};
use std::time::Duration;

/// A poller of sockets. Those of one server are made together and share its links.
#[derive(Drop)]
pub struct SockPoller<R> {
    clock: Arc<R, Global>,
    poll: Poll,
    events: Events,
    /// Whether the last poll asked the system.
    asked: bool,
    group: Arc<Group, Global>,
    place: usize,
    lingerers: Lingerers,
    add_faults: Count,
    poll_faults: Count,
    ghost room: { events_capacity events ≡ 1024 },
    ghost within: { place < vec_len (arc_value group).sets },
}

impl<R: Drop> SockPoller<R> {
    ghost use Rattle.std.specs.Prelude.{All};
    ghost use Rattle.socket_poller.specs.SockPolls.{faults_of, lingering_of, no_faults};

    /// This many pollers, one for each dispatcher. The clock tells how long links lingered.
    pub fn group<N: Net>(
        net: &N,
        clock: &Arc<R, Global>,
        alloc: Global,
        count: usize,
    ) -> Result<Vec<SockPoller<R>>, SockFault>
        requires { (1 ≤ count) × (count ≤ POLLERS) }
        ensures count { IfOk result (λ pollers. vec_len pollers ≡ count) }
        ensures fresh { IfOk result (λ pollers. All (λ p. faults_of p ≡ no_faults) pollers.items) }
    {
        let mut polls = Vec::with_capacity(alloc, count)?;
        for _made in 0..count {
            polls.push(Poll::new(net)?)?;
        }
        let group = Arc::new(alloc, Group::new(alloc, &polls)?)?;
        let mut pollers = Vec::with_capacity(alloc, count)?;
        for poll in polls {
            let place = pollers.len();
            let group = Arc::try_clone(&group)?;
            let clock = Arc::try_clone(clock)?;
            pollers.push(SockPoller::new(alloc, clock, poll, group, place)?)?;
        }
        Ok(pollers)
    }

    /// How many links linger with it.
    pub fn lingering(&self) -> usize
        ensures count { result ≡ lingering_of self.now }
        ensures few { result ≤ LINGERING }
    {
        self.lingerers.count()
    }

    /// The poller of one set of a group.
    fn new(
        alloc: Global,
        clock: Arc<R, Global>,
        poll: Poll,
        group: Arc<Group, Global>,
        place: usize,
    ) -> Result<SockPoller<R>, SockFault>
        requires { place < vec_len (arc_value group).sets }
        ensures { IfOk result (λ poller. faults_of poller ≡ no_faults) }
    {
        Ok(SockPoller {
            clock,
            poll,
            events: Events::with_capacity(alloc, REPORTS)?,
            asked: false,
            group,
            place,
            lingerers: Lingerers::new(alloc)?,
            add_faults: Count::new(),
            poll_faults: Count::new(),
        })
    }
}

/// Puts the reports of the events into `out`. The ends of peers are noted before, and what came
/// for links that linger is taken.
fn hear(events: &Events, set: &Set, ends: &PeerEnds, lingerers: &mut Lingerers, out: &mut Reports)
    requires empty { out.old ≡ [] }
    requires few { length (items events.now) ≤ REPORTS }
    ensures { out.new ≡ reports_of (items events.now) }
{
    for event in events.iter() {
        match report_of(event) {
            Some((opening, dirs)) => {
                if ends_reading(event) {
                    ends.note(opening);
                }
                out.push(opening, dirs);
            }
            None => lingerers.hear(&set.registry, place_of(event.token())),
        }
    }
}

impl<R: Clock> Poller for SockPoller<R> {
    type Link = SockLink;

    type Listener = SockListener;

    ghost use Rattle.std.specs.Prelude.{None};
    ghost use Rattle.socket_poller.specs.SockPolls.{faults_of, IsPoll};

    ghost meaning = { record { faults = faults_of; polled = λ _. None; polls = IsPoll } };

    fn add(&mut self, opening: Opening, link: &mut SockLink) -> AddOut {
        if link.is_added() {
            return AddOut::Added;
        }
        let place = self.group.next_place(self.place);
        let Ok(home) = Home::new(&self.group, place, opening) else {
            return AddOut::NoMemory;
        };
        if link.join(home).is_err() {
            self.add_faults.rise();
            return AddOut::Failed;
        }
        AddOut::Added
    }

    fn add_listener(&mut self, opening: Opening, listener: &mut SockListener) -> AddOut {
        if listener.is_added() {
            return AddOut::Added;
        }
        let Ok(home) = Home::new(&self.group, self.place, opening) else {
            return AddOut::NoMemory;
        };
        if listener.join(home).is_err() {
            self.poll_faults.rise();
            return AddOut::Failed;
        }
        AddOut::Added
    }

    fn poll<W: Wait>(&mut self, _rt: &W, idle: bool, out: &mut Reports) -> PollOut {
        if !idle && self.asked {
            self.asked = false;
            return PollOut::Polled;
        }
        self.asked = true;
        self.group.join(self.place);
        let set = &self.group.sets[self.place];
        self.lingerers.tend(set, &*self.clock);
        let millis = if idle { IDLE_MILLIS } else { 0 };
        let wait = Duration::from_millis(millis);
        if self.poll.poll(&mut self.events, Some(wait)).is_err() {
            self.poll_faults.rise();
            return PollOut::Failed;
        }
        hear(
            &self.events,
            set,
            &self.group.ends,
            &mut self.lingerers,
            out,
        );
        PollOut::Polled
    }

    ghost polls_alone = { λ old idle result out new polls. polls.leaves };
}
