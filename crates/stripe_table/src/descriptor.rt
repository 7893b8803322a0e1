//! What a stripe keeps of an open descriptor: its opening, for each direction whether it is taken to
//! be ready and the number of its last report, what waits, and the event that is out.
ghost use Rattle.std.specs.Prelude.{◌≡◌, ◌<◌, ◌≤◌, ◌+◌, length, None, Some, is_some, filter, not, map, nat_le};

use crate::calls::FiredList;
use crate::firing::{flags_among, run_all};
use crate::flags::Flags;
use crate::four::Four;
use crate::index::KeyIndex;
use crate::load::Payload;
use reg_keys::{Dir, Dirs, Marks, PLACES};

/// One direction of an opening.
#[derive(Clone, Copy, Drop)]
pub(crate) struct Side {
    /// Whether the direction is taken to be ready.
    pub ready: bool,
    /// The number of the last report of this direction, or else of the opening.
    pub mark: u64,
}

impl Side {
    ghost use Rattle.stripe_table.specs.Descriptors.{tried_at};

    /// A registration that names the mark has found the direction not ready since that report.
    fn try_at(&mut self, mark: Option<u64>)
        ensures { self.new ≡ tried_at mark self.old }
    {
        if let Some(number) = mark {
            if number == self.mark {
                self.ready = false;
            }
        }
    }
}

/// A registration that waits.
#[derive(Drop)]
pub(crate) struct Registration<T> {
    pub key: u64,
    pub dir: Dir,
    pub load: Payload<T>,
}

/// The event of an opening that is out, with the directions that were due when it was named.
#[derive(Clone, Copy, Drop)]
pub(crate) struct OutSlot {
    pub number: u64,
    pub dirs: Dirs,
}

/// What is kept of an open descriptor. What a report reads and writes comes first, so that it touches one or
/// two lines of the processor's cache, however big a job is.
#[derive(Drop)]
pub(crate) struct OpenDescriptor<T> {
    /// The number of its opening.
    pub number: u64,
    pub read: Side,
    pub write: Side,
    pub out: Option<OutSlot>,
    /// How many flags have run and haven't been asked for. Each keeps its place.
    pub fired: usize,
    pub waits: Four<Registration<T>>,
}

ghost use Rattle.reg_keys.specs.Tests.{same_dir, has_dir};
ghost use Rattle.stripe_table.specs.Descriptors.{is_for};

fn is_same(a: Dir, b: Dir) -> bool
    ensures { result ≡ same_dir a b }
{
    match (a, b) {
        (Dir::Read, Dir::Read) | (Dir::Write, Dir::Write) => true,
        _ => false,
    }
}

impl<T: Drop> OpenDescriptor<T> {
    ghost use Rattle.std.specs.List.{list_any};
    ghost use Rattle.stripe_table.specs.Ascending.{Ascends};
    ghost use Rattle.stripe_table.specs.Flags.{key_of};
    ghost use Rattle.stripe_table.specs.Index.{KeepsOthers, ListsAll};
    ghost use Rattle.stripe_table.specs.Firing.{fired_as, settle_all, run_state};
    ghost use Rattle.stripe_table.specs.Descriptors.{just_opened, goes, due_to_read, due_to_write, dirs_of, noted, registered, dirs_to_name, named, waits_as, marks_now, taken, after_run};

    /// A descriptor that was just opened is taken to be ready in both directions.
    pub(crate) fn new(number: u64) -> OpenDescriptor<T>
        ensures { result ≡ just_opened number }
    {
        let side = Side {
            ready: true,
            mark: number,
        };
        OpenDescriptor {
            number,
            read: side,
            write: side,
            out: None,
            fired: 0,
            waits: Four::new(),
        }
    }

    fn waits_for(&self, dir: Dir) -> bool
        ensures { result ≡ list_any (goes dir) self.now.waits }
    {
        for place in 0..self.waits.len() {
            let Some(registration) = self.waits.get(place) else {
                return false;
            };
            if is_same(dir, registration.dir) {
                return true;
            }
        }
        false
    }

    /// The directions in which a registration is due.
    fn due(&self) -> Option<Dirs>
        ensures { result ≡ dirs_of (due_to_read self.now) (due_to_write self.now) }
    {
        let read = self.read.ready && self.waits_for(Dir::Read);
        let write = self.write.ready && self.waits_for(Dir::Write);
        match (read, write) {
            (true, true) => Some(Dirs::Both),
            (true, false) => Some(Dirs::Read),
            (false, true) => Some(Dirs::Write),
            (false, false) => None,
        }
    }

    /// A report of this number: the directions are ready, and have it as their mark.
    pub(crate) fn note(&mut self, dirs: Dirs, number: u64)
        ensures { self.new ≡ noted self.old dirs number }
    {
        let side = Side {
            ready: true,
            mark: number,
        };
        match dirs {
            Dirs::Read => self.read = side,
            Dirs::Write => self.write = side,
            Dirs::Both => {
                self.read = side;
                self.write = side;
            }
        }
    }

    /// Puts a registration into a free place. Where it names the mark that its direction has now,
    /// the direction isn't taken to be ready until the next report.
    pub(crate) fn register(&mut self, key: u64, dir: Dir, mark: Option<u64>, load: Payload<T>)
        requires { length self.old.waits < 4 }
        ensures { self.new ≡ registered self.old key dir mark load }
    {
        match dir {
            Dir::Read => self.read.try_at(mark),
            Dir::Write => self.write.try_at(mark),
        }
        self.waits.push(Registration { key, dir, load });
    }

    /// Names an event where a registration is due and no event is out.
    pub(crate) fn name(&mut self, number: u64) -> bool
        ensures named { result ≡ is_some (dirs_to_name self.old) }
        ensures kept { self.new ≡ named self.old number }
    {
        if self.out.is_some() {
            return false;
        }
        let Some(dirs) = self.due() else {
            return false;
        };
        self.out = Some(OutSlot { number, dirs });
        true
    }

    /// Whether the event runs every registration, so that they can go out whole.
    fn is_all_due(&self, event: &OutSlot) -> bool
        ensures { result ≡ not (list_any (λ r. not (is_for event.now r)) self.now.waits) }
    {
        for place in 0..self.waits.len() {
            let Some(registration) = self.waits.get(place) else {
                return true;
            };
            if !is_for(registration, event) {
                return false;
            }
        }
        true
    }

    /// Takes the registrations that wait for one of the event's directions and are older than it.
    pub(crate) fn take_due(&mut self, event: &OutSlot) -> Four<Registration<T>>
        ensures taken { result ≡ filter (is_for event.now) self.old.waits }
        ensures left { self.new
            ≡ record self.old { waits = filter (λ r. not (is_for event.now r)) self.old.waits } }
        ensures most { length self.old.waits ≤ 4 }
    {
        if self.is_all_due(event) {
            return self.waits.take();
        }
        let mut waits = self.waits.take();
        let mut taken = Four::new();
        while let Some(registration) = waits.pop_first() {
            if is_for(&registration, event) {
                taken.push(registration);
            } else {
                self.waits.push(registration);
            }
        }
        taken
    }

    /// Runs the event of a number, if it is the one that is out. The descriptor is at this place.
    pub(crate) fn run(
        &mut self,
        number: u64,
        place: usize,
        flags: &mut Flags,
        index: &mut KeyIndex,
    ) -> FiredList<T>
        requires fired { self.old.fired ≤ 4 }
        requires place { place < 128 }
        ensures list { result ≡ map (fired_as (marks_now self.old)) (taken self.old number) }
        ensures left { self.new ≡ after_run self.old number }
        ensures flags { Ascends key_of flags.old
            → flags.new ≡ settle_all (run_state (marks_now self.old)) (taken self.old number) flags.old }
        ensures others { KeepsOthers place index.old index.new }
        ensures here { ListsAll index.old place self.old.waits → ListsAll index.new place self.new.waits }
    {
        let Some(event) = self.out else {
            return Four::new();
        };
        if event.number != number {
            return Four::new();
        }
        let marks = Marks {
            read: self.read.mark,
            write: self.write.mark,
        };
        self.out = None;
        let taken = self.take_due(&event);
        self.fired += flags_among(&taken);
        index.take_out(&taken, &self.waits, place);
        run_all(taken, marks, flags)
    }

    /// Whether a key waits here.
    pub(crate) fn has_key(&self, key: u64) -> bool
        ensures { result ≡ list_any (waits_as key) self.now.waits }
    {
        for place in 0..self.waits.len() {
            let Some(registration) = self.waits.get(place) else {
                return false;
            };
            if registration.key == key {
                return true;
            }
        }
        false
    }

    /// Takes the registration with a key out of its place.
    pub(crate) fn take_key(&mut self, key: u64) -> Four<Registration<T>>
        ensures taken { result ≡ filter (waits_as key) self.old.waits }
        ensures left { self.new
            ≡ record self.old { waits = filter (λ r. not (waits_as key r)) self.old.waits } }
    {
        let mut waits = self.waits.take();
        let mut taken = Four::new();
        while let Some(registration) = waits.pop_first() {
            if registration.key == key {
                taken.push(registration);
            } else {
                self.waits.push(registration);
            }
        }
        taken
    }

    /// Whether the four places are taken.
    pub(crate) fn is_full(&self) -> bool
        ensures full { result ≡ nat_le 4 (length self.now.waits + self.now.fired) }
        ensures most { length self.now.waits ≤ 4 }
    {
        self.fired >= PLACES as usize - self.waits.len()
    }
}

fn is_for<T>(registration: &Registration<T>, event: &OutSlot) -> bool
    ensures { result ≡ is_for event.now registration.now }
{
    registration.key < event.number && includes(event.dirs, registration.dir)
}

fn includes(dirs: Dirs, dir: Dir) -> bool
    ensures { result ≡ has_dir dirs dir }
{
    match (dirs, dir) {
        (Dirs::Both, _) | (Dirs::Read, Dir::Read) | (Dirs::Write, Dir::Write) => true,
        _ => false,
    }
}
