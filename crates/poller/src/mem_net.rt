//! A net in memory, this project's own model of edge reports.
ghost use Rattle.std.specs.Prelude.{◌≡◌, ◌≤◌, [], IfOk, All, None, Some, vec_len};
ghost use Rattle.poller.specs.NetListeners.{IsFreshListener};
ghost use Rattle.poller.specs.Rounds.{HasNoEntries};
ghost use Rattle.poller.specs.Scripts.{AreScripts};

use crate::limits::ACCEPTS;
use crate::mem_listener::MemListener;
use crate::mem_poller::MemPoller;
use crate::net::Net;
use crate::script::Script;
use crate::seat_dealer::SeatDealer;
use std::alloc::{AllocError, Global};
use std::collections::VecDeque;
use std::sync::Arc;

/// A net in memory: a listener that gives a link for each script, and pollers that deliver the scripts'
/// steps.
///
/// A poll delivers one step of each link that was added to the poller, and reports it.
pub struct MemNet;

impl MemNet {
    /// A net of scripts, with this many pollers. There are 1 to 64 pollers and fewer than 2^32 scripts, each
    /// with fewer than 2^32 steps.
    pub fn new(
        alloc: Global,
        scripts: Vec<Script>,
        pollers: u32,
    ) -> Result<(MemListener, Vec<MemPoller>), AllocError>
        requires pollers { (1 ≤ pollers) × (pollers ≤ 64) }
        requires scripts { AreScripts scripts.items }
        ensures listener { IfOk result (λ net. IsFreshListener scripts.items net.0) }
        ensures count { IfOk result (λ net. vec_len net.1 ≡ pollers) }
        ensures pollers { IfOk result (λ net. All HasNoEntries net.1.items) }
    {
        let (net, seat) = Net::open(alloc, &scripts)?;
        let mut dealer = SeatDealer::new(Arc::new(alloc, net)?, seat);
        let seat = dealer.deal((scripts.len() as u64).saturating_sub(1) / ACCEPTS)?;
        let listener = MemListener::new(alloc, seat, dealer, VecDeque::from_vec(scripts));
        Ok((listener, fresh_pollers(alloc, pollers)?))
    }
}

/// This many pollers, to which nothing was added.
fn fresh_pollers(alloc: Global, count: u32) -> Result<Vec<MemPoller>, AllocError>
    ensures count { IfOk result (λ pollers. vec_len pollers ≡ count) }
    ensures empty { IfOk result (λ pollers. All HasNoEntries pollers.items) }
{
    let mut pollers = Vec::with_capacity(alloc, count as usize)?;
    for _made in 0..count {
        pollers.push(MemPoller::new(alloc))?;
    }
    Ok(pollers)
}
