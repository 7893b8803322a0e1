//! What a poll gives: a ring of reports, whose room is taken once.
ghost use Rattle.std.specs.Prelude.{◌≡◌, ◌<◌, ◌≤◌, ◌↔◌, ◌∷◌, ◌++◌, [], if◌then◌else◌, length, IfOk, IsTrue, MatchOption};

use crate::limits::REPORTS;
use reg_keys::{Dirs, Opening};
use std::alloc::{AllocError, Global};
use std::collections::VecDeque;
use std::marker::Model;

/// The reports of one poll, in order. Each is an opening with the directions that may be ready. There are at
/// most `REPORTS`.
#[derive(Drop)]
pub struct Reports {
    pairs: VecDeque<(Opening, Dirs)>,
}

impl Model for Reports {
    ghost use Rattle.std.specs.Prelude.{List, ◌≤◌, length};
    ghost use Rattle.std.specs.VecDeque.{deque_capacity};
    ghost use Rattle.poller.specs.declared.limits.TheConstants.{REPORTS};
    ghost use Rattle.poller.specs.Polls.{Report};

    ghost Value = { List Report };

    ghost view = { λ reports. reports.pairs.items };

    ghost invariant = { λ reports.
        REPORTS ≤ deque_capacity reports.pairs × length reports.pairs.items ≤ REPORTS };
}

impl Reports {
    /// An empty ring, with room for all reports of a poll.
    pub fn new(alloc: Global) -> Result<Reports, AllocError>
        ensures { IfOk result (λ reports. reports ≡ []) }
    {
        Ok(Reports {
            pairs: VecDeque::with_capacity(alloc, REPORTS)?,
        })
    }

    /// How many reports there are.
    pub fn len(&self) -> usize
        ensures count { result ≡ length self.now }
        ensures few { length self.now ≤ REPORTS }
    {
        self.pairs.len()
    }

    /// Drops all reports.
    pub fn clear(&mut self)
        ensures { self.new ≡ [] }
    {
        self.pairs.clear();
    }

    /// Takes the first report.
    pub fn pop_first(&mut self) -> Option<(Opening, Dirs)>
        ensures { MatchOption result ((self.old ≡ []) × (self.new ≡ []))
            (λ report. self.old ≡ report ∷ self.new) }
    {
        self.pairs.pop_front()
    }

    /// Puts a report after the others. It is false exactly where the ring is full, and then nothing changes.
    pub fn push(&mut self, opening: Opening, dirs: Dirs) -> bool
        ensures room { IsTrue result ↔ (length self.old < REPORTS) }
        ensures pushed { self.new ≡ (if result then self.old ++ (opening, dirs) ∷ [] else self.old) }
    {
        if self.pairs.len() < REPORTS {
            self.pairs.push_back_reserved((opening, dirs));
            true
        } else {
            false
        }
    }
}
