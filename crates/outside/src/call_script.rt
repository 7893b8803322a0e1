//! Which calls of a memory form fail, by their numbers, so that a test can let any one of them fail.
ghost use Rattle.std.specs.Prelude.{◌≡◌, ◌↔◌, IsTrue};
ghost use Rattle.outside.specs.CallScript.{CallState, NextFails, called};

use crate::count::Count;
use std::marker::Model;

/// The numbers of the calls that fail, counted from 1, and how many calls there were.
#[derive(Drop)]
pub(crate) struct CallScript {
    failing: Vec<u64>,
    calls: Count,
}

impl Model for CallScript {
    ghost use Rattle.outside.specs.CallScript.{CallState};

    ghost Value = { CallState };

    ghost view = { λ s. record { failing = s.failing.items; calls = s.calls.n } };
}

impl CallScript {
    pub(crate) fn new(failing: Vec<u64>) -> CallScript
        ensures { result ≡ record { failing = failing.items; calls = 0 } }
    {
        CallScript {
            failing,
            calls: Count::new(),
        }
    }

    /// Counts one more call, and says whether it fails.
    pub(crate) fn next_fails(&mut self) -> bool
        ensures fails { IsTrue result ↔ NextFails self.old }
        ensures counted { self.new ≡ called self.old }
    {
        self.calls.rise();
        self.failing.contains(&self.calls.now())
    }
}
