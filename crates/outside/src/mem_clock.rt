//! A clock in memory, which hands out moments that a test chose.
ghost use Rattle.std.specs.Prelude.{◌≡◌, ◌<◌, [], ◌∷◌, IfSome, length, vec_len};
ghost use Rattle.outside.specs.Moments.{Gives};
ghost use Rattle.outside.specs.MemClock.{clock_asked, moment_after, only_moment, told_of};

use crate::clock::Clock;
use std::marker::Model;

/// A clock that gives moments of its own in order, and then the last one again and again.
#[derive(Drop)]
pub struct MemClock {
    moments: Vec<u64>,
    asked: u64,
}

impl Model for MemClock {
    ghost use Rattle.std.specs.Prelude.{◌<◌, vec_len};
    ghost use Rattle.outside.specs.MemClock.{ClockScript};

    ghost Value = { ClockScript };

    ghost view = { λ clock. record { moments = clock.moments.items; asked = clock.asked } };

    ghost invariant = { λ clock. 0 < vec_len clock.moments };
}

impl MemClock {
    /// A clock that gives these moments, each in whole seconds since 1970. The list isn't empty.
    pub fn new(moments: Vec<u64>) -> MemClock
        requires { 0 < vec_len moments }
        ensures { result ≡ record { moments = moments.items; asked = 0 } }
    {
        MemClock { moments, asked: 0 }
    }
}

impl Clock for MemClock {
    ghost told = { λ clock. told_of clock };

    fn now(&mut self) -> u64
        ensures gives { Gives (result ∷ []) (told_of self.old) (told_of self.new) }
        ensures at { IfSome (only_moment self.old) (λ moment. result ≡ moment) }
        ensures next { result ≡ moment_after self.old.moments self.old.asked }
        ensures asked { self.new ≡ clock_asked self.old }
    {
        let last = self.moments.len() - 1;
        let at = if self.asked < last as u64 {
            self.asked as usize
        } else {
            last
        };
        self.asked = self.asked.saturating_add(1);
        self.moments[at]
    }
}
