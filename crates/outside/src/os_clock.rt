//! The system's time. It tells no moments.
ghost use Rattle.std.specs.Prelude.{None};

use crate::clock::Clock;
use std::alloc::Global;
use std::rt;
use std::sync::Arc;
use std::time::SystemTime;

/// The system's time. Where the system's clock fails, it repeats the last moment that it told, 0 at first.
/// The runtime is held and not lent, so the type names no lifetime.
#[derive(Drop)]
pub struct OsClock<R> {
    rt: Arc<R, Global>,
    last: u64,
}

impl<R> OsClock<R> {
    /// The time that this runtime tells.
    pub fn new(rt: Arc<R, Global>) -> OsClock<R> {
        OsClock { rt, last: 0 }
    }
}

impl<R: rt::Clock> Clock for OsClock<R> {
    ghost told = { λ _. record { given = None; still = None } };

    fn now(&mut self) -> u64 {
        if let Ok(time) = SystemTime::now(&*self.rt)
            && let Ok(since) = time.duration_since(SystemTime::UNIX_EPOCH)
        {
            self.last = since.as_secs();
        }
        self.last
    }
}
