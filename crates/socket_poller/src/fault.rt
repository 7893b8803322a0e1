//! Why pollers or a listener couldn't be made.
use std::alloc::{AllocError, AllocFailed};
use std::io;
use std::io::ErrorKind;

/// Why pollers or a listener couldn't be made.
#[derive(Clone, Copy, Debug, PartialEq, Eq)]
pub enum SockFault {
    /// The system refused, with this number of its own, or with 0 where it gave none.
    Machine(u32),
    /// Memory was short.
    NoMemory,
}

impl From<AllocError> for SockFault {
    ghost use Rattle.std.specs.Prelude.{◌≡◌};
    ghost use Rattle.socket_poller.specs.declared.fault.SockFault.TheVariants.{NoMemory};

    ghost from_gives = { λ _ fault. fault ≡ NoMemory };

    fn from(_error: AllocError) -> SockFault {
        SockFault::NoMemory
    }
}

impl<T: Drop> From<AllocFailed<T>> for SockFault {
    ghost use Rattle.std.specs.Prelude.{◌≡◌};
    ghost use Rattle.socket_poller.specs.declared.fault.SockFault.TheVariants.{NoMemory};

    ghost from_gives = { λ _ fault. fault ≡ NoMemory };

    fn from(_failed: AllocFailed<T>) -> SockFault {
        SockFault::NoMemory
    }
}

impl From<io::Error> for SockFault {
    fn from(error: io::Error) -> SockFault {
        match error.raw_os_error() {
            Some(code) => SockFault::Machine(code.unsigned_abs()),
            None if error.kind() == ErrorKind::OutOfMemory => SockFault::NoMemory,
            None => SockFault::Machine(0),
        }
    }
}
