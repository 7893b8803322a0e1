//! Why there is no connection where the system was asked for one.
ghost use Rattle.std.specs.Prelude.{◌≡◌};
ghost use Rattle.socket_poller.specs.Troubles as spec;

use std::io;

/// Why there is no connection.
#[derive(Clone, Copy, Debug, PartialEq, Eq)]
pub(crate) enum Trouble {
    /// None waits.
    Empty,
    /// One waited and is gone: it was reset, or its network failed, or it may not be had.
    Gone,
    /// One waits, and the process or the system has no descriptor or no memory for it.
    Full,
    /// The listener itself is at fault.
    Broken,
}

/// None waits: `EAGAIN`. These are numbers of Linux, and what they say stands in accept(2).
const EMPTY: u32 = 11;

/// No memory, or no descriptor: `ENOMEM`, `ENFILE`, `EMFILE`, `ENOBUFS`.
const FULL: [u32; 4] = [12, 23, 24, 105];

/// What befell one connection: `EPERM`, `ENONET`, `EPROTO`, `ENOPROTOOPT`, `EOPNOTSUPP`, `ENETDOWN`,
/// `ENETUNREACH`, `ECONNABORTED`, `ECONNRESET`, `ETIMEDOUT`, `EHOSTDOWN`, `EHOSTUNREACH`.
const GONE: [u32; 12] = [1, 64, 71, 92, 95, 100, 101, 103, 104, 110, 112, 113];

/// What the number of an error of an accept says.
fn trouble_of_number(number: u32) -> Trouble
    ensures { result ≡ spec.trouble_of_number number }
{
    if number == EMPTY {
        Trouble::Empty
    } else if FULL.contains(&number) {
        Trouble::Full
    } else if GONE.contains(&number) {
        Trouble::Gone
    } else {
        Trouble::Broken
    }
}

/// What an error of an accept says.
pub(crate) fn trouble_of(error: &io::Error) -> Trouble {
    match error.raw_os_error() {
        Some(code) => trouble_of_number(code.unsigned_abs()),
        None => Trouble::Broken,
    }
}
