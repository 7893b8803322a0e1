//! Writing a piece as far as the link takes it.
ghost use Rattle.std.specs.Prelude.{◌≤◌, length, drop};
ghost use Rattle.conn_loop.specs.Writing.{Writes};

use outside::{Link, WriteOut};

/// Why writing stopped.
#[derive(Clone, Copy, Debug, PartialEq, Eq)]
pub(crate) enum WriteEnd {
    /// Nothing is left to be written.
    All,
    /// The link takes no more bytes yet.
    Waits,
    /// The link failed, or took nothing.
    Fails,
}

/// Writes the bytes, as far as the link takes them, and says how many it took.
pub(crate) fn write_out<L: Link>(link: &mut L, bytes: &[u8]) -> (usize, WriteEnd)
    ensures within { result.0 ≤ length bytes.now }
    ensures writes { Writes result.1 bytes.now (drop result.0 bytes.now) (L.told link.old) (L.told link.new) }
{
    let mut at = 0;
    while at < bytes.len() {
        match link.write(&bytes[at..]) {
            WriteOut::Took(0) => return (at, WriteEnd::Fails),
            WriteOut::Took(n) => at += n,
            WriteOut::NotYet => return (at, WriteEnd::Waits),
            WriteOut::Failed => return (at, WriteEnd::Fails),
        }
    }
    (at, WriteEnd::All)
}
