//! What a connection registers.
ghost use Rattle.std.specs.Prelude.{◌<◌, IfSome};
ghost use Rattle.event_tests.specs.Accounting.{tag_of};

use outside::{Link, ReadOut};
use poller::MemLink;
use reg_keys::Opening;
use stripe_table::Load;

/// The number of a connection's last job, whatever its link has left.
pub const LAST: u64 = 100;

/// A connection's job.
#[derive(Drop)]
pub struct Job {
    pub opening: Opening,
    /// How many registrations were accepted for the connection before this one.
    pub number: u64,
    /// The mark that it was registered with, or 0 where that was without one.
    pub mark: u64,
    /// The link, if the connection has one: without one its first run is its last.
    pub link: Option<MemLink>,
    /// How many bytes it has read.
    pub read: u64,
}

impl Load for Job {
    ghost tag = { λ job. tag_of job.opening job.number };
}

/// Reads what is there, and adds to the bytes that were read. It answers the link where the input goes on and
/// the job of this number isn't the last.
pub fn drain(link: Option<MemLink>, number: u64, read: &mut u64) -> Option<MemLink>
    ensures { IfSome result (λ _. number < LAST) }
{
    if number >= LAST {
        return None;
    }
    let mut link = link?;
    let mut room = [0u8; 4];
    for _ in 0..u64::MAX {
        match link.read(&mut room) {
            ReadOut::Got(n) => *read = read.saturating_add(n as u64),
            ReadOut::NotYet => return Some(link),
            ReadOut::End | ReadOut::Failed => return None,
        }
    }
    None
}
