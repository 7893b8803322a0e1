//! A look for a file that the cache doesn't keep.
ghost use Rattle.fd_cache.specs.Acquired.{Gives, LookedSo};

use crate::acquired::Acquired;
use crate::lease::Lease;
use outside::{Files, FindOut, Opened};

/// Looks for a file, and makes a lease of no entry.
pub(crate) fn look_past<F: Files>(path: &str, files: &mut F) -> Acquired<F>
    ensures gives { Gives path.now result }
    ensures looked { LookedSo result path.now (F.told files.old) (F.told files.new) }
{
    match files.find(path) {
        FindOut::Found(opened) => {
            let Opened { file, size, mtime } = opened;
            Acquired::Leased(Lease {
                entry: None,
                file,
                size,
                mtime,
            })
        }
        FindOut::Absent => Acquired::Absent,
        FindOut::Failed => Acquired::Failed,
        FindOut::NoMemory => Acquired::NoMemory,
    }
}
