//! An open file of the system. What is known of it was asked of the open file itself, so that a
//! file which is put in its place meanwhile is another file. Of a small one the content is kept
//! from the moment of its opening.
ghost use Rattle.std.specs.Prelude.{◌≡◌, ◌<◌, ◌≤◌, IfOk, IfSome, length};
ghost use Rattle.outside.specs.FileCauses.{PartWithin};
ghost use Rattle.outside.specs.OsFile.{GivesKept, HasKeptSize, kept_of};

use crate::bytes::copy_from;
use crate::files::{Opened, PartOut};
use crate::retry::read_once_at;
use std::alloc::Global;
use std::fs::{Metadata, OpenFile};
use std::os::unix::fs::FileExt;
use std::time::SystemTime;
use std::{fs, io, rt};

/// A file of at most this many bytes is read whole when it is opened.
const SMALL: u64 = 16_384;

/// An open file of the system, and the path below the root at which it was found.
#[derive(Drop)]
pub struct OsFile<X> {
    file: X,
    pub(crate) path: String,
    content: Option<Vec<u8>>,
}

impl<X: FileExt> OsFile<X> {
    /// The bytes from place `at` on, without a system call where the content is kept. No byte at a place that
    /// the file had when it was found is a failure: it has become shorter.
    pub(crate) fn read_part(&self, at: u64, buf: &mut [u8]) -> PartOut
        requires { 0 < length buf.old }
        ensures within { PartWithin result buf.new }
        ensures kept { IfSome (kept_of self.now) (GivesKept at buf.new result) }
    {
        match &self.content {
            Some(bytes) if at < bytes.len() as u64 => {
                PartOut::Got(copy_from(bytes, at as usize, buf))
            }
            Some(_) => PartOut::Failed,
            None => match read_once_at(&self.file, buf, at) {
                Ok(n) if n > 0 => PartOut::Got(n),
                _ => PartOut::Failed,
            },
        }
    }
}

/// Opens the regular file at a path of the system, which is `path` below the root; none where something else
/// stands there. The kind is looked at before the opening too, since the opening of a
/// pipe waits for its writer.
pub(crate) fn open_regular<R: rt::Files>(
    alloc: Global,
    files: &R,
    full: &str,
    path: String,
) -> io::Result<Option<Opened<OsFile<R::File>>>>
where
    R::File: FileExt,
    ensures at { IfOk result (λ found. IfSome found (λ o. o.file.path ≡ path)) }
    ensures kept { IfOk result (λ found. IfSome found HasKeptSize) }
{
    if !fs::metadata(files, full)?.is_file() {
        return Ok(None);
    }
    let file = fs::open(files, full)?;
    let about = file.metadata()?;
    if !about.is_file() {
        return Ok(None);
    }
    let content = small_content(alloc, &file, about.len())?;
    Ok(Some(Opened {
        file: OsFile {
            file,
            path,
            content,
        },
        size: about.len(),
        mtime: seconds_of(&about),
    }))
}

/// The content of a small file, read in one step. None of a bigger file, and of one that isn't `size` bytes
/// long any more, which is read as it is asked for.
fn small_content<X: FileExt>(alloc: Global, file: &X, size: u64) -> io::Result<Option<Vec<u8>>>
    ensures { IfOk result
        (λ content. IfSome content (λ bytes. (length bytes.items ≡ size) × (size ≤ 16384))) }
{
    if size > SMALL {
        return Ok(None);
    }
    let mut bytes = vec![in alloc; 0u8; size as usize + 1]?;
    let count = read_once_at(file, &mut bytes, 0)?;
    if count as u64 != size {
        return Ok(None);
    }
    bytes.truncate(count);
    Ok(Some(bytes))
}

/// When a file was last changed, in whole seconds since 1970; 0 where the system tells none or one before.
fn seconds_of(about: &Metadata) -> u64 {
    match about.modified() {
        Ok(time) => match time.duration_since(SystemTime::UNIX_EPOCH) {
            Ok(since) => since.as_secs(),
            Err(_) => 0,
        },
        Err(_) => 0,
    }
}
