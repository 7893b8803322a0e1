//! The system's files below a root. They tell no folder: what a real folder holds is the system's word.
ghost use Rattle.std.specs.Prelude.{◌≡◌, ◌<◌, None, false, IfSome, length, string_bytes};
ghost use Rattle.outside.specs.FileCauses.{FoundAt, Looked, PartWithin, ReadPart};
ghost use Rattle.outside.specs.OsFile.{FindsKept, GivesKept, kept_of};

use crate::count::Count;
use crate::files::{Files, FindOut, PartOut, RootOut};
use crate::os_file::{OsFile, open_regular};
use crate::rooted::Rooted;
use std::alloc::{AllocError, Global};
use std::io::ErrorKind;
use std::os::unix::fs::FileExt;
use std::sync::Arc;
use std::{fs, rt};

/// The system's files below a root. Symbolic links are followed as the system does.
/// The runtime is held and not lent, so the type names no lifetime.
#[derive(Drop)]
pub struct OsFiles<R> {
    alloc: Global,
    rt: Arc<R, Global>,
    rooted: Option<Rooted>,
    finds: Count,
    faults: Count,
}

impl<R: rt::Files> OsFiles<R>
where
    R::File: FileExt,
{
    /// The files of this runtime, with no root yet, so that no path is there.
    pub fn new(alloc: Global, rt: Arc<R, Global>) -> OsFiles<R>
        ensures { ⟦<OsFiles<R> as Files>⟧.told result
            ≡ record { rooted = None; finds = 0; looked = None; faults = 0; firm = false } }
    {
        OsFiles {
            alloc,
            rt,
            rooted: None,
            finds: Count::new(),
            faults: Count::new(),
        }
    }

    /// The path of the system at which a path below the root stands, where there is a root.
    fn full_path(&self, path: &str) -> Result<Option<String>, AllocError> {
        match &self.rooted {
            Some(rooted) => Ok(Some(format!(in self.alloc; "{}/{}", rooted.text, path)?)),
            None => Ok(None),
        }
    }
}

impl<R: rt::Files> Files for OsFiles<R>
where
    R::File: FileExt,
{
    type File = OsFile<R::File>;

    ghost use Rattle.std.specs.Prelude.{None, false, string_bytes};
    ghost use Rattle.outside.specs.Rooted.{told_by};

    ghost folder = { None };

    ghost told = { λ files. told_by files.rooted files.finds.n None files.faults.n false };

    ghost file_path = { λ file. string_bytes file.path };

    fn root(&mut self, root: &str) -> RootOut {
        let Ok(text) = String::from_str(self.alloc, root) else {
            return RootOut::NoMemory;
        };
        let answer = match fs::metadata(&*self.rt, root) {
            Ok(about) if about.is_dir() => RootOut::Present,
            Ok(_) => RootOut::Absent,
            Err(e) => match e.kind() {
                ErrorKind::OutOfMemory => return RootOut::NoMemory,
                kind if is_nowhere(kind) => RootOut::Absent,
                // Whether it is there can't be seen, so it isn't said to be absent.
                _ => {
                    self.faults.rise();
                    RootOut::Failed
                }
            },
        };
        self.rooted = Some(Rooted { text, answer });
        answer
    }

    // A file whose content is kept has the size of this content.
    fn find(&mut self, path: &str) -> FindOut<OsFile<R::File>>
        ensures at { FoundAt (λ file. string_bytes file.path) path.now result }
        ensures kept { FindsKept result }
        ensures looked { Looked result path.now (⟦<OsFiles<R> as Files>⟧.told self.old)
            (⟦<OsFiles<R> as Files>⟧.told self.new) }
    {
        self.finds.rise();
        let Ok(full) = self.full_path(path) else {
            return FindOut::NoMemory;
        };
        let Some(full) = full else {
            return FindOut::Absent;
        };
        let Ok(text) = String::from_str(self.alloc, path) else {
            return FindOut::NoMemory;
        };
        match open_regular(self.alloc, &*self.rt, full.as_str(), text) {
            Ok(Some(opened)) => FindOut::Found(opened),
            Ok(None) => FindOut::Absent,
            Err(e) => match e.kind() {
                ErrorKind::OutOfMemory => FindOut::NoMemory,
                // A file that may not be read is as good as none.
                ErrorKind::PermissionDenied => FindOut::Absent,
                kind if is_nowhere(kind) => FindOut::Absent,
                _ => {
                    self.faults.rise();
                    FindOut::Failed
                }
            },
        }
    }

    // Where the content of a file is kept, its bytes are these.
    fn read_at(&mut self, file: &mut OsFile<R::File>, at: u64, buf: &mut [u8]) -> PartOut
        requires room { 0 < length buf.old }
        ensures within { PartWithin result buf.new }
        ensures kept { IfSome (kept_of file.old) (GivesKept at buf.new result) }
        ensures same { file.new ≡ file.old }
        ensures read { ReadPart result (⟦<OsFiles<R> as Files>⟧.told self.old)
            (⟦<OsFiles<R> as Files>⟧.told self.new) }
    {
        let answer = file.read_part(at, buf);
        if answer == PartOut::Failed {
            self.faults.rise();
        }
        answer
    }

    fn is_at(file: &OsFile<R::File>, text: &str) -> bool {
        file.path.as_str() == text
    }

    ghost firmly = { λ files firm. absurd (Prim.cc) };

    ghost finds_fit = { λ files. files.finds.fits };

    ghost faults_fit = { λ files. files.faults.fits };
}

/// Whether an error says that no such name can be reached.
fn is_nowhere(kind: ErrorKind) -> bool {
    matches!(
        kind,
        ErrorKind::NotFound
            | ErrorKind::NotADirectory
            | ErrorKind::IsADirectory
            | ErrorKind::InvalidFilename
            | ErrorKind::FilesystemLoop
            | ErrorKind::InvalidInput
    )
}
