//! What a cache hands out and takes back.
ghost use Rattle.std.specs.Prelude.{◌≡◌, ◌<◌, IfSome, length};
ghost use Rattle.outside.specs.FileCauses.{PartWithin, ReadPart, ReadsFrom};
ghost use Rattle.outside.specs.Folder.{HasFile};
ghost use Rattle.std.proofs.Props.{props};

use outside::{Files, PartOut};

/// A file that is lent, with its size and its time as they were when it was found. It goes back by a release.
#[derive(Drop)]
pub struct Lease<F: Files> {
    pub(crate) entry: Option<u16>,
    /// The open file.
    pub file: F::File,
    /// Its length in bytes.
    pub size: u64,
    /// When it was last changed, in whole seconds since 1970.
    pub mtime: u64,
    pub ghost there: { HasFile F.folder (F.file_path file) size mtime } by { Prim.hlevel props },
}

impl<F: Files> Lease<F> {
    /// Reads the file's bytes from place `at` on into the front of the buffer, which isn't empty.
    pub fn read_at(&mut self, files: &mut F, at: u64, buf: &mut [u8]) -> PartOut
        requires room { 0 < length buf.old }
        requires inside { at < self.old.size }
        ensures within { PartWithin result buf.new }
        ensures reads { IfSome F.folder (λ f. ReadsFrom f (F.file_path self.old.file) at buf.new result) }
        ensures path { F.file_path self.new.file ≡ F.file_path self.old.file }
        ensures same { (self.new.entry ≡ self.old.entry) × (self.new.size ≡ self.old.size)
            × (self.new.mtime ≡ self.old.mtime) }
        ensures read { ReadPart result (F.told files.old) (F.told files.new) }
    {
        files.read_at(&mut self.file, at, buf)
    }
}

/// The leave to look for the file of an entry, and the duty to say what was found.
#[derive(Drop)]
pub struct Ticket {
    pub(crate) entry: u16,
    ghost small: { entry < 256 },
}
