//! A folder of files. What it has is a meaning of the type, so that all values of the type tell one folder
//! and a fact about a file can outlive the value that found it.
ghost use Rattle.std.specs.Prelude.{◌≡◌, ◌≤◌, ◌<◌, ◌↔◌, ℕ, List, Option, IfSome, IsSomeAnd, IsTrue, length};
ghost use Rattle.outside.specs.Counts.{full};
ghost use Rattle.outside.specs.Folder.{Folder, file_at};
ghost use Rattle.outside.specs.FileCauses.{AskedRoot, FilesTold, FindsIn, FoundAt, Looked, PartWithin, ReadPart, ReadsFrom};

/// What a look for the root answers.
#[derive(Clone, Copy, Debug, PartialEq, Eq)]
pub enum RootOut {
    /// The root is a folder that is there.
    Present,
    /// No folder is there.
    Absent,
    /// The files' count of faults rose.
    Failed,
    /// Memory was short. Nothing changed.
    NoMemory,
}

/// A file that was found.
#[derive(Drop)]
pub struct Opened<X> {
    /// The file, from which `Files::read_at` reads.
    pub file: X,
    /// Its length in bytes.
    pub size: u64,
    /// When it was last changed, in whole seconds since 1970, rounded down.
    pub mtime: u64,
}

/// What a look for a file answers.
#[derive(Drop)]
pub enum FindOut<X> {
    /// The file stands at the path.
    Found(Opened<X>),
    /// No file stands at the path.
    Absent,
    /// The files' count of faults rose.
    Failed,
    /// Memory was short. Nothing was looked for.
    NoMemory,
}

/// What a read of a part of a file answers.
#[derive(Clone, Copy, Debug, PartialEq, Eq)]
pub enum PartOut {
    /// This many bytes stand at the front of the buffer: at least one.
    Got(usize),
    /// The files' count of faults rose.
    Failed,
}

/// A folder of files.
pub trait Files {
    /// An open file, which knows the path at which it was found.
    type File: Drop;

    // Of the type: what the folder has, where it is told.
    ghost folder: { Option Folder };

    // The root, what was looked for and how often, the count of faults, and whether no call ever fails.
    ghost told: { Self → FilesTold };

    // The path at which a file was found.
    ghost file_path: { Self.File → List ℕ };

    /// Says whether the root is there. Later paths are below it.
    fn root(&mut self, root: &str) -> RootOut
        ensures { AskedRoot result root.now (told self.old) (told self.new) };

    /// Looks for the file at a path below the root.
    fn find(&mut self, path: &str) -> FindOut<Self::File>
        ensures found { IfSome folder (λ f. FindsIn f path.now result) }
        ensures at { FoundAt Self.file_path path.now result }
        ensures looked { Looked result path.now (told self.old) (told self.new) };

    /// Reads the file's bytes from place `at` on, counted from 0, into the front of the buffer. The caller
    /// owes a buffer that isn't empty and a place within the file as it was found.
    fn read_at(&mut self, file: &mut Self::File, at: u64, buf: &mut [u8]) -> PartOut
        requires room { 0 < length buf.old }
        requires inside { IfSome folder
            (λ f. IsSomeAnd (file_at f (file_path file.old)) (λ content. at < length content.0)) }
        ensures within { PartWithin result buf.new }
        ensures reads { IfSome folder (λ f. ReadsFrom f (file_path file.old) at buf.new result) }
        ensures path { file_path file.new ≡ file_path file.old }
        ensures read { ReadPart result (told self.old) (told self.new) };

    /// Whether the file was found at this path.
    fn is_at(file: &Self::File, text: &str) -> bool
        ensures { IsTrue result ↔ (file_path file.now ≡ text.now) };

    ghost firmly: { (files : Self) → IsTrue (told files).firm → (told files).faults ≡ 0 };

    ghost finds_fit: { (files : Self) → (told files).finds ≤ full };

    ghost faults_fit: { (files : Self) → (told files).faults ≤ full };
}
