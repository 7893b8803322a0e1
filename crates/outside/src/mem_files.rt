//! A folder of files in memory, which tells what it has and fails where a test wants it to.
ghost use Rattle.std.specs.Prelude.{◌≡◌, ◌<◌, ◌==◌, ◌↔◌, ℕ, List, [], None, Some, IsSomeAnd, length, string_bytes};
ghost use Rattle.outside.specs.Folder.{file_at};
ghost use Rattle.outside.specs.FileCauses.{AskedRoot, FindsIn, FoundAt, Looked, ReadPart};
ghost use Rattle.outside.specs.CallScript.{NextFails, PlaysFind, PlaysRoot, called};
ghost use Rattle.outside.specs.MemFolder.{GivesPart, IsPlaceOf, entry_at, folder_in};

use crate::bytes::copy_from;
use crate::call_script::CallScript;
use crate::count::Count;
use crate::files::{Files, FindOut, Opened, PartOut, RootOut};
use crate::looks::Looks;
use crate::place::Place;
use crate::rooted::Rooted;
use std::alloc::Global;
use std::marker::PhantomData;

/// A file in memory.
#[derive(Drop)]
pub struct MemFile {
    /// Where it stands below the root.
    pub path: String,
    /// Its content.
    pub bytes: Vec<u8>,
    /// When it was last changed, in whole seconds since 1970.
    pub mtime: u64,
}

/// A folder of files in memory, which is `K`'s folder.
#[derive(Drop)]
pub struct MemFiles<K: Place> {
    alloc: Global,
    contents: Vec<MemFile>,
    present: bool,
    script: CallScript,
    rooted: Option<Rooted>,
    finds: Count,
    looked: Looks,
    faults: Count,
    of: PhantomData<K>,
    ghost are: { (path : List ℕ) → entry_at contents.items path ≡ file_at K.folder path },
    ghost firm: { length script.failing ≡ 0 → faults.n ≡ 0 },
}

/// A file that was found in memory: the path at which it stands.
#[derive(Drop)]
pub struct MemOpen {
    path: String,
}

impl<K: Place> MemFiles<K> {
    /// Files whose contents are `K`'s folder. `present` says whether the root is there. The calls of `root`,
    /// `find` and `read_at` are numbered together from 1, and those in `failing` fail.
    pub fn new(
        alloc: Global,
        contents: Vec<MemFile>,
        present: bool,
        failing: Vec<u64>,
    ) -> MemFiles<K>
        requires { folder_in contents.items ≡ K.folder }
        ensures script { result.script ≡ record { failing = failing.items; calls = 0 } }
        ensures root { result.present ≡ present }
        ensures told { ⟦<MemFiles<K> as Files>⟧.told result ≡ record {
          rooted = None;
          finds = 0;
          looked = Some [];
          faults = 0;
          firm = length failing.items == 0;
        } }
    {
        MemFiles {
            alloc,
            contents,
            present,
            script: CallScript::new(failing),
            rooted: None,
            finds: Count::new(),
            looked: Looks::new(alloc),
            faults: Count::new(),
            of: PhantomData,
        }
    }

    /// How many calls of `find` there were.
    pub fn finds(&self) -> u64
        ensures { result ≡ (⟦<MemFiles<K> as Files>⟧.told self.now).finds }
    {
        self.finds.now()
    }
}

impl<K: Place> Files for MemFiles<K> {
    type File = MemOpen;

    ghost use Rattle.std.specs.Prelude.{Some, ◌==◌, ◌≡◌, string_bytes};
    ghost use Rattle.outside.specs.Rooted.{told_by};

    ghost folder = { Some K.folder };

    ghost told = { λ files.
        told_by files.rooted files.finds.n (Some files.looked) files.faults.n
        (length files.script.failing == 0) };

    ghost file_path = { λ file. string_bytes file.path };

    fn root(&mut self, root: &str) -> RootOut
        ensures plays { PlaysRoot self.old.script self.old.present result }
        ensures script { self.new.script ≡ called self.old.script }
        ensures asked { AskedRoot result root.now (⟦<MemFiles<K> as Files>⟧.told self.old)
            (⟦<MemFiles<K> as Files>⟧.told self.new) }
    {
        let fails = self.script.next_fails();
        let Ok(text) = String::from_str(self.alloc, root) else {
            return RootOut::NoMemory;
        };
        let answer = if fails {
            self.faults.rise();
            RootOut::Failed
        } else if self.present {
            RootOut::Present
        } else {
            RootOut::Absent
        };
        self.rooted = Some(Rooted { text, answer });
        answer
    }

    fn find(&mut self, path: &str) -> FindOut<MemOpen>
        ensures found { FindsIn K.folder path.now result }
        ensures at { FoundAt (λ file. string_bytes file.path) path.now result }
        ensures plays { PlaysFind self.old.script result }
        ensures script { self.new.script ≡ called self.old.script }
        ensures looked { Looked result path.now (⟦<MemFiles<K> as Files>⟧.told self.old)
            (⟦<MemFiles<K> as Files>⟧.told self.new) }
    {
        self.finds.rise();
        let fails = self.script.next_fails();
        let Ok(text) = String::from_str(self.alloc, path) else {
            return FindOut::NoMemory;
        };
        if self.looked.add(path).is_err() {
            return FindOut::NoMemory;
        }
        if fails {
            self.faults.rise();
            return FindOut::Failed;
        }
        match place_of(&self.contents, path) {
            Some(at) => FindOut::Found(Opened {
                file: MemOpen { path: text },
                size: self.contents[at].bytes.len() as u64,
                mtime: self.contents[at].mtime,
            }),
            None => FindOut::Absent,
        }
    }

    fn read_at(&mut self, file: &mut MemOpen, at: u64, buf: &mut [u8]) -> PartOut
        requires room { 0 < length buf.old }
        requires inside { IsSomeAnd (file_at K.folder (string_bytes file.old.path))
            (λ content. at < length content.0) }
        ensures gives { GivesPart K.folder (string_bytes file.old.path) at buf.new result }
        ensures path { string_bytes file.new.path ≡ string_bytes file.old.path }
        ensures plays { (result ≡ PartOut.Failed) ↔ NextFails self.old.script }
        ensures script { self.new.script ≡ called self.old.script }
        ensures read { ReadPart result (⟦<MemFiles<K> as Files>⟧.told self.old)
            (⟦<MemFiles<K> as Files>⟧.told self.new) }
    {
        if self.script.next_fails() {
            self.faults.rise();
            return PartOut::Failed;
        }
        match place_of(&self.contents, file.path.as_str()) {
            Some(place) => PartOut::Got(copy_from(&self.contents[place].bytes, at as usize, buf)),
            None => unreachable!(),
        }
    }

    fn is_at(file: &MemOpen, text: &str) -> bool {
        file.path.as_str() == text
    }

    ghost use Rattle.std.proofs.Common.{arith};
    ghost use Rattle.std.proofs.lemmas.Bool.Decides.{nat_tests};

    ghost firmly = { λ files firm. files.firm (Prim.grind (arith, nat_tests)) };

    ghost finds_fit = { λ files. files.finds.fits };

    ghost faults_fit = { λ files. files.faults.fits };
}

/// The place of the first file with this path.
fn place_of(contents: &[MemFile], path: &str) -> Option<usize>
    ensures { IsPlaceOf contents.now path.now result }
{
    for (i, file) in contents.iter().enumerate() {
        if path == file.path.as_str() {
            return Some(i);
        }
    }
    None
}
