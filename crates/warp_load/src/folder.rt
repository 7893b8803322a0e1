//! The folder of the load, and its files in memory.
ghost use Rattle.std.specs.Prelude.{◌≡◌, ◌+◌, ◌<◌, ◌≤◌, ◌++◌, ◌∷◌, [], IfOk, OnOk, map};
ghost use Rattle.outside.specs.MemFolder.{folder_in};
ghost use Rattle.warp_load.specs.LoadFolder.{file_entry, load_folder, load_moment, rounds};

use outside::{MemFile, Place};
use std::alloc::{AllocError, Global};

/// When each file of the load was changed last, and the moment at which its clock stands, in whole seconds
/// since 1970.
pub const LOAD_MOMENT: u64 = 784_111_777;

/// The folder of the load, as what the type of its files names.
pub struct LoadPlace;

impl Place for LoadPlace {
    ghost use Rattle.warp_load.specs.LoadFolder.{load_folder};

    ghost folder = { load_folder };
}

/// The files of the load: `index.html`, `a.txt` of 1,000 bytes, `big.bin` of 40,000 bytes and
/// `sub/index.html`.
pub fn load_files(alloc: Global) -> Result<Vec<MemFile>, AllocError>
    ensures folder { IfOk result (λ files. folder_in files.items ≡ load_folder) }
{
    let mut files = Vec::with_capacity(alloc, 4)?;
    add_file(
        alloc,
        &mut files,
        "index.html",
        Vec::from_slice(alloc, b"hi\n")?,
    )?;
    add_file(
        alloc,
        &mut files,
        "a.txt",
        rounds_of(alloc, 1000, b'a', 26)?,
    )?;
    add_file(
        alloc,
        &mut files,
        "big.bin",
        rounds_of(alloc, 40_000, 0, 251)?,
    )?;
    add_file(
        alloc,
        &mut files,
        "sub/index.html",
        Vec::from_slice(alloc, b"sub\n")?,
    )?;
    Ok(files)
}

/// Adds a file at a path.
fn add_file(
    alloc: Global,
    files: &mut Vec<MemFile>,
    path: &str,
    bytes: Vec<u8>,
) -> Result<(), AllocError>
    ensures added { OnOk result (map file_entry files.new.items
        ≡ map file_entry files.old.items ++ (path.now, (bytes.items, load_moment)) ∷ []) }
{
    files.push(MemFile {
        path: String::from_str(alloc, path)?,
        bytes,
        mtime: LOAD_MOMENT,
    })?;
    Ok(())
}

/// This many bytes, which go round from one on.
fn rounds_of(alloc: Global, count: usize, from: u8, period: u8) -> Result<Vec<u8>, AllocError>
    requires { (0 < period) × (from + period ≤ 256) }
    ensures bytes { IfOk result (λ bytes. bytes.items ≡ rounds count from period) }
{
    let mut bytes = Vec::with_capacity(alloc, count)?;
    for k in 0..count {
        bytes.push(from + (k % period as usize) as u8)?;
    }
    Ok(bytes)
}
