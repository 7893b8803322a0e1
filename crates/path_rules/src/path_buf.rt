//! The buffer in which paths are written: made once for a connection, with room for every path.
ghost use Rattle.std.specs.Prelude.{◌≡◌, ◌≤◌, ◌+◌, ◌++◌, ◌↔◌, [], IfOk, IsTrue, length, if◌then◌else◌};

use std::alloc::{AllocError, Global};
use std::marker::Model;

/// Bytes of the buffer, which are more than any path has.
pub(crate) const PATH_BYTES: usize = 8_192;

/// A path as text, in a buffer of 8,192 bytes.
#[derive(Drop)]
pub struct PathBuf8 {
    held: String,
}

impl Model for PathBuf8 {
    ghost use Rattle.std.specs.Prelude.{◌≤◌, ℕ, List, string_bytes, string_len, string_capacity};
    ghost use Rattle.path_rules.specs.declared.path_buf.TheConstants.{PATH_BYTES};

    ghost Value = { List ℕ };

    ghost view = { λ a. string_bytes a.held };

    ghost invariant = { λ a. (string_len a.held ≤ PATH_BYTES) × (PATH_BYTES ≤ string_capacity a.held) };
}

impl PathBuf8 {
    /// An empty path. The room is taken here and given back with the value; an error is want of memory.
    pub fn new(alloc: Global) -> Result<PathBuf8, AllocError>
        ensures { IfOk result (λ path. path ≡ []) }
    {
        let held = String::with_capacity(alloc, PATH_BYTES)?;
        Ok(PathBuf8 { held })
    }

    /// The path.
    pub fn text(&self) -> &str
        ensures { result.now ≡ self.now }
    {
        self.held.as_str()
    }

    /// Bytes of the path.
    pub fn len(&self) -> usize
        ensures is { result ≡ length self.now }
        ensures bound { result ≤ PATH_BYTES }
    {
        self.held.len()
    }

    /// Forgets the path, and keeps the room.
    pub fn clear(&mut self)
        ensures { self.new ≡ [] }
    {
        self.held.clear();
    }

    /// Writes the piece after what is there. `false` says that it doesn't fit, and then nothing has changed.
    pub fn add(&mut self, piece: &str) -> bool
        ensures fits { IsTrue result ↔ (length self.old + length piece.now ≤ PATH_BYTES) }
        ensures added { self.new ≡ (if result then self.old ++ piece.now else self.old) }
    {
        piece.len() <= PATH_BYTES - self.held.len() && self.held.push_str(piece).is_ok()
    }
}
