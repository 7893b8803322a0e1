//! Bytes kept in memory: the part of them that fits a buffer, and room that was taken before it is needed.
ghost use Rattle.std.specs.Prelude.{◌≡◌, ◌<◌, ◌≤◌, ◌+◌, ◌-◌, ◌++◌, [], IfOk, length, take, drop, min};
ghost use Rattle.outside.specs.Room.{RoomState};

use std::alloc::{AllocError, Global};
use std::marker::Model;

/// Copies as many of the bytes from place `at` on as fit to the front of the buffer, and says how many. The
/// place lies within the bytes, and the buffer isn't empty.
pub fn copy_from(bytes: &[u8], at: usize, buf: &mut [u8]) -> usize
    requires inside { at < length bytes.now }
    requires room { 0 < length buf.old }
    ensures some { 1 ≤ result }
    ensures count { result ≡ min (length bytes.now - at) (length buf.new) }
    ensures is { take result buf.new ≡ take result (drop at bytes.now) }
{
    let rest = &bytes[at..];
    let n = rest.len().min(buf.len());
    buf[..n].copy_from_slice(&rest[..n]);
    n
}

/// Room for this many bytes, which is taken at its making.
#[derive(Drop)]
pub struct Room {
    bytes: Vec<u8>,
    used: usize,
}

impl Model for Room {
    ghost use Rattle.std.specs.Prelude.{◌≤◌, take, vec_len};
    ghost use Rattle.outside.specs.Room.{RoomState};

    ghost Value = { RoomState };

    ghost view = { λ room. record { stored = take room.used room.bytes.items; size = vec_len room.bytes } };

    ghost invariant = { λ room. room.used ≤ vec_len room.bytes };
}

impl Room {
    /// Room for `size` bytes, with nothing stored.
    pub fn new(alloc: Global, size: usize) -> Result<Room, AllocError>
        ensures { IfOk result (λ room. room ≡ record { stored = []; size = size }) }
    {
        let bytes = vec![in alloc; 0u8; size]?;
        Ok(Room { bytes, used: 0 })
    }

    /// How many more bytes fit.
    pub fn free(&self) -> usize
        ensures { length self.now.stored + result ≡ self.now.size }
    {
        self.bytes.len() - self.used
    }

    /// Stores a piece that fits after what is stored.
    pub fn store(&mut self, piece: &[u8])
        requires { length self.old.stored + length piece.now ≤ self.old.size }
        ensures { self.new ≡ record self.old { stored = self.old.stored ++ piece.now } }
    {
        let end = self.used + piece.len();
        self.bytes[self.used..end].copy_from_slice(piece);
        self.used = end;
    }

    /// What is stored.
    pub fn stored(&self) -> &[u8]
        ensures { result.now ≡ self.now.stored }
    {
        &self.bytes[..self.used]
    }
}
