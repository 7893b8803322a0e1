//! The buffer in which heads are written: made once for a connection, with room for every head.
ghost use Rattle.std.specs.Prelude.{◌≡◌, ◌≤◌, ◌+◌, ◌++◌, ℕ, List, [], IfOk, length, take, vec_len};
ghost use Rattle.warp_response.specs.Head.{date_line};

use crate::date_line::DateLine;
use std::alloc::{AllocError, Global};
use std::marker::Model;

/// Bytes that any head fits in: Location repeats at most two spans of a target of 8,192 bytes, and 512 bytes
/// are more than everything else needs.
pub(crate) const HEAD_BYTES: usize = 16_896;

/// A head, in a buffer with room for every one, and the Date line of the last.
#[derive(Drop)]
pub struct HeadBuf {
    buf: Vec<u8>,
    len: usize,
    date: DateLine,
}

impl Model for HeadBuf {
    ghost use Rattle.std.specs.Prelude.{◌≡◌, ◌≤◌, ℕ, List, take, vec_len};
    ghost use Rattle.warp_response.specs.declared.head_buf.TheConstants.{HEAD_BYTES};

    ghost Value = { List ℕ };

    ghost view = { λ a. take a.len a.buf.items };

    ghost invariant = { λ a. (a.len ≤ HEAD_BYTES) × (vec_len a.buf ≡ HEAD_BYTES) };
}

impl HeadBuf {
    /// An empty head. The room is taken here and given back with the value; an error is want of memory.
    pub fn new(alloc: Global) -> Result<HeadBuf, AllocError>
        ensures { IfOk result (λ head. head ≡ []) }
    {
        let buf = vec![in alloc; 0u8; HEAD_BYTES]?;
        Ok(HeadBuf {
            buf,
            len: 0,
            date: DateLine::new(),
        })
    }

    /// The bytes of the head.
    pub fn bytes(&self) -> &[u8]
        ensures { result.now ≡ self.now }
    {
        &self.buf[..self.len]
    }

    /// Forgets the head, and keeps the room.
    pub(crate) fn clear(&mut self)
        ensures { self.new ≡ [] }
    {
        self.len = 0;
    }

    /// Writes the piece after what is there. The caller owes that it fits.
    pub(crate) fn add(&mut self, piece: &[u8])
        requires { length self.old + length piece.now ≤ HEAD_BYTES }
        ensures is { self.new ≡ self.old ++ piece.now }
        ensures long { length self.new ≡ length self.old + length piece.now }
    {
        write_at(&mut self.buf, self.len, piece);
        self.len += piece.len();
    }

    /// Writes Date, which a moment from the year 10000 on hasn't. The line is kept for the
    /// next answer of the same second.
    pub(crate) fn add_date(&mut self, moment: u64)
        requires { length self.old + 37 ≤ HEAD_BYTES }
        ensures is { self.new ≡ self.old ++ date_line moment }
        ensures long { length self.new ≤ length self.old + 37 }
    {
        let line = self.date.of(moment);
        write_at(&mut self.buf, self.len, line);
        self.len += line.len();
    }
}

/// Writes the piece after the first `at` bytes of the buffer.
pub(crate) fn write_at(buf: &mut [u8], at: usize, piece: &[u8])
    requires { at + length piece.now ≤ length buf.old }
    ensures { take (at + length piece.now) buf.new ≡ take at buf.old ++ piece.now }
{
    buf[at..at + piece.len()].copy_from_slice(piece);
}
