//! A queue of bytes in a bounded room: it takes at its end and gives at its front. Bytes stay where
//! they lie until the room after them runs out, so that a request is parsed where it was read and a
//! run of requests moves nothing.
//!
//! The memory for the whole room is taken when the buffer is made. It is touched from the front on, as bytes
//! need it: a connection that has read little has little memory in use.
ghost use Rattle.std.specs.Prelude.{◌≡◌, ◌≤◌, ◌<◌, ◌+◌, ◌-◌, ◌++◌, [], IfOk, IfSome, length, take, drop, vec_len, vec_capacity};
ghost use Rattle.outside.specs.Causes.{GivesWithin, Read, bytes_got};
ghost use Rattle.outside.specs.FileCauses.{PartWithin, ReadPart, ReadsFrom};
ghost use Rattle.fd_cache.specs.Calls.{entry_of};
ghost use Rattle.conn_loop.specs.Moves.{Takes, TakesPart, got_len, part_len};

use crate::limits::{FIRST_ROOM, ROOM};
use fd_cache::Lease;
use outside::{Files, Link, PartOut, ReadOut};
use std::alloc::{AllocError, Global};
use std::marker::Model;

/// At most `ROOM` bytes, of which the first lies at `start` and the last before `end`.
#[derive(Drop)]
pub(crate) struct Buffer {
    room: Vec<u8>,
    start: usize,
    end: usize,
}

impl Model for Buffer {
    ghost use Rattle.std.specs.Prelude.{◌≡◌, ◌≤◌, ◌-◌, ℕ, List, take, drop, vec_len, vec_capacity};

    ghost Value = { List ℕ };

    ghost view = { λ a. take (a.end - a.start) (drop a.start a.room.items) };

    ghost invariant = { λ a. (a.start ≤ a.end) × (a.end ≤ vec_len a.room) × (vec_len a.room ≤ 16896)
        × (16896 ≤ vec_capacity a.room) };
}

impl Buffer {
    /// No bytes. The room is taken here; an error is want of memory.
    pub(crate) fn new(alloc: Global) -> Result<Buffer, AllocError>
        ensures { IfOk result (λ buffer. buffer ≡ []) }
    {
        let room = Vec::with_capacity(alloc, ROOM)?;
        Ok(Buffer {
            room,
            start: 0,
            end: 0,
        })
    }

    /// The bytes.
    pub(crate) fn bytes(&self) -> &[u8]
        ensures is { result.now ≡ self.now }
        ensures fits { length result.now ≤ ROOM }
    {
        &self.room[self.start..self.end]
    }

    /// Forgets the first `n` bytes. The caller owes that there are that many.
    pub(crate) fn skip(&mut self, n: usize)
        requires { n ≤ length self.old }
        ensures { self.new ≡ drop n self.old }
    {
        let start = self.start + n;
        let (start, end) = if start == self.end {
            (0, 0)
        } else {
            (start, self.end)
        };
        self.start = start;
        self.end = end;
    }

    /// Forgets all but the first `n` bytes. The caller owes that there are that many.
    pub(crate) fn keep(&mut self, n: usize)
        requires { n ≤ length self.old }
        ensures { self.new ≡ take n self.old }
    {
        self.end = self.start + n;
    }

    /// Puts a piece after the bytes. The caller owes that it fits.
    pub(crate) fn add(&mut self, piece: &[u8])
        requires { length self.old + length piece.now ≤ ROOM }
        ensures { self.new ≡ self.old ++ piece.now }
    {
        let start = add_behind(&mut self.room, self.start, self.end, piece);
        self.end = start + (self.end - self.start) + piece.len();
        self.start = start;
    }

    /// Reads from the link after the bytes. The caller owes that there is room.
    pub(crate) fn fill<L: Link>(&mut self, link: &mut L) -> ReadOut
        requires { length self.old < ROOM }
        ensures { Takes result self.old self.new (L.told link.old) (L.told link.new) }
    {
        let (start, out) = read_behind(link, &mut self.room, self.start, self.end);
        self.end = start + (self.end - self.start) + got_len(out);
        self.start = start;
        out
    }

    /// Reads at most `n` bytes of a file from place `at` on after the bytes. The caller owes that they fit,
    /// and that the file has that place.
    #[inline(always)]
    pub(crate) fn part<F: Files>(
        &mut self,
        files: &mut F,
        lease: &mut Lease<F>,
        at: u64,
        n: usize,
    ) -> PartOut
        requires some { 0 < n }
        requires fits { length self.old + n ≤ ROOM }
        requires inside { at < lease.old.size }
        ensures takes { TakesPart F.folder (F.file_path lease.old.file) at n result self.old self.new }
        ensures path { F.file_path lease.new.file ≡ F.file_path lease.old.file }
        ensures size { lease.new.size ≡ lease.old.size }
        ensures entry { entry_of lease.new ≡ entry_of lease.old }
        ensures read { ReadPart result (F.told files.old) (F.told files.new) }
    {
        let (start, out) = part_behind(files, lease, at, &mut self.room, self.start, self.end, n);
        self.end = start + (self.end - self.start) + part_len(out);
        self.start = start;
        out
    }
}

/// Makes room for `more` bytes behind those from `start` to `end`, which move to the front where that serves.
/// The result is where they start.
fn make_room(room: &mut Vec<u8>, start: usize, end: usize, more: usize) -> usize
    requires order { start ≤ end }
    requires inside { end ≤ vec_len room.old }
    requires fits { (end - start) + more ≤ ROOM }
    requires bounded { (vec_len room.old ≤ ROOM) × (ROOM ≤ vec_capacity room.old) }
    ensures same { take (end - start) (drop result room.new.items)
        ≡ take (end - start) (drop start room.old.items) }
    ensures fits { result + (end - start) + more ≤ vec_len room.new }
    ensures bounded { (vec_len room.new ≤ ROOM) × (ROOM ≤ vec_capacity room.new) }
{
    let long = end - start;
    if more <= room.len() - end {
        return start;
    }
    move_to_front(room, start, end);
    if room.len() < long + more {
        widen(room, long + more);
    }
    0
}

/// Moves the bytes from `start` to `end` to the front.
fn move_to_front(room: &mut Vec<u8>, start: usize, end: usize)
    requires order { start ≤ end }
    requires inside { end ≤ vec_len room.old }
    ensures same { take (end - start) room.new.items ≡ take (end - start) (drop start room.old.items) }
    ensures long { vec_len room.new ≡ vec_len room.old }
    ensures bounded { vec_capacity room.old ≤ vec_capacity room.new }
{
    room.copy_within(start..end, 0);
}

/// Widens the room, so that it has at least this many bytes. Those that were there stay.
fn widen(room: &mut Vec<u8>, long: usize)
    requires short { vec_len room.old < long }
    requires fits { long ≤ ROOM }
    requires bounded { ROOM ≤ vec_capacity room.old }
    ensures same { take (vec_len room.old) room.new.items ≡ room.old.items }
    ensures long { (long ≤ vec_len room.new) × (vec_len room.new ≤ ROOM) }
    ensures bounded { ROOM ≤ vec_capacity room.new }
{
    let wanted = if long <= FIRST_ROOM { FIRST_ROOM } else { ROOM };
    if room
        .extend_from_slice(&EMPTY[..wanted - room.len()])
        .is_err()
    {
        unreachable!()
    }
}

/// Bytes that mean nothing, with which a room is widened.
static EMPTY: [u8; ROOM] = [0; ROOM];

/// Puts a piece after the bytes from `start` to `end`. The result is where these start afterwards.
fn add_behind(room: &mut Vec<u8>, start: usize, end: usize, piece: &[u8]) -> usize
    requires order { start ≤ end }
    requires inside { end ≤ vec_len room.old }
    requires fits { (end - start) + length piece.now ≤ ROOM }
    requires bounded { (vec_len room.old ≤ ROOM) × (ROOM ≤ vec_capacity room.old) }
    ensures is { take (end - start + length piece.now) (drop result room.new.items)
        ≡ take (end - start) (drop start room.old.items) ++ piece.now }
    ensures fits { result + (end - start) + length piece.now ≤ vec_len room.new }
    ensures bounded { (vec_len room.new ≤ ROOM) × (ROOM ≤ vec_capacity room.new) }
{
    let start_now = make_room(room, start, end, piece.len());
    write_at(room, start_now + (end - start), piece);
    start_now
}

/// Writes a piece into the room from `at` on.
fn write_at(room: &mut [u8], at: usize, piece: &[u8])
    requires { at + length piece.now ≤ length room.old }
    ensures before { take at room.new ≡ take at room.old }
    ensures piece { take (length piece.now) (drop at room.new) ≡ piece.now }
{
    room[at..at + piece.len()].copy_from_slice(piece);
}

/// Reads from the link after the bytes from `start` to `end`. The result is where these start afterwards.
fn read_behind<L: Link>(
    link: &mut L,
    room: &mut Vec<u8>,
    start: usize,
    end: usize,
) -> (usize, ReadOut)
    requires order { start ≤ end }
    requires inside { end ≤ vec_len room.old }
    requires fits { (end - start) < ROOM }
    requires bounded { (vec_len room.old ≤ ROOM) × (ROOM ≤ vec_capacity room.old) }
    ensures takes { Takes result.1 (take (end - start) (drop start room.old.items))
        (take (end - start + got_len result.1) (drop result.0 room.new.items))
        (L.told link.old) (L.told link.new) }
    ensures fits { result.0 + (end - start) + got_len result.1 ≤ vec_len room.new }
    ensures bounded { (vec_len room.new ≤ ROOM) × (ROOM ≤ vec_capacity room.new) }
{
    let more = least(FIRST_ROOM, ROOM - (end - start));
    let start_now = make_room(room, start, end, more);
    let out = read_at(link, room, start_now + (end - start));
    (start_now, out)
}

/// The lesser number.
pub(crate) fn least(a: usize, b: usize) -> usize
    ensures one { result ≤ a }
    ensures other { result ≤ b }
    ensures some { 0 < a → 0 < b → 0 < result }
{
    if a < b { a } else { b }
}

/// How many bytes a read gave.
fn got_len(out: ReadOut) -> usize
    ensures { result ≡ got_len out }
{
    match out {
        ReadOut::Got(n) => n,
        ReadOut::End | ReadOut::NotYet | ReadOut::Failed => 0,
    }
}

/// How many bytes of a file a read gave.
fn part_len(out: PartOut) -> usize
    ensures { result ≡ part_len out }
{
    match out {
        PartOut::Got(n) => n,
        PartOut::Failed => 0,
    }
}

/// Reads from the link into the room from `at` on.
fn read_at<L: Link>(link: &mut L, room: &mut [u8], at: usize) -> ReadOut
    requires { at < length room.old }
    ensures within { GivesWithin result (drop at room.new) }
    ensures before { take at room.new ≡ take at room.old }
    ensures read { Read result (bytes_got result (drop at room.new)) (L.told link.old) (L.told link.new) }
{
    link.read(&mut room[at..])
}

/// Reads at most `n` bytes of a file after the bytes from `start` to `end`. The result
/// is where these start afterwards.
fn part_behind<F: Files>(
    files: &mut F,
    lease: &mut Lease<F>,
    from: u64,
    room: &mut Vec<u8>,
    start: usize,
    end: usize,
    n: usize,
) -> (usize, PartOut)
    requires some { 0 < n }
    requires order { start ≤ end }
    requires inside { end ≤ vec_len room.old }
    requires fits { (end - start) + n ≤ ROOM }
    requires bounded { (vec_len room.old ≤ ROOM) × (ROOM ≤ vec_capacity room.old) }
    requires there { from < lease.old.size }
    ensures takes { TakesPart F.folder (F.file_path lease.old.file) from n result.1
        (take (end - start) (drop start room.old.items))
        (take (end - start + part_len result.1) (drop result.0 room.new.items)) }
    ensures fits { result.0 + (end - start) + part_len result.1 ≤ vec_len room.new }
    ensures bounded { (vec_len room.new ≤ ROOM) × (ROOM ≤ vec_capacity room.new) }
    ensures path { F.file_path lease.new.file ≡ F.file_path lease.old.file }
    ensures size { lease.new.size ≡ lease.old.size }
    ensures entry { entry_of lease.new ≡ entry_of lease.old }
    ensures read { ReadPart result.1 (F.told files.old) (F.told files.new) }
{
    let start_now = make_room(room, start, end, n);
    let out = part_at(files, lease, from, room, start_now + (end - start), n);
    (start_now, out)
}

/// Reads at most `n` bytes of a file into the room from `at` on.
fn part_at<F: Files>(
    files: &mut F,
    lease: &mut Lease<F>,
    from: u64,
    room: &mut [u8],
    at: usize,
    n: usize,
) -> PartOut
    requires some { 0 < n }
    requires room { at + n ≤ length room.old }
    requires inside { from < lease.old.size }
    ensures within { PartWithin result (take n (drop at room.new)) }
    ensures before { take at room.new ≡ take at room.old }
    ensures reads { IfSome F.folder
        (λ f. ReadsFrom f (F.file_path lease.old.file) from (take n (drop at room.new)) result) }
    ensures path { F.file_path lease.new.file ≡ F.file_path lease.old.file }
    ensures size { lease.new.size ≡ lease.old.size }
    ensures entry { entry_of lease.new ≡ entry_of lease.old }
    ensures read { ReadPart result (F.told files.old) (F.told files.new) }
{
    lease.read_at(files, from, &mut room[at..at + n])
}
