//! A link in memory, which gives pieces and takes as much of each write as a test wants it to.
ghost use Rattle.std.specs.Prelude.{◌≡◌, ◌<◌, ◌-◌, IfOk, drop, false, length, refl};
ghost use Rattle.outside.specs.Causes.{bytes_got, bytes_taken, GivesWithin, Read, TakesWithin, Wrote};
ghost use Rattle.outside.specs.ReadScript.{EachFilled, PlaysRead};
ghost use Rattle.outside.specs.PieceLink.{FitsIn, PlaysWrite, fresh_link, fresh_told, state_of, told_of, write_answer};

use crate::bytes::Room;
use crate::count::Count;
use crate::link::{Link, ReadOut, WriteOut};
use crate::read_script::{ReadEvent, ReadScript};
use std::alloc::{AllocError, Global};

/// What one write of a link in memory meets.
#[derive(Clone, Copy, Debug, PartialEq, Eq)]
pub enum WriteEvent {
    /// This many bytes of the piece are taken, or the whole piece where it is shorter.
    /// At 0 a fault is counted.
    Take(usize),
    /// No byte can be taken now.
    NotYet,
    /// The write fails.
    Fail,
}

/// A link in memory. It tells its bytes and no plan.
#[derive(Drop)]
pub struct PieceLink {
    reads: ReadScript,
    ended: bool,
    writes: Vec<WriteEvent>,
    written: usize,
    room: Room,
    read_faults: Count,
    write_faults: Count,
    read_waits: Count,
    write_waits: Count,
}

impl PieceLink {
    /// A link that plays these events. Each piece has at least one byte. After the last read event the input
    /// is over, and after the last write event every piece is taken whole. What is sent is kept in `room`
    /// bytes, which are taken now; a write that doesn't fit there fails.
    pub fn new(
        alloc: Global,
        reads: Vec<ReadEvent>,
        writes: Vec<WriteEvent>,
        room: usize,
    ) -> Result<PieceLink, AllocError>
        requires { EachFilled reads.items }
        ensures fresh { IfOk result (λ link. state_of link ≡ fresh_link reads.items writes.items room) }
        ensures told { IfOk result (λ link. told_of link ≡ fresh_told) }
    {
        let room = Room::new(alloc, room)?;
        Ok(PieceLink {
            reads: ReadScript::new(reads),
            ended: false,
            writes,
            written: 0,
            room,
            read_faults: Count::new(),
            write_faults: Count::new(),
            read_waits: Count::new(),
            write_waits: Count::new(),
        })
    }

    /// What was sent.
    pub fn sent(&self) -> &[u8]
        ensures { result.now ≡ (state_of self.now).room.stored }
    {
        self.room.stored()
    }

    /// What the next write event says of a piece of this length.
    fn next_write(&mut self, size: usize) -> WriteOut
        ensures answer { result ≡ write_answer (drop self.old.written self.old.writes.items) size
            (self.old.room.size - length self.old.room.stored) }
        ensures fits { FitsIn result size self.old.room }
        ensures same { self.new ≡ record self.old { written = self.new.written } }
        ensures events { drop self.new.written self.new.writes.items
            ≡ drop 1 (drop self.old.written self.old.writes.items) }
    {
        let wanted = if self.written < self.writes.len() {
            let event = self.writes[self.written];
            self.written += 1;
            match event {
                WriteEvent::Take(n) => n.min(size),
                WriteEvent::NotYet => return WriteOut::NotYet,
                WriteEvent::Fail => return WriteOut::Failed,
            }
        } else {
            size
        };
        if wanted <= self.room.free() {
            WriteOut::Took(wanted)
        } else {
            WriteOut::Failed
        }
    }
}

impl Link for PieceLink {
    ghost told = { told_of };

    ghost sure = { false };

    fn read(&mut self, buf: &mut [u8]) -> ReadOut
        requires { 0 < length buf.old }
        ensures within { GivesWithin result buf.new }
        ensures read { Read result (bytes_got result buf.new) (told_of self.old) (told_of self.new) }
        ensures plays { PlaysRead (state_of self.old).reads.left
            (state_of self.new).reads.left result buf.new }
        ensures same { state_of self.new ≡ record (state_of self.old) {
          reads = (state_of self.new).reads;
          ended = (state_of self.new).ended;
        } }
    {
        let answer = self.reads.read(buf);
        match answer {
            ReadOut::Got(_) => {}
            ReadOut::End => self.ended = true,
            ReadOut::NotYet => self.read_waits.rise(),
            ReadOut::Failed => self.read_faults.rise(),
        }
        answer
    }

    fn write(&mut self, piece: &[u8]) -> WriteOut
        ensures within { TakesWithin result piece.now }
        ensures wrote { Wrote result (bytes_taken result piece.now) (told_of self.old) (told_of self.new) }
        ensures plays { PlaysWrite (state_of self.old) (state_of self.new) piece.now result }
    {
        let answer = self.next_write(piece.len());
        match answer {
            WriteOut::Took(n) => {
                self.room.store(&piece[..n]);
                if n == 0 {
                    self.write_faults.rise();
                }
            }
            WriteOut::NotYet => self.write_waits.rise(),
            WriteOut::Failed => self.write_faults.rise(),
        }
        answer
    }

    ghost ended_told = { λ _. refl };

    ghost follows_plan = { λ _. tt };

    ghost surely = { λ link sure. Prim.cc };

    ghost faults_fit = { λ link. record { reads = link.read_faults.fits; writes = link.write_faults.fits } };

    ghost waits_fit = { λ link. record { reads = link.read_waits.fits; writes = link.write_waits.fits } };
}
