//! A sink in memory, whose room is taken at its making.
ghost use Rattle.std.specs.Prelude.{◌≡◌, [], IfOk, Some};
ghost use Rattle.outside.specs.SinkCauses.{Puts};
ghost use Rattle.outside.specs.MemSink.{StoresWhatFits, room_of, told_of};

use crate::bytes::Room;
use crate::count::Count;
use crate::sink::{Sink, SinkOut};
use std::alloc::{AllocError, Global};

/// A sink with room for this many bytes.
#[derive(Drop)]
pub struct MemSink {
    room: Room,
    faults: Count,
}

impl MemSink {
    /// A sink with room for `room` bytes, which it takes now.
    pub fn new(alloc: Global, room: usize) -> Result<MemSink, AllocError>
        ensures empty { IfOk result (λ sink. room_of sink ≡ record { stored = []; size = room }) }
        ensures told { IfOk result (λ sink. told_of sink ≡ record { stored = Some []; faults = 0 }) }
    {
        let room = Room::new(alloc, room)?;
        Ok(MemSink {
            room,
            faults: Count::new(),
        })
    }

    /// What is stored.
    pub fn bytes(&self) -> &[u8]
        ensures { result.now ≡ (room_of self.now).stored }
    {
        self.room.stored()
    }
}

impl Sink for MemSink {
    ghost told = { told_of };

    fn put(&mut self, piece: &[u8]) -> SinkOut
        ensures stores { StoresWhatFits (room_of self.old) (room_of self.new) piece.now result }
        ensures puts { Puts result piece.now (told_of self.old) (told_of self.new) }
    {
        let count = piece.len().min(self.room.free());
        self.room.store(&piece[..count]);
        if count < piece.len() {
            self.faults.rise();
            SinkOut::Failed
        } else {
            SinkOut::Stored
        }
    }

    ghost faults_fit = { λ sink. sink.faults.fits };
}
