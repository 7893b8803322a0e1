//! What a link in memory will give: pieces of bytes, reads that must wait and reads that fail, in order.
ghost use Rattle.std.specs.Prelude.{◌≡◌, ◌<◌, ◌≤◌, ◌++◌, [], length};
ghost use Rattle.outside.specs.Causes.{GivesWithin, bytes_got};
ghost use Rattle.outside.specs.ReadScript.{EachFilled, IsPlace, PlaysRead, ReadState, state_at, steps_of};

use crate::bytes::copy_from;
use crate::link::ReadOut;
use std::marker::Model;

/// What one read of a link in memory meets.
#[derive(Drop)]
pub enum ReadEvent {
    /// Bytes, at least one. A read gives as many as fit, and the rest stays for the next read.
    Piece(Vec<u8>),
    /// One read answers that no byte is there now.
    NotYet,
    /// One read fails.
    Fail,
}

/// How many events are done, and how many bytes of the next one were given.
#[derive(Clone, Copy)]
struct ReadPlace {
    done: usize,
    given: usize,
}

/// The events of the reads to come, and those that were.
#[derive(Drop)]
pub(crate) struct ReadScript {
    events: Vec<ReadEvent>,
    place: ReadPlace,
}

impl Model for ReadScript {
    ghost use Rattle.outside.specs.ReadScript.{IsPlace, ReadState, state_at};

    ghost Value = { ReadState };

    ghost view = { λ s. state_at s.events.items s.place.done s.place.given };

    ghost invariant = { λ s. IsPlace s.events.items s.place.done s.place.given };
}

impl ReadScript {
    pub(crate) fn new(events: Vec<ReadEvent>) -> ReadScript
        requires { EachFilled events.items }
        ensures { result ≡ record { given = []; left = steps_of events.items } }
    {
        ReadScript {
            events,
            place: ReadPlace { done: 0, given: 0 },
        }
    }

    pub(crate) fn read(&mut self, buf: &mut [u8]) -> ReadOut
        requires { 0 < length buf.old }
        ensures within { GivesWithin result buf.new }
        ensures plays { PlaysRead self.old.left self.new.left result buf.new }
        ensures gives { self.new.given ≡ self.old.given ++ bytes_got result buf.new }
    {
        play(&self.events, &mut self.place, buf)
    }
}

/// Plays the event at a place.
fn play(events: &[ReadEvent], place: &mut ReadPlace, buf: &mut [u8]) -> ReadOut
    requires at { IsPlace events.now place.old.done place.old.given }
    requires room { 0 < length buf.old }
    ensures at { IsPlace events.now place.new.done place.new.given }
    ensures within { GivesWithin result buf.new }
    ensures plays { PlaysRead (state_at events.now place.old.done place.old.given).left
        (state_at events.now place.new.done place.new.given).left result buf.new }
    ensures gives { (state_at events.now place.new.done place.new.given).given
        ≡ (state_at events.now place.old.done place.old.given).given ++ bytes_got result buf.new }
{
    if place.done == events.len() {
        return ReadOut::End;
    }
    match &events[place.done] {
        ReadEvent::Piece(bytes) => {
            let n = copy_from(bytes, place.given, buf);
            place.given += n;
            if place.given == bytes.len() {
                place.done += 1;
                place.given = 0;
            }
            ReadOut::Got(n)
        }
        ReadEvent::NotYet => {
            place.done += 1;
            ReadOut::NotYet
        }
        ReadEvent::Fail => {
            place.done += 1;
            ReadOut::Failed
        }
    }
}
