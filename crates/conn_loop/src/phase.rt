//! What a connection keeps of its input between calls, so that no input is parsed twice and no body is kept.
ghost use Rattle.std.specs.Prelude.{◌≡◌, ◌≤◌, List, ℕ, Option, length};
ghost use Rattle.conn_loop.specs.Phases.{IsKept, HasLease, over_in, stage_in};
ghost use Rattle.conn_loop.specs.Moves.{got_len};
ghost use Rattle.conn_loop.specs.Stages.{grown};
ghost use Rattle.conn_loop.specs.Steps.{stage_after};

use crate::step::End;
use app_trait::Seen;
use outside::ReadOut;
use warp_request::{BodyReader, HeadInfo};

/// Where a connection stands.
#[derive(Drop)]
pub(crate) enum Phase {
    /// The input has changed since it was judged.
    Fresh,
    /// The input is too little to say what it begins with.
    Waits,
    /// The body is read of the request whose head is at the front of the input.
    Reading {
        head: HeadInfo,
        reader: BodyReader,
        /// The most bytes that may still belong to the body.
        room: u64,
    },
    /// The input is refused with this status.
    Refused(u16),
    /// The request whose head is at the front of the input is whole.
    Ready {
        head: HeadInfo,
        /// How many bytes after the head belong to the request.
        behind: usize,
        /// What its looks for files have found.
        seen: Seen,
    },
    /// The same, and a look is asked for.
    Wanting {
        head: HeadInfo,
        behind: usize,
        seen: Seen,
    },
    /// The content of the lease's file is sent.
    Sending {
        /// What was read of it.
        at: u64,
        /// Its length.
        size: u64,
    },
    /// The request that is whole can't be answered: once what was made is written, the connection ends so.
    Unmade(End),
    /// The file failed whose content was read so far: once what was made is written, the connection ends.
    Broken(u64),
    /// The connection is over, and every later call answers this.
    Over(End),
}

impl Phase {
    /// What was read after the input is judged anew, where what was there was too little to say.
    pub(crate) fn read(&mut self, out: ReadOut)
        ensures stage { (input path : List ℕ)
            → stage_in input path self.new ≡ stage_after out (stage_in input path self.old) }
        ensures over { over_in self.new ≡ over_in self.old }
        ensures lease { (size : Option ℕ) → HasLease self.old size → HasLease self.new size }
        ensures kept { (input longer : List ℕ) (left : ℕ) → length input ≤ length longer
            → (got_len out ≡ 0 → longer ≡ input)
            → IsKept input left self.old → IsKept longer left self.new }
    {
        match out {
            ReadOut::Got(_) => self.more_came(),
            ReadOut::End | ReadOut::NotYet | ReadOut::Failed => {}
        }
    }

    /// More bytes came after the input: what was too little to say is to be judged anew.
    fn more_came(&mut self)
        ensures stage { (input path : List ℕ)
            → stage_in input path self.new ≡ grown (stage_in input path self.old) }
        ensures over { over_in self.new ≡ over_in self.old }
        ensures lease { (size : Option ℕ) → HasLease self.old size → HasLease self.new size }
        ensures kept { (input longer : List ℕ) (left : ℕ) → length input ≤ length longer
            → IsKept input left self.old → IsKept longer left self.new }
    {
        if let Phase::Waits = self {
            *self = Phase::Fresh;
        }
    }
}

/// What is ahead of a connection.
#[derive(Clone, Copy, PartialEq, Eq, Debug)]
pub(crate) enum Ahead {
    /// The input is to be judged.
    Unread,
    /// More bytes are wanted.
    Unfinished,
    /// What came is refused with this status.
    Refused(u16),
    /// A whole request is to be answered.
    Whole,
}

/// What a connection is to do next.
#[derive(Clone, Copy, PartialEq, Eq, Debug)]
pub(crate) enum Duty {
    /// It comes to its next answer.
    Answer,
    /// It waits for a file.
    Wait,
    /// It sends the content of a file.
    Send,
    /// It writes what was made, and ends so.
    End(End),
}
