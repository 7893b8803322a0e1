//! One connection. All that stands above knows it by what its answers say: bytes, an end, a wait or a fault,
//! and by two counts for each direction that show which of these the caller was told.
ghost use Rattle.std.specs.Prelude.{◌≡◌, ◌<◌, Bool, length, IsTrue, is_some};
ghost use Rattle.outside.specs.Counts.{AreCounts, nothing_counted};
ghost use Rattle.outside.specs.Causes.{bytes_got, bytes_taken, FollowsPlan, GivesWithin, LinkTold, Read, TakesWithin, Wrote};

/// What a read answers.
#[derive(Clone, Copy, Debug, PartialEq, Eq)]
pub enum ReadOut {
    /// This many bytes stand at the front of the buffer: at least one.
    Got(usize),
    /// The input is over.
    End,
    /// No byte is there now. The link's count of waits of reads rose.
    NotYet,
    /// The link's count of faults of reads rose.
    Failed,
}

/// What a write answers.
#[derive(Clone, Copy, Debug, PartialEq, Eq)]
pub enum WriteOut {
    /// The first bytes of the piece were taken, so many. At 0 the count of faults of writes rose.
    Took(usize),
    /// No byte can be taken now, and none was. The link's count of waits of writes rose.
    NotYet,
    /// No byte was taken. The link's count of faults of writes rose.
    Failed,
}

/// One connection.
pub trait Link {
    // Its bytes, its end and its plan, where they are told, and its counts of faults and waits.
    ghost told: { Self → LinkTold };

    // Whether no value of the type ever has a fault.
    ghost sure: { Bool };

    /// Reads bytes into the front of the buffer, which isn't empty.
    fn read(&mut self, buf: &mut [u8]) -> ReadOut
        requires { 0 < length buf.old }
        ensures within { GivesWithin result buf.new }
        ensures read { Read result (bytes_got result buf.new) (told self.old) (told self.new) };

    /// Writes the first bytes of the piece, which isn't empty.
    fn write(&mut self, piece: &[u8]) -> WriteOut
        requires { 0 < length piece.now }
        ensures within { TakesWithin result piece.now }
        ensures wrote { Wrote result (bytes_taken result piece.now) (told self.old) (told self.new) };

    ghost ended_told: { (link : Self) → is_some (told link).ended ≡ is_some (told link).taken };

    ghost follows_plan: { (link : Self) → FollowsPlan (told link) };

    ghost surely: { (link : Self) → IsTrue sure → (told link).faults ≡ nothing_counted };

    ghost faults_fit: { (link : Self) → AreCounts (told link).faults };

    ghost waits_fit: { (link : Self) → AreCounts (told link).waits };
}
