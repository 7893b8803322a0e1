//! What holds of the answers as they are defined, whatever computes them.
ghost use Rattle.std.specs.Prelude.{◌≡◌, ◌≤◌, ◌++◌, ℕ, List, [], Option, length};
ghost use Rattle.outside.specs.Causes.{LinkTold};
ghost use Rattle.outside.specs.Moments.{ClockTold};
ghost use Rattle.conn_loop.specs.Answers.{BeginsWith, IsClosed, IsOpen, answers_of, finals_of, limit};
ghost use Rattle.conn_loop.specs.Causes.{Clocked};
ghost use Rattle.conn_loop.specs.Replying.{Replying};
ghost use Rattle.outside.specs.Folder.{Folder};
ghost use Rattle.app_trait.specs.Moves.{Moves};
ghost use Rattle.conn_loop.specs.Replying.{serving_over};
ghost use Rattle.conn_loop.specs.ConnState.{Represents, SendsPrefixFor, ConnState};

use crate::limits::ANSWER_LIMIT;

/// Where more bytes come, the answers go on: what was answered stays.
pub fn answers_grow_with_bytes()
    ensures { (reply : Replying) (s t moments : List ℕ)
        → BeginsWith (answers_of reply (s ++ t) moments) (answers_of reply s moments) }
{}

/// Where more moments come, the answers go on.
pub fn answers_grow_with_moments()
    ensures { (reply : Replying) (s moments later : List ℕ)
        → BeginsWith (answers_of reply s (moments ++ later)) (answers_of reply s moments) }
{}

/// Moments beyond those that the bytes call for change nothing.
pub fn answers_take_no_more_moments()
    ensures { (reply : Replying) (s moments later : List ℕ) → finals_of s ≤ length moments
        → answers_of reply s (moments ++ later) ≡ answers_of reply s moments }
{}

/// After an answer that closes, no bytes are answered.
pub fn closed_stays()
    ensures closed { (s t : List ℕ) → IsClosed s → IsClosed (s ++ t) }
    ensures finals { (s t : List ℕ) → IsClosed s → finals_of (s ++ t) ≡ finals_of s }
    ensures answers { (reply : Replying) (s t moments : List ℕ) → IsClosed s
        → answers_of reply (s ++ t) moments ≡ answers_of reply s moments }
{}

/// No bytes close nothing.
pub fn nothing_is_open()
    ensures { IsOpen [] }
{}

/// What a connection has sent is a prefix of the answers, also between its calls.
pub fn sent_is_a_prefix()
    ensures { (moves : Moves) (folder : Option Folder) (conn : ConnState) (link : LinkTold)
        → Represents moves folder conn link
        → SendsPrefixFor (serving_over moves folder) conn link }
{}

/// The moments of a connection only grow: those that it had stay, in their order, and those
/// that the clock gave come after.
pub fn moments_grow()
    ensures { (old new : ConnState) (clock after : ClockTold) → Clocked old new clock after
        → BeginsWith new.moments old.moments }
{}

/// A connection gives as many final answers as the definition says.
pub fn the_limit_is_defined()
    ensures { ANSWER_LIMIT ≡ limit }
{}
