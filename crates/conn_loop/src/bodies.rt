//! Bodies, read where they lie: content is passed over in the input buffer, and what was
//! passed over makes room for more.
ghost use Rattle.std.specs.Prelude.{◌≡◌, ◌≤◌, ◌+◌, ◌-◌, ◌*◌, ◌++◌, List, ℕ, Option, None, true, length, take, drop};
ghost use Rattle.warp_request.specs.BodyReader.{Represents as Reads};
ghost use Rattle.warp_request.specs.Next.{next_of};
ghost use Rattle.warp_request.specs.Verdict.{asked};
ghost use Rattle.conn_loop.specs.Heads.{asked_in};
ghost use Rattle.conn_loop.specs.Phases.{HasHead, IsKept, HasLease, over_in, stage_in};
ghost use Rattle.conn_loop.specs.Steps.{IsBegun};
ghost use Rattle.conn_loop.specs.Stages.{HasRoom, IsReadUp, LiesAhead, most_of, steps_left};

use crate::buffer::Buffer;
use crate::phase::Phase;
use app_trait::Seen;
use warp_request::{BodyReader, BodyState, Framing, HeadInfo};

/// A chunked body has fewer bytes: each of its chunks has content, of at most 1 MiB in all, and besides that
/// a line of at most 256 bytes and two at its end.
pub(crate) const CHUNKED_LIMIT: u64 = 536_870_912;

/// The most bytes that a body of this framing may have.
pub(crate) fn most_bytes(framing: Framing) -> u64
    ensures { result ≡ most_of framing }
{
    match framing {
        Framing::None => 0,
        Framing::Length(length) => length,
        Framing::Chunked => CHUNKED_LIMIT,
    }
}

/// Reads on in the body after the head at the front of the input, and says where that leads. The bytes that
/// belong to it are forgotten unless it came to its end.
#[inline(always)]
pub(crate) fn read_on(
    input: &mut Buffer,
    head: HeadInfo,
    mut reader: BodyReader,
    room: u64,
) -> Phase
    requires head { HasHead input.old head }
    requires counted { HasRoom reader head.framing room }
    // The bytes that aren't answered are the same, and it stands so with the request at their front.
    ensures lies { (fed ahead : List ℕ) → Reads reader head.framing fed
        → ahead ≡ take head.head_len input.old ++ (fed ++ drop head.head_len input.old)
        → ((t : List ℕ) → next_of (ahead ++ t) ≡ asked (asked_in input.old head))
        → (path : List ℕ) → LiesAhead (stage_in input.new path result) true input.new ahead }
    ensures kept { (left : ℕ) (size : Option ℕ) → IsKept input.new left result × HasLease result size }
    ensures read { (path : List ℕ) → IsReadUp (stage_in input.new path result) input.new }
    ensures nearer { (path : List ℕ) → steps_left (stage_in input.new path result) input.new
        ≤ 2 * room + (1 - length (drop head.head_len input.old)) + 6 }
    ensures over { over_in result ≡ None }
    ensures begun { (path : List ℕ) → IsBegun (stage_in input.new path result) }
{
    let fed = reader.feed(&input.bytes()[head.head_len..]);
    match fed.state {
        BodyState::More => {
            input.keep(head.head_len);
            Phase::Reading {
                head,
                reader,
                room: room - fed.used as u64,
            }
        }
        BodyState::Whole => Phase::Ready {
            head,
            behind: fed.used,
            seen: Seen::Nothing,
        },
        BodyState::Refuse(code) => Phase::Refused(code),
    }
}
