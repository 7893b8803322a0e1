//! What holds of heads and bodies as they are defined, whatever reads them. Each law is the contract of a
//! function that does nothing, for callers whose proofs speak of bytes that no call was given.
ghost use Rattle.std.specs.Prelude.{◌≡◌, ◌≤◌, ◌∷◌, ℕ, List};
ghost use Rattle.std.specs.List.{join_with_byte};
ghost use Rattle.httparse.specs.Ascii.{comma};
ghost use Rattle.warp_request.specs.declared.verdict.Framing.{Framing as FramingOf};
ghost use Rattle.warp_request.specs.BodyLaws.{BodyLiesIn, BodyRefusesBy, BodyStaysSettled};
ghost use Rattle.warp_request.specs.Fields.{members_in, members_of};
ghost use Rattle.warp_request.specs.Laws.{IsRefusalStatus, StaysSettled, TellsOf};
ghost use Rattle.warp_request.specs.Next.{next_of};
ghost use Rattle.warp_request.specs.LimitsAndWords.{head_limit, field_limit, body_limit, chunk_digits, chunk_line_limit, trailer_limit};
ghost use Rattle.warp_response.specs.Statuses.{HasPhrase};

use crate::body_place::{CHUNK_DIGITS, CHUNK_LINE_LIMIT, TRAILER_LIMIT};
use crate::limits::{BODY_LIMIT, FIELD_LIMIT, HEAD_LIMIT};

/// A head or a refusal stays, whatever bytes follow; below `HEAD_LIMIT` alone more is waited for, a refusal
/// has one of its statuses, and a head is in the bytes, which are more than empty lines.
pub fn a_settled_head_stays()
    ensures stays { (s : List ℕ) → StaysSettled s }
    ensures tells { (s : List ℕ) → TellsOf s (next_of s) }
{}

/// A body that is whole or refused stays so, whatever bytes follow; one that is whole is in its bytes, and a
/// refusal has one of its statuses.
pub fn a_settled_body_stays()
    ensures stays { (framing : FramingOf) (s : List ℕ) → BodyStaysSettled framing s }
    ensures within { (framing : FramingOf) (s : List ℕ) → BodyLiesIn framing s }
    ensures refuses { (framing : FramingOf) (s : List ℕ) → BodyRefusesBy framing s }
{}

/// Each status of a refusal can be sent: it has a reason phrase, and it is one of an error.
#[tactic(auto, using(crate::specs::StatusLaws::refusal_phrase, crate::specs::StatusLaws::refusal_least))]
pub fn a_refusal_can_be_sent()
    ensures phrase { (code : ℕ) → IsRefusalStatus code → HasPhrase code }
    ensures least { (code : ℕ) → IsRefusalStatus code → 400 ≤ code }
{}

/// The limits are those of the definitions.
pub fn limits_are_defined()
    ensures head { (HEAD_LIMIT ≡ head_limit) × (FIELD_LIMIT ≡ field_limit) }
    ensures body { (BODY_LIMIT ≡ body_limit) × (CHUNK_DIGITS ≡ chunk_digits)
        × (CHUNK_LINE_LIMIT ≡ chunk_line_limit)
        × (TRAILER_LIMIT ≡ trailer_limit) }
{}

/// The list of several lines is that of one line with their values joined by commas (RFC 9110, section 5.3).
pub fn lists_join_their_lines()
    ensures { (value : List ℕ) (values : List (List ℕ))
        → members_in (join_with_byte comma (value ∷ values)) ≡ members_of (value ∷ values) }
{}
