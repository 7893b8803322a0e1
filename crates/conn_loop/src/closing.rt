//! Whether an answer closes the connection, and the moment that is noted for it.
ghost use Rattle.std.specs.Prelude.{◌≡◌, ◌≤◌, ◌<◌, ◌+◌, ◌++◌, ◌∷◌, ℕ, List, [], if◌then◌else◌, vec_len, vec_capacity};
ghost use Rattle.conn_loop.specs.Answers.{closes as closes_of, last_word as last_word_of};
ghost use Rattle.conn_loop.specs.Heads.{asked_in};

use warp_request::HeadInfo;
use warp_response::LastWord;

/// Whether the answer closes the connection, where this many final answers may follow.
#[tactic(auto, unfolding(crate::specs::Answers::closes))]
fn closes(head: &HeadInfo, left: u32) -> bool
    ensures { (input : List ℕ) → result ≡ closes_of (asked_in input head.now) left }
{
    !head.keeps || left == 0
}

/// What the answer says of the connection, where this many final answers may follow (RFC 9112, section 9.3).
#[tactic(auto, unfolding(crate::specs::Answers::last_word))]
pub(crate) fn last_word(head: &HeadInfo, left: u32) -> LastWord
    ensures { (input : List ℕ) → result ≡ last_word_of (asked_in input head.now) left }
{
    if closes(head, left) {
        LastWord::Close
    } else if head.minor == 0 {
        LastWord::KeepAlive
    } else {
        LastWord::Nothing
    }
}

/// How many final answers may follow this one: none where it closes.
pub(crate) fn left_after(head: &HeadInfo, left: u32) -> u32
    ensures is { (input : List ℕ) → result ≡ (if closes_of (asked_in input head.now) left then 0 else left) }
    ensures fewer { result ≤ left }
{
    if closes(head, left) { 0 } else { left }
}

/// Notes a moment in the room that was taken for it. The caller owes that there is room.
pub(crate) fn note(moments: &mut Vec<u64>, moment: u64)
    requires { vec_len moments.old < vec_capacity moments.old }
    ensures items { moments.new.items ≡ moments.old.items ++ moment ∷ [] }
    ensures room { vec_capacity moments.old ≤ vec_capacity moments.new }
    ensures len { vec_len moments.new ≡ vec_len moments.old + 1 }
{
    if moments.push(moment).is_err() {
        unreachable!()
    }
}
