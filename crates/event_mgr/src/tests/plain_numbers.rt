//! The reply to a call on the numbers, computed from the whole history: plain, slow, and tested against
//! the part.
ghost use Rattle.std.specs.Prelude.{◌≡◌, ℕ, List, reverse};
ghost use Rattle.event_mgr.specs.Numbers.{is_among, out_after, numbers_out, number_reply};
ghost use Rattle.event_mgr.specs.declared.numbers.NumbersCall.TheVariants.{Draw};

use crate::numbers::{NumbersCall, NumbersEntry, NumbersReply};
use reg_keys::DESCRIPTORS;

/// The reply that a call must have after a history, which is listed with its latest entry last.
pub(crate) fn plain_reply(history: &[NumbersEntry], call: NumbersCall) -> NumbersReply
    ensures { result ≡ number_reply (reverse history.now) call }
{
    match call {
        NumbersCall::Draw => plain_draw(history),
        NumbersCall::GiveBack(number) => {
            if is_out(history, number) {
                NumbersReply::Back
            } else {
                NumbersReply::NotOut
            }
        }
    }
}

fn plain_draw(history: &[NumbersEntry]) -> NumbersReply
    ensures { result ≡ number_reply (reverse history.now) Draw }
{
    for number in 0..DESCRIPTORS as u16 {
        if !is_out(history, number) {
            return NumbersReply::Drawn(number);
        }
    }
    NumbersReply::AllOut
}

/// Whether a number was drawn and not given back since.
fn is_out(history: &[NumbersEntry], number: u16) -> bool
    ensures { result ≡ is_among (numbers_out (reverse history.now)) number }
{
    let mut out = false;
    for entry in history {
        out = is_out_after(entry, number, out);
    }
    out
}

/// Whether the number is out after one more entry.
fn is_out_after(entry: &NumbersEntry, number: u16, out: bool) -> bool
    ensures { (ms : List ℕ) → out ≡ is_among ms number
        → result ≡ is_among (out_after entry.now.call entry.now.reply ms) number }
{
    match (entry.call, entry.reply) {
        (NumbersCall::Draw, NumbersReply::Drawn(drawn)) => drawn == number || out,
        (NumbersCall::GiveBack(back), NumbersReply::Back) => back != number && out,
        _ => out,
    }
}
