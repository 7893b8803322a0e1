//! What holds of the seats of passes. The law is the contract of a function that does nothing when it runs.
ghost use Rattle.std.specs.Prelude.{◌≡◌, ℕ, Some, List, [], ◌∷◌, ◌++◌, slice_get, slice_set};
ghost use Rattle.level.specs.Meanings.{IsFirstPass, WereSplit, KeepSeats, HoldAllSeats};

use crate::share::Share;

/// Passes that were made by splitting, from the first one on, hold each seat once, whatever calls were made
/// with them since.
pub fn split_passes_hold_all_seats<P: Share>()
    ensures first { (p : P) → IsFirstPass P.meaning p → HoldAllSeats P.meaning (p ∷ []) }
    ensures more { (ps : List P) (i : ℕ) (p : P) (after : P) (other : P) →
        slice_get ps i ≡ Some p → WereSplit P.meaning p after other →
        HoldAllSeats P.meaning ps → HoldAllSeats P.meaning (slice_set ps i after ++ other ∷ []) }
    ensures kept { (ps : List P) (qs : List P) →
        KeepSeats P.meaning ps qs → HoldAllSeats P.meaning ps → HoldAllSeats P.meaning qs }
{}
