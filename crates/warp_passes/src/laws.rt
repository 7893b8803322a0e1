//! What holds of passes that were brought level. Each law is the contract of a function that does nothing
//! when it runs. They speak of a list of anything that holds a pass of each shared thing, as rows do, by the
//! function to what its pass knows.
ghost use Rattle.std.specs.Prelude.{◌≡◌, List, ◌∷◌, All, map};
ghost use Rattle.dispatcher.specs.Stripes.{Each};
ghost use Rattle.warp_passes.specs.Passes.{PassView, IsLawfulPass};
ghost use Rattle.warp_passes.specs.Cells.{SeatsAreOnce, OwnIsKept, CameLevel};
ghost use Rattle.warp_passes.specs.Levels.{IsNew, DidNothing, OwnsTheSame, HasPassGrown, ArePassesLevel, PassesAddUp};

use event_mgr::level_passes_add_up as manager_passes_add_up;
use warp_tally::pasts_weigh_as_their_histories;

/// New passes did nothing.
pub fn new_passes_did_nothing<L>()
    ensures { (v : PassView L) → IsLawfulPass v → IsNew v → DidNothing v }
{}

/// Where passes lie in other rows, they hold each seat once as before.
pub fn moved_passes_hold_the_seats<A, B, L>()
    ensures { (known : A → PassView L) (other : B → PassView L) (xs : List A) (ys : List B) →
        map other ys ≡ map known xs → SeatsAreOnce known xs → SeatsAreOnce other ys }
{}

/// Where passes have grown by calls, they hold each seat once as before.
pub fn grown_passes_hold_the_seats<A, L>()
    ensures { (known : A → PassView L) (xs ys : List A) →
        Each HasPassGrown (map known xs) (map known ys) → SeatsAreOnce known xs → SeatsAreOnce known ys }
{}

/// Rows that were brought level are level on each cell, and what each row's pass did is what it had done.
pub fn levelled_rows_are_level<A, L>()
    ensures level { (known : A → PassView L) (xs ys : List A) →
        CameLevel known xs ys → ArePassesLevel known ys }
    ensures own { (known : A → PassView L) (xs ys : List A) →
        All (λ x. IsLawfulPass (known x)) xs → All (λ y. IsLawfulPass (known y)) ys →
        OwnIsKept known xs ys → Each OwnsTheSame (map known xs) (map known ys) }
{}

/// Whatever entries weigh, what the passes did that were brought level weighs together what the histories
/// weigh that each of them has seen, and in these each reply is right.
pub fn level_passes_add_up<A, L>()
    ensures { (known : A → PassView L) (x : A) (xs : List A) →
        All (λ y. IsLawfulPass (known y)) (x ∷ xs) → ArePassesLevel known (x ∷ xs) → PassesAddUp known x xs }
{
    manager_passes_add_up::<A>();
    pasts_weigh_as_their_histories();
}
