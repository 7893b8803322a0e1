//! What holds of all that passes of a manager have seen and made, and of the numbers that descriptors are
//! opened by. Each law is the contract of a function that does nothing when it runs.
ghost use Rattle.std.specs.Prelude.{◌≡◌, ℕ, List, ◌∷◌, All, false};
ghost use Rattle.turn_cell.specs.View.{first_view};
ghost use Rattle.turn_cell.specs.Calls.{IsSplit};
ghost use Rattle.reg_keys.specs.AllStripes.{HappensOnce};
ghost use Rattle.reg_keys.specs.declared.opening.Opening.{Opening};
ghost use Rattle.reg_keys.specs.Promises.{RunsOnce, HasOneEventEach};
ghost use Rattle.event_mgr.specs.Stripes.{past_in};
ghost use Rattle.event_mgr.specs.Manager.{MgrView, IsLawful, IsFirst, IsMgrSplit, IsClosedForGood, seen_in};
ghost use Rattle.event_mgr.specs.Level.{MgrCell, known_at, AreLevel, AddUp};
ghost use Rattle.event_mgr.specs.Weighing.{CallsWeigh};
ghost use Rattle.event_mgr.specs.Numbers.{IsLeastFree, AreAllOut, is_among, numbers_out, number_reply};
ghost use Rattle.event_mgr.specs.declared.numbers.NumbersCall.TheVariants.{Draw, GiveBack};
ghost use Rattle.event_mgr.specs.declared.numbers.NumbersReply.TheVariants.{Drawn, AllOut, Back};
ghost use Rattle.event_mgr.specs.declared.numbers.NumbersEntry.{NumbersEntry};

use reg_keys::{
    legal_closes_for_good, legal_has_one_event_each, legal_runs_once, legal_stripes_happen_once,
};
use stripe_table::Load;

/// In what any pass has seen of a stripe, at any time, a callback runs at most once and only under its
/// own opening, and one that is due has exactly one event out. Over all stripes no number is drawn
/// twice, so an opening is made once at most and a key runs once at most.
pub fn callbacks_run_once()
    ensures once { (v : MgrView) (s : ℕ) → IsLawful v → RunsOnce s 1 (past_in (seen_in s v)) }
    ensures event { (v : MgrView) (s : ℕ) → IsLawful v → HasOneEventEach s 1 (past_in (seen_in s v)) }
    ensures everywhere { (v : MgrView) → IsLawful v → HappensOnce (λ s. 1) (λ s. past_in (seen_in s v)) }
{
    legal_runs_once();
    legal_has_one_event_each();
    legal_stripes_happen_once();
}

/// Each call adds to the weight of the pass's own entries what its entry weighs, and nothing where a
/// cell was spent.
pub fn calls_weigh<T: Load>()
    ensures { CallsWeigh T.tag }
{}

/// What was closed is live in nothing that any pass sees from then on.
pub fn what_was_closed_stays_closed<T: Load>()
    ensures { (o : Opening) → IsClosedForGood T.tag o }
{
    legal_closes_for_good();
}

/// A manager's first pass is the first of each of its 33 cells, and where it is split each of them is. So
/// passes that are made by splitting share all seats, as `level` asks for.
pub fn manager_passes_are_split_cell_by_cell()
    ensures first { (v : MgrView) → IsFirst v → (k : MgrCell)
        → (name : List ℕ) × (known_at k v ≡ first_view name) }
    ensures split { (v : MgrView) (w : MgrView) (o : MgrView) → IsLawful v → IsMgrSplit v w o →
        (k : MgrCell) → IsSplit (known_at k v) (known_at k w) (known_at k o) }
{}

/// Whatever entries weigh, the own entries of all passes that were brought level weigh together what
/// the histories weigh that each of them has seen, and these are legal.
///
/// It is said of a list of anything that holds a pass of a manager, by the function to what that knows.
pub fn level_passes_add_up<A>()
    ensures { (known : A → MgrView) (x : A) (xs : List A) →
        All (λ y. IsLawful (known y)) (x ∷ xs) → AreLevel known (x ∷ xs) → AddUp known x xs }
{}

/// A draw is answered with the least number below 4,096 that isn't out, and otherwise exactly where
/// all of them are.
pub fn a_draw_gives_the_least_number()
    ensures drawn { (past : List NumbersEntry) (n : ℕ) → number_reply past Draw ≡ Drawn n
        → IsLeastFree (is_among (numbers_out past)) n }
    ensures all_out { (past : List NumbersEntry) → number_reply past Draw ≡ AllOut
        → AreAllOut (is_among (numbers_out past)) }
{}

/// A number that was given back isn't out.
pub fn a_number_is_given_back_once()
    ensures { (past : List NumbersEntry) (n : ℕ)
        → is_among (numbers_out (record { call = GiveBack n; reply = Back } ∷ past)) n ≡ false }
{}
