//! What holds of any views and histories, for tables above that have seats of this kind and a rule of their
//! own. Each law is the contract of a function that does nothing.
ghost use Rattle.std.specs.Prelude.{◌≡◌, ◌≢◌, ℕ, List, [], ◌∷◌, ◌++◌};
ghost use Rattle.turn_cell.specs.declared.view.View.{View};
ghost use Rattle.turn_cell.specs.Classes.{AreClasses, Within, first_of};
ghost use Rattle.turn_cell.specs.History.{Log, entries_in, Foreign, Ahead, AtFirsts};
ghost use Rattle.turn_cell.specs.View.{left_of, right_of, both_of, joined_of, JoinFits};
ghost use Rattle.turn_cell.specs.Calls.{IsSplit, IsJoined};

/// A view whose first class is cut in two is split: own entries stay, the other half has none, and each
/// number stays in a class of one of the two.
pub fn halves_are_a_split<E>()
    ensures { (v w o : View E) → AreClasses v.classes → AtFirsts v.classes v.seen
        → w ≡ left_of v → o ≡ right_of v → IsSplit v w o }
{}

/// Two views put together are joined: what either had seen begins what is seen then, and the own entries are
/// those of both.
pub fn joined_views_are_a_join<E>()
    ensures { (v o w : View E) → AreClasses (v.classes ++ o.classes) → JoinFits (both_of v o).told
        → w ≡ joined_of v o → IsJoined v o w }
{}

/// Of the own entries one alone is new, where others' entries and then one under the first seat came to a
/// history.
pub fn an_entry_is_the_passes_own<E>()
    ensures { (classes : List (ℕ × ℕ)) (seen between : Log E) (e : E) → classes ≢ [] → AreClasses classes
        → Foreign classes between
        → entries_in classes ((seen ++ between) ++ (first_of classes, e) ∷ [])
        ≡ entries_in classes seen ++ (first_of classes, e) ∷ [] }
{}

/// After what a pass with all seats has seen there is nothing.
pub fn all_seats_see_all<E>()
    ensures { (classes : List (ℕ × ℕ)) (seen log : Log E) → ((n : ℕ) → Within n classes)
        → Ahead classes seen log → log ≡ seen }
{}
