//! Rows that hold passes beside other things. They are brought level where they lie, and
//! the other things stay.
ghost use Rattle.std.specs.Prelude.{◌≡◌, ◌∷◌, length, map};
ghost use Rattle.level.specs.Meanings.{AllAreOf, HoldAllSeats, KeepOwn, AreBroughtLevel};
ghost use Rattle.level.specs.Gathering.{AreGathered, HaveTold};

/// A row that holds a pass, or several, which can be told what another row's have seen.
pub trait ShareRow {
    ghost use Rattle.std.specs.Prelude.{◌≡◌};
    ghost use Rattle.level.specs.Meanings.{HaveShared};
    ghost use Rattle.warp_passes.specs.Rows.{RowMeaning};

    /// What the passes are of.
    type Of;

    // What these contracts speak of.
    ghost meaning: { RowMeaning Self Self.Of };

    /// Tells `to` what `from` has seen, of each cell. Whatever else the rows hold stays.
    ///
    /// It takes no memory, makes no call, and waits for no turn.
    fn share_row(of: &Self::Of, from: &mut Self, to: &mut Self)
        requires from { meaning.passes.is_of of.now from.old }
        requires to { meaning.passes.is_of of.now to.old }
        ensures from { meaning.passes.is_of of.now from.new }
        ensures to { meaning.passes.is_of of.now to.new }
        ensures shared { HaveShared meaning.passes from.old to.old from.new to.new }
        ensures rest { meaning.rest from.new ≡ meaning.rest from.old }
        ensures other_rest { meaning.rest to.new ≡ meaning.rest to.old };
}

/// Brings the passes of all rows to one history of each cell. Each keeps its own entries, and each row what
/// else it holds.
///
/// It takes no memory, and waits for no turn: what each row's passes had seen is told to the first's, and
/// what the first's have then seen to each.
pub fn bring_rows_level<P: ShareRow>(of: &P::Of, rows: &mut [P])
    requires own { AllAreOf P.meaning.passes of.now rows.old }
    requires seats { HoldAllSeats P.meaning.passes rows.old }
    ensures own { AllAreOf P.meaning.passes of.now rows.new }
    ensures seats { HoldAllSeats P.meaning.passes rows.new }
    ensures keeps { KeepOwn P.meaning.passes rows.old rows.new }
    ensures rest { map P.meaning.rest rows.new ≡ map P.meaning.rest rows.old }
    ensures level { AreBroughtLevel P.meaning.passes rows.old rows.new }
{
    if let Some((first, others)) = rows.split_first_mut() {
        gather(of, first, others);
        spread(of, first, others);
    }
}

/// The first row's passes come to see what any of the others has seen.
fn gather<P: ShareRow>(of: &P::Of, first: &mut P, others: &mut [P])
    requires own { AllAreOf P.meaning.passes of.now (first.old ∷ others.old) }
    ensures own { AllAreOf P.meaning.passes of.now (first.new ∷ others.new) }
    ensures keeps { KeepOwn P.meaning.passes (first.old ∷ others.old) (first.new ∷ others.new) }
    ensures rest { map P.meaning.rest (first.new ∷ others.new) ≡ map P.meaning.rest (first.old ∷ others.old) }
    ensures gathered { AreGathered P.meaning.passes (first.old ∷ others.old) (length (first.new ∷ others.new))
        (first.new ∷ others.new) }
{
    for other in others {
        P::share_row(of, other, first);
    }
}

/// The passes of each of the others come to see what the first row's have seen.
fn spread<P: ShareRow>(of: &P::Of, first: &mut P, others: &mut [P])
    requires own { AllAreOf P.meaning.passes of.now (first.old ∷ others.old) }
    ensures own { AllAreOf P.meaning.passes of.now (first.new ∷ others.new) }
    ensures keeps { KeepOwn P.meaning.passes (first.old ∷ others.old) (first.new ∷ others.new) }
    ensures rest { map P.meaning.rest (first.new ∷ others.new) ≡ map P.meaning.rest (first.old ∷ others.old) }
    ensures told { HaveTold P.meaning.passes (first.old ∷ others.old) (length (first.new ∷ others.new))
        (first.new ∷ others.new) }
{
    for other in others {
        P::share_row(of, first, other);
    }
}
