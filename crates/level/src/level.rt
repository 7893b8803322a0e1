//! Passes that are brought to one history of each of their cells.
ghost use Rattle.std.specs.Prelude.{◌∷◌, length};
ghost use Rattle.level.specs.Meanings.{AllAreOf, HoldAllSeats, KeepOwn, AreBroughtLevel};
ghost use Rattle.level.specs.Gathering.{AreGathered, HaveTold};

use crate::share::Share;

/// Brings all passes to one history of each cell. Each keeps its own entries.
///
/// It takes no memory, and waits for no turn: what each pass had seen is told to the first, and
/// what the first has then seen to each.
pub fn bring_level<P: Share>(of: &P::Of, passes: &mut [P])
    requires own { AllAreOf P.meaning of.now passes.old }
    requires seats { HoldAllSeats P.meaning passes.old }
    ensures own { AllAreOf P.meaning of.now passes.new }
    ensures keeps { KeepOwn P.meaning passes.old passes.new }
    ensures level { AreBroughtLevel P.meaning passes.old passes.new }
{
    if let Some((first, others)) = passes.split_first_mut() {
        gather(of, first, others);
        spread(of, first, others);
    }
}

/// The first pass comes to see what any of the others has seen.
fn gather<P: Share>(of: &P::Of, first: &mut P, others: &mut [P])
    requires own { AllAreOf P.meaning of.now (first.old ∷ others.old) }
    ensures own { AllAreOf P.meaning of.now (first.new ∷ others.new) }
    ensures keeps { KeepOwn P.meaning (first.old ∷ others.old) (first.new ∷ others.new) }
    ensures gathered { AreGathered P.meaning (first.old ∷ others.old) (length (first.new ∷ others.new))
        (first.new ∷ others.new) }
{
    for other in others {
        P::share(of, other, first);
    }
}

/// Each of the others comes to see what the first has seen.
fn spread<P: Share>(of: &P::Of, first: &mut P, others: &mut [P])
    requires own { AllAreOf P.meaning of.now (first.old ∷ others.old) }
    ensures own { AllAreOf P.meaning of.now (first.new ∷ others.new) }
    ensures keeps { KeepOwn P.meaning (first.old ∷ others.old) (first.new ∷ others.new) }
    ensures told { HaveTold P.meaning (first.old ∷ others.old) (length (first.new ∷ others.new))
        (first.new ∷ others.new) }
{
    for other in others {
        P::share(of, first, other);
    }
}
