//! Telling one pass what another has seen: a pass is split off the one and joined into the other. It has made
//! no call, so nobody's own entries change.
use turn_cell::{Part, Pass, TurnCell};

/// A pass, or several that are held together, which can be told what another of its kind has seen.
pub trait Share {
    ghost use Rattle.level.specs.Meanings.{PassMeaning, HaveShared};

    /// What the passes are of: a turn cell, or whatever holds all the cells.
    type Of;

    // What these contracts speak of.
    ghost meaning: { PassMeaning Self Self.Of };

    /// Tells `to` what `from` has seen, of each cell.
    ///
    /// It takes no memory, makes no call, and waits for no turn.
    fn share(of: &Self::Of, from: &mut Self, to: &mut Self)
        requires from { meaning.is_of of.now from.old }
        requires to { meaning.is_of of.now to.old }
        ensures from { meaning.is_of of.now from.new }
        ensures to { meaning.is_of of.now to.new }
        ensures shared { HaveShared meaning from.old to.old from.new to.new };
}

impl<P: Part> Share for Pass<P, P::Entry> {
    ghost use Rattle.turn_cell.specs.Calls.{IsOf, view_of};

    type Of = TurnCell<P>;

    ghost meaning = { record {
      cell = Unit {0};
      entry = λ _. P.Entry;
      view = λ _ p. view_of p;
      is_of = λ c p. IsOf c p;
    } };

    fn share(of: &TurnCell<P>, from: &mut Pass<P, P::Entry>, to: &mut Pass<P, P::Entry>) {
        let Ok(other) = of.split(from) else {
            unreachable!()
        };
        of.join(to, other);
    }
}
