//! What holds of every legal history. Each law is the contract of a function that does nothing.
ghost use Rattle.std.specs.Prelude.{ℕ, ◌<◌, List, ◌++◌, Bool};
ghost use Rattle.reg_keys.specs.declared.entry.Entry.{Entry};
ghost use Rattle.reg_keys.specs.Replies.{IsLegal};
ghost use Rattle.reg_keys.specs.Promises.{RunsOnce, HasOneEventEach};
ghost use Rattle.reg_keys.specs.declared.opening.Opening.{Opening};
ghost use Rattle.reg_keys.specs.declared.registration.Dir.{Dir};
ghost use Rattle.reg_keys.specs.Consistency.{IsConsistent};
ghost use Rattle.reg_keys.specs.Refusals.{IsRefusal, ChangesNothing};
ghost use Rattle.reg_keys.specs.World.{WorldStep, first_world, world_at, IsLawful, LosesNoWakeUp};
ghost use Rattle.reg_keys.specs.Accounts.{DrawsEachOnce, DrawsInItsStripe, NumbersReportsAlone, ClosesWhatItOpened, ClosesForGood, RunsWhatWasRegistered, EndedOrWaits, EndsWhatWasRegistered, RunsUnderItsMarks, TellsOfFlags};
ghost use Rattle.reg_keys.specs.OwnOpenings.{NamesOwnOpenings};
ghost use Rattle.reg_keys.specs.AllStripes.{AreLegal, HappensOnce};

/// A callback runs at most once and only under its own opening, whatever openings come and go.
pub fn legal_runs_once()
    ensures { (s : ℕ) (c : ℕ) (past : List Entry) → IsLegal s c past → RunsOnce s c past }
{}

/// A registration that waits and whose direction was reported has exactly one event out.
pub fn legal_has_one_event_each()
    ensures { (s : ℕ) (c : ℕ) (past : List Entry) → IsLegal s c past → HasOneEventEach s c past }
{}

/// No number is drawn twice, so an opening is made once and a key stands in one Ran list at most.
pub fn legal_draws_each_once()
    ensures { (s : ℕ) (c : ℕ) (past : List Entry) → IsLegal s c past → DrawsEachOnce past }
{}

/// What runs shows the key, opening, direction and tag of its own registration.
pub fn legal_runs_what_was_registered()
    ensures { (s : ℕ) (c : ℕ) (past : List Entry) → IsLegal s c past → RunsWhatWasRegistered past }
{}

/// What ran and what was shut shows the key, opening and tag of its own registration, and each
/// registration ended once at most, whether it ran or was shut.
pub fn legal_ends_what_was_registered()
    ensures { (s : ℕ) (c : ℕ) (past : List Entry) → IsLegal s c past → EndsWhatWasRegistered past }
{}

/// Where nothing was withdrawn, each registration that was accepted ended, or waits still.
pub fn legal_ended_or_waits()
    ensures { (s : ℕ) (c : ℕ) (past : List Entry) → IsLegal s c past → EndedOrWaits past }
{}

/// What runs is shown the marks that its opening had just before, and the opening was live.
pub fn legal_runs_under_its_marks()
    ensures { (s : ℕ) (c : ℕ) (past : List Entry) → IsLegal s c past → RunsUnderItsMarks s c past }
{}

/// Each number is drawn in its own stripe, so what holds of each stripe's numbers alone holds of
/// those of all stripes together.
pub fn legal_draws_in_its_stripe()
    ensures { (s : ℕ) (c : ℕ) (past : List Entry)
        → s < 32 → IsLegal s c past → DrawsInItsStripe s past }
{}

/// The number of a report is drawn as all others are: once, and in its own stripe. It is what the marks
/// show.
pub fn legal_numbers_reports_alone()
    ensures { (s : ℕ) (c : ℕ) (past : List Entry)
        → s < 32 → IsLegal s c past → NumbersReportsAlone s c past }
{}

/// What a reply names is its own: an opening of the descriptor that was asked for, an event of the
/// opening that the call is about, a key of the stripe.
pub fn legal_names_own_openings()
    ensures { (s : ℕ) (c : ℕ) (past : List Entry)
        → s < 32 → IsLegal s c past → NamesOwnOpenings s past }
{}

/// Over all stripes no number is drawn twice, so an opening is made once at most, and a key runs once at
/// most.
pub fn legal_stripes_happen_once()
    ensures { (firsts : ℕ → ℕ) (pasts : ℕ → List Entry) → AreLegal firsts pasts → HappensOnce firsts pasts }
{}

/// Each opening that was made is live, or was closed, once.
pub fn legal_closes_what_it_opened()
    ensures { (s : ℕ) (c : ℕ) (past : List Entry) → IsLegal s c past → ClosesWhatItOpened past }
{}

/// An opening that was closed stays closed.
pub fn legal_closes_for_good()
    ensures { (s : ℕ) (c : ℕ) (later : List Entry) (past : List Entry)
        → IsLegal s c (later ++ past) → ClosesForGood later past }
{}

/// A flag's owner is told that it ran, or that it was closed, only where the history shows it.
pub fn legal_tells_of_flags()
    ensures { (s : ℕ) (c : ℕ) (past : List Entry) → IsLegal s c past → TellsOfFlags past }
{}

/// Registrations wait in the order of their keys, and a flag's owner is told that it waits exactly
/// while it does.
pub fn legal_is_consistent()
    ensures { (s : ℕ) (c : ℕ) (past : List Entry) → IsLegal s c past → IsConsistent past }
{}

/// A call that is refused changes nothing but the history.
pub fn refusals_change_nothing()
    ensures { (s : ℕ) (c : ℕ) (past : List Entry) (e : Entry)
        → IsRefusal e → ChangesNothing s c past e }
{}

/// After every list of lawful steps of a stripe and its devices no wake-up is lost: what is ready
/// counts as ready, or an edge or a report of it is still to come.
pub fn lawful_worlds_lose_no_wake_up()
    ensures { (s : ℕ) (c : ℕ) (truth : Opening → Dir → Bool) (steps : List WorldStep)
        → IsLawful s c (first_world truth) steps
        → LosesNoWakeUp s c (world_at s c (first_world truth) steps) }
{}
