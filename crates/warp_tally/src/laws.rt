//! What holds of every history of a tally. Each law is the contract of a function that does nothing.
ghost use Rattle.std.specs.Prelude.{◌≡◌, ◌∷◌, ◌++◌, ℕ, List, Some};
ghost use Rattle.reg_keys.specs.declared.opening.Opening.{Opening};
ghost use Rattle.reg_keys.specs.Tests.{total};
ghost use Rattle.warp_tally.specs.declared.calls.TallyEntry.{TallyEntry};
ghost use Rattle.warp_tally.specs.declared.tally.Tally.{Tally};
ghost use Rattle.warp_tally.specs.Tallies.{IsTallyPast, tally_past, totals_of};
ghost use Rattle.warp_tally.specs.RepresentsTally.{RepresentsTally};
ghost use Rattle.turn_cell.specs.Weights.{weigh};
ghost use Rattle.warp_tally.specs.Accounts.{FollowsAccepts, ShowsCounts, accepts, finishes, accepts_any, finishes_any, finished_in, times};

/// In the history that a tally stands for each reply is the one that its call must have.
pub fn tallies_reply_rightly()
    ensures { (past : List TallyEntry) (t : Tally) → RepresentsTally past t → IsTallyPast past }
{}

/// A history and its past weigh the same, so sums over passes in a turn cell are sums over a past.
pub fn pasts_weigh_as_their_histories()
    ensures { (f : TallyEntry → ℕ) (h : List (ℕ × TallyEntry))
        → total f (tally_past h) ≡ weigh (λ e. f e.1) h }
{}

/// A finish counts at most as often as its opening was accepted.
pub fn finishes_follow_accepts()
    ensures { (past : List TallyEntry) → IsTallyPast past → FollowsAccepts past }
{}

/// Where as many openings were finished as were accepted, each one was.
pub fn full_counts_close_each()
    ensures { (past : List TallyEntry) → IsTallyPast past
        → total finishes_any past ≡ total accepts_any past
        → (o : Opening) → total (finishes o) past ≡ total (accepts o) past }
{}

/// An opening is as often among those that some entries finished as they finished it.
pub fn finished_openings_are_counted()
    ensures { (o : Opening) (entries : List TallyEntry)
        → times o (finished_in entries) ≡ total (finishes o) entries }
{}

/// A reply shows the sums of the history that ends with its call.
pub fn replies_show_the_counts()
    ensures { (e : TallyEntry) (past : List TallyEntry) → IsTallyPast (e ∷ past)
        → ShowsCounts (e ∷ past) e.reply }
{}

/// The first stop stays.
pub fn stops_stay()
    ensures { (later past : List TallyEntry) (code : ℕ)
        → (totals_of past).stop ≡ Some code → (totals_of (later ++ past)).stop ≡ Some code }
{}
