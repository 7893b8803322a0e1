//! What holds of every history of watches, and of what a full table shows. Each law is the contract of a
//! function that does nothing.
ghost use Rattle.std.specs.Prelude.{◌≡◌, ◌≤◌, ◌<◌, ◌∷◌, ◌++◌, ℕ, List, Option, Some, false};
ghost use Rattle.reg_keys.specs.declared.Opening.{Opening};
ghost use Rattle.reg_keys.specs.Tests.{total, IsIn};
ghost use Rattle.timeout_mgr.specs.declared.view.WatchName.{WatchName};
ghost use Rattle.timeout_mgr.specs.declared.view.WatchEntry.TheVariants.{Added, Tickled, Cancelled, Swept};
ghost use Rattle.timeout_mgr.specs.declared.view.Shown.{Shown};
ghost use Rattle.timeout_mgr.specs.Watches.{WatchLog, watch_entries, Ended, status, IsWatchHistory};
ghost use Rattle.timeout_mgr.specs.Passes.{entries_in};
ghost use Rattle.timeout_mgr.specs.Calls.{AreTaken, IsRound};
ghost use Rattle.timeout_mgr.specs.Promises.{adds, gives, EndsOnce, WasUnborn, StaysEnded, last_is_sweep, is_given, ShowsTaken};

/// A watch is given at most once: it is added at most once, and ends at most once.
pub fn watches_end_once()
    ensures { (log : WatchLog) → IsWatchHistory log → EndsOnce log }
{}

/// A watch that was added is one that no earlier add gave and that didn't live before.
pub fn added_watches_were_unborn()
    ensures { (x : WatchName) (o : Opening) (past : WatchLog)
        → IsWatchHistory (Added x o ∷ past) → WasUnborn x.slot x.number past }
{}

/// Where a tickle or a cancel answers that a watch doesn't live, and an add gave it before, it has ended.
pub fn gone_watches_have_ended()
    ensures tickled { (x : WatchName) (past : WatchLog) → IsWatchHistory (Tickled x false ∷ past)
        → 1 ≤ total (adds x.slot x.number) past → status x.slot x.number past ≡ Ended }
    ensures cancelled { (x : WatchName) (past : WatchLog) → IsWatchHistory (Cancelled x false ∷ past)
        → 1 ≤ total (adds x.slot x.number) past → status x.slot x.number past ≡ Ended }
{}

/// A watch that has ended lives never again: every later tickle and cancel of it answers so, and no sweep
/// gives it.
pub fn ended_watches_stay_ended()
    ensures { (slot number : ℕ) (later past : WatchLog) → IsWatchHistory (later ++ past)
        → status slot number past ≡ Ended → StaysEnded slot number later past }
{}

/// The opening that a sweep gives is the one for which its watch was added.
pub fn watches_keep_their_openings()
    ensures { (log : WatchLog) (x : WatchName) (o : Opening) → IsWatchHistory log
        → IsIn (Swept x (Some o)) log → IsIn (Added x o) log }
{}

/// A sweep that comes by a watch gives it exactly where the watch's last entry is a sweep.
pub fn sweeps_give_after_a_sweep()
    ensures { (x : WatchName) (given : Option Opening) (past : WatchLog)
        → IsWatchHistory (Swept x given ∷ past)
        → is_given given ≡ last_is_sweep (watch_entries x.slot x.number past) }
{}

/// The openings that a sweep answers with are those that its entries gave, whatever an opening weighs.
pub fn sweeps_answer_what_they_gave()
    ensures { (f : Opening → ℕ) (slots : ℕ) (items : List Shown) (out : List Opening)
        → IsRound slots items out → total f out ≡ total (gives f) (entries_in items) }
{}

/// Where an add answers that the table is full, it was shown of each slot that it is taken.
pub fn full_tables_show_each_slot()
    ensures { (first : ℕ) (items : List Shown) → AreTaken first 4096 items
        → (k : ℕ) → k < 4096 → ShowsTaken k items }
{}
