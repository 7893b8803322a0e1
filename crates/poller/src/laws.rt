//! The laws of the memory net: its steps are steps of the device world, each lawful where it comes, so that
//! what holds after all lawful steps of that world holds of the net too.
ghost use Rattle.std.specs.Prelude.{ℕ, List};
ghost use Rattle.poller.specs.Deliveries.{IsUnnoted};
ghost use Rattle.poller.specs.NetSteps.{RaisesAreLawful, WaitIsLawful, WasTold};
ghost use Rattle.reg_keys.specs.declared.opening.Opening.{Opening};
ghost use Rattle.reg_keys.specs.declared.registration.Dir.{Dir};
ghost use Rattle.reg_keys.specs.World.{World};

/// Raises of words are lawful wherever they come. They leave no edge unseen, and one report to be made for
/// each.
pub fn raises_are_lawful()
    ensures { (s : ℕ) (c : ℕ) (w : World) (raised : List Opening) → RaisesAreLawful s c w raised }
{}

/// A load that answers its caller to wait is lawful wherever it comes, with each mark that was told of a live
/// opening.
pub fn waits_are_lawful()
    ensures { (s : ℕ) (c : ℕ) (w : World) (o : Opening) (d : Dir) (m : ℕ) → WasTold s c w o d m
        → WaitIsLawful s c w o d m }
{}

/// While a link or a listener stands, its note is zero, so a poller that looks there never finds that it
/// has left. A poll meets each entry and looks once (`MemPoller::poll`), so a link that stands is reported as
/// long as it has steps left.
pub fn notes_are_of_links_that_left()
    ensures { IsUnnoted }
{}
