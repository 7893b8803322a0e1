//! What becomes of registrations that are taken out of their places: an event runs them, or their
//! opening is closed. Jobs are handed out, and flags are told how they came out.
ghost use Rattle.std.specs.Prelude.{◌≡◌, ◌<◌, ◌≤◌, length, map};
ghost use Rattle.reg_keys.specs.Tests.{how_many};
ghost use Rattle.stripe_table.specs.Ascending.{Ascends};
ghost use Rattle.stripe_table.specs.Flags.{key_of};
ghost use Rattle.stripe_table.specs.Firing.{fired_as, shut_as, settle_all, run_state, shut_state, told_of};
ghost use Rattle.stripe_table.specs.Descriptors.{flag_waits};

use crate::calls::{Fired, FiredList, ShutList};
use crate::descriptor::Registration;
use crate::flags::{FlagState, Flags};
use crate::four::Four;
use crate::load::Payload;
use reg_keys::{Key, Marks};

/// Runs what an event has taken, with the marks of its opening.
pub(crate) fn run_all<T: Drop>(
    taken: Four<Registration<T>>,
    marks: Marks,
    flags: &mut Flags,
) -> FiredList<T>
    requires { length taken ≤ 4 }
    ensures list { result ≡ map (fired_as marks) taken }
    ensures flags { Ascends key_of flags.old → flags.new ≡ settle_all (run_state marks) taken flags.old }
{
    let mut taken = taken;
    let mut list = Four::new();
    while let Some(registration) = taken.pop_first() {
        tell(
            &registration,
            FlagState::Ran(registration.dir, marks),
            flags,
        );
        list.push(Fired {
            key: Key {
                number: registration.key,
            },
            dir: registration.dir,
            marks,
            job: registration.load.into_job(),
        });
    }
    list
}

/// Gives back what waited at a close.
pub(crate) fn shut_all<T: Drop>(waits: Four<Registration<T>>, flags: &mut Flags) -> ShutList<T>
    requires { length waits ≤ 4 }
    ensures list { result ≡ map shut_as waits }
    ensures flags { Ascends key_of flags.old → flags.new ≡ settle_all shut_state waits flags.old }
{
    let mut waits = waits;
    let mut list = Four::new();
    while let Some(registration) = waits.pop_first() {
        tell(&registration, FlagState::Closed, flags);
        let key = Key {
            number: registration.key,
        };
        list.push((key, registration.load.into_job()));
    }
    list
}

/// Tells a flag how it came out. A job isn't told.
fn tell<T: Drop>(registration: &Registration<T>, state: FlagState, flags: &mut Flags)
    ensures told { Ascends key_of flags.old → flags.new ≡ told_of state registration.now flags.old }
    ensures ascends { Ascends key_of flags.old → Ascends key_of flags.new }
{
    if registration.load.is_flag() {
        flags.settle(registration.key, state);
    }
}

/// How many flags are among registrations.
pub(crate) fn flags_among<T: Drop>(taken: &Four<Registration<T>>) -> usize
    ensures { result ≡ how_many flag_waits taken.now }
{
    let mut count: usize = 0;
    for place in 0..taken.len() {
        let Some(registration) = taken.get(place) else {
            return count;
        };
        if registration.load.is_flag() {
            count += 1;
        }
    }
    count
}
