//! A part that counts its calls, shared by several threads.
ghost use Rattle.std.specs.Prelude.{◌≡◌, ◌<◌, [], length, map};
ghost use Rattle.level.specs.Leveling.{AreOf, views_of, classes_of};
ghost use Rattle.turn_cell.specs.Calls.{IsOf, view_of};

use crate::{bring_level, cell_with_passes};
use std::sync::Wait;
use std::test::Fail;
use std::thread::{Threads, for_each_mut};
use turn_cell::{Part, Pass, Stepped, TurnCell};

/// How many threads share the cell, and how many calls each of them makes.
const THREADS: usize = 4;

const CALLS: u64 = 500;

#[derive(Drop)]
struct Ticks {
    count: u64,
}

impl Part for Ticks {
    type Call = ();

    type Reply = u64;

    type Entry = u64;

    ghost stands = { λ t h. length h ≡ t.count };

    ghost name = { λ t. [] };

    ghost may = { λ n call. Unit {0} };

    ghost entry = { λ call reply. reply };

    ghost answers = { λ call reply. Unit {0} };

    fn apply(&mut self, _call: ()) -> u64 {
        self.count += 1;
        self.count
    }
}

fn no_ticks() -> Ticks
    ensures { result.count ≡ 0 }
{
    Ticks { count: 0 }
}

/// Each pass makes its calls in a thread of its own.
fn tick_in_threads<R: Threads + Wait + Sync>(
    rt: &R,
    cell: &TurnCell<Ticks>,
    passes: &mut Vec<Pass<Ticks, u64>>,
)
    requires { AreOf cell.now passes.old.items }
    ensures own { AreOf cell.now passes.new.items }
    ensures count { length passes.new.items ≡ length passes.old.items }
    ensures classes { map classes_of (views_of passes.new.items)
        ≡ map classes_of (views_of passes.old.items) }
{
    for_each_mut(
        rt,
        passes.as_mut_slice(),
        THREADS,
        &|_i: usize, mine: &mut Pass<Ticks, u64>| -> ()
            requires { IsOf cell.now mine.old }
            ensures { IsOf cell.entry.now mine.new
                × ((view_of mine.new).classes ≡ (view_of mine.old).classes) }
        { tick(rt, cell, mine) },
    );
}

fn tick<R: Wait>(rt: &R, cell: &TurnCell<Ticks>, pass: &mut Pass<Ticks, u64>)
    requires { IsOf cell.now pass.old }
    ensures own { IsOf cell.now pass.new }
    ensures classes { (view_of pass.new).classes ≡ (view_of pass.old).classes }
{
    for _ in 0..CALLS {
        let _ = cell.step(rt, pass, ());
    }
}

/// Makes one call more with the first pass.
fn tick_once<R: Wait>(
    rt: &R,
    cell: &TurnCell<Ticks>,
    passes: &mut Vec<Pass<Ticks, u64>>,
) -> Option<u64>
    requires some { 0 < length passes.old.items }
    requires own { AreOf cell.now passes.old.items }
{
    let first = &mut passes[0];
    match cell.step(rt, first, ()) {
        Stepped::Done(count) => Some(count),
        Stepped::Spent(()) => None,
    }
}

#[test]
fn passes_of_all_threads_are_brought_level(rt: HostRuntime) -> Result<(), Fail> {
    let (cell, mut passes) = cell_with_passes(rt.alloc(), no_ticks(), THREADS)?;
    tick_in_threads(&rt, &cell, &mut passes);
    bring_level(&cell, passes.as_mut_slice());
    assert_eq!(rt; passes.len(), THREADS);
    assert_eq!(rt;
        tick_once(&rt, &cell, &mut passes),
        Some(THREADS as u64 * CALLS + 1)
    );
    Ok(())
}
