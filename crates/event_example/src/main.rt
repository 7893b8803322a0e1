//! The program `event_example`: the way of an event, from a report to the run of a job
//! and back, over a net in memory.
//!
//! A connection brings `hello, ` and then `world`, and ends. Whoever reads it goes by three rules:
//!
//! 1. Register with the mark that you hold. The first is the number of the opening.
//! 2. When the job runs, read until `NotYet`: that uses up the report which made it run.
//! 3. Register again, with the mark that the run was given. It is the number of that report; one that came
//!    since has a later number, so the job runs at once, and no report is lost.
//!
//! A dispatcher takes the turns. In a turn it runs the jobs that are due, polls once, and reports what the
//! poll gave. A report of a connection whose job waits makes it due in the next turn.
#![tactic(auto)]

// What reads the connection: its job, and what a run does with it.
mod reader;

// The manager, the queue, the net and the dispatcher.
mod set_up;

use anyhow::{Result, bail};
use dispatcher::Turned;
use reader::Went;
use set_up::Example;

/// How many turns are taken at most.
const TURNS: u32 = 8;

fn main(rt: HostRuntime) -> Result<()> {
    let mut example = Example::new(&rt, rt.alloc())?;
    let opening = example.opening;
    println!(rt;
        "descriptor {}: a job waits with mark {}",
        opening.fd, opening.number
    )?;
    for number in 1..=TURNS {
        let Turned::Done { reports, ran } = example.take_turn(&rt) else {
            bail!("turn {number} wasn't done");
        };
        println!(rt; "turn {number}: runs {ran}, reports {reports}")?;
        match example.runner.body.went.take() {
            Some(Went::On { read, mark }) => {
                println!(rt; "  {read} bytes, then `NotYet`: waits again with mark {mark}")?;
            }
            Some(Went::ToTheEnd { read }) => {
                println!(rt; "  {read} bytes, then the end: closed")?;
                return Ok(());
            }
            None => {}
        }
    }
    bail!("the connection has no end")
}
