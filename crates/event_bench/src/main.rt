//! The program `event_bench`: makes calls on an event manager, each thread on a stripe of its own, and
//! prints how many came out as they should.
//!
//! Its words are what is done in a round (`report`, `register`, `dispatch` or `cycle`), the bytes of a job
//! (8 or 400), the threads and the rounds of each. It measures no time: whoever runs it does.
#![tactic(auto)]

// What the words ask for.
mod order;

// Jobs of either size.
mod job;

// The rounds of one thread.
mod rounds;

// The threads.
mod bench;

use bench::run;
use job::{Large, Small};
use order::{Order, Size, order_of};
use std::env;
use std::process::ExitCode;

/// The command line was none of this program's.
const USAGE: u8 = 2;

/// Out of memory, or an answer that should not have come.
const FAILED: u8 = 3;

fn main(rt: HostRuntime) -> ExitCode {
    let Some(order) = order_of(&words_of(&rt)) else {
        let _ = eprintln!(rt; "words: report|register|dispatch|cycle 8|400 THREADS ROUNDS");
        return ExitCode::from(USAGE);
    };
    let outcome = match order.size {
        Size::Small => run::<Small, HostRuntime>(&rt, rt.alloc(), &order),
        Size::Large => run::<Large, HostRuntime>(&rt, rt.alloc(), &order),
    };
    let Ok(rounds) = outcome else {
        return ExitCode::from(FAILED);
    };
    match println!(rt; "{rounds} rounds") {
        Ok(()) => ExitCode::SUCCESS,
        Err(_) => ExitCode::from(FAILED),
    }
}

/// The words of the command line without the program's name; none where they aren't text, or don't fit into
/// memory.
fn words_of(rt: &HostRuntime) -> Vec<String> {
    let mut words = Vec::new(rt.alloc());
    let Ok(args) = env::args(rt) else {
        return words;
    };
    for word in args.skip(1) {
        if words.push(word).is_err() {
            return words;
        }
    }
    words
}
