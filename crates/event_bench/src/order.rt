//! What the words of the command line ask for.
ghost use Rattle.std.specs.Prelude.{◌<◌};

use std::string::String;

/// The most threads. Each has a stripe of its own.
const MOST_THREADS: usize = 32;

/// The most rounds of a thread.
const MOST_ROUNDS: u64 = 1 << 40;

/// What is done in a round.
#[derive(Clone, Copy)]
pub(crate) enum What {
    /// A report of an opening for which nothing waits.
    Report,
    /// A registration that waits, and its withdrawal.
    Register,
    /// A registration that is due at once, and the dispatch of its event.
    Dispatch,
    /// The way of an event: a registration that waits, the report that it waits for, and the dispatch.
    Cycle,
}

/// The bytes of a job.
#[derive(Clone, Copy)]
pub(crate) enum Size {
    /// 8.
    Small,
    /// 400.
    Large,
}

/// What is done, with which jobs, by how many threads and how often by each.
#[derive(Clone, Copy)]
pub(crate) struct Order {
    pub what: What,
    pub size: Size,
    pub threads: usize,
    pub rounds: u64,
    ghost some: { 0 < threads },
}

/// The order that four words are, if they are one.
pub(crate) fn order_of(words: &Vec<String>) -> Option<Order> {
    let [what, size, threads, rounds] = words.as_slice() else {
        return None;
    };
    let what = what_of(what.as_str())?;
    let size = size_of_job(size.as_str())?;
    let threads = threads.as_str().parse::<usize>().ok()?;
    let rounds = rounds.as_str().parse::<u64>().ok()?;
    if threads == 0 || threads > MOST_THREADS || rounds > MOST_ROUNDS {
        return None;
    }
    Some(Order {
        what,
        size,
        threads,
        rounds,
    })
}

fn what_of(word: &str) -> Option<What> {
    match word {
        "report" => Some(What::Report),
        "register" => Some(What::Register),
        "dispatch" => Some(What::Dispatch),
        "cycle" => Some(What::Cycle),
        _ => None,
    }
}

fn size_of_job(word: &str) -> Option<Size> {
    match word {
        "8" => Some(Size::Small),
        "400" => Some(Size::Large),
        _ => None,
    }
}
