//! The program `conn_bench`: holds connections until a byte comes on standard input or that is over, so that
//! whoever runs it can see how much memory they have.
//!
//! Its words are `new`, for connections that have read nothing, or `asked`, for ones that have answered one
//! request and wait for the next, and how many there are to be. It measures nothing itself.
#![tactic(auto)]

mod held;
mod order;

use held::hold;
use order::order_of;
use outside::{OsClock, OsFiles};
use std::env;
use std::io::Read;
use std::process::ExitCode;
use std::sync::Arc;

/// The command line was none of this program's.
const USAGE: u8 = 2;

/// Out of memory, or a stream that failed.
const FAILED: u8 = 3;

fn main(rt: HostRuntime) -> ExitCode {
    let Some(order) = order_of(&words_of(&rt)) else {
        let _ = eprintln!(rt; "words: new|asked CONNECTIONS");
        return ExitCode::from(USAGE);
    };
    let Ok(rt) = Arc::new(rt.alloc(), rt) else {
        return ExitCode::from(FAILED);
    };
    let (Ok(for_files), Ok(for_clock)) = (Arc::try_clone(&rt), Arc::try_clone(&rt)) else {
        return ExitCode::from(FAILED);
    };
    let mut files = OsFiles::new(rt.alloc(), for_files);
    let mut clock = OsClock::new(for_clock);
    let Ok(held) = hold(rt.alloc(), &order, &mut files, &mut clock) else {
        return ExitCode::from(FAILED);
    };
    if println!(rt; "{} connections", held.len()).is_err() {
        return ExitCode::from(FAILED);
    }
    let mut byte = [0u8; 1];
    match rt.stdin().read(&mut byte) {
        Ok(_) => ExitCode::SUCCESS,
        Err(_) => ExitCode::from(FAILED),
    }
}

/// The words of the command line without the program's name; none where they aren't
/// text, or don't fit into memory.
fn words_of(rt: &HostRuntime) -> Vec<String> {
    let mut words = Vec::new(rt.alloc());
    let Ok(args) = env::args(rt) else {
        return words;
    };
    for word in args.skip(1) {
        if words.push(word).is_err() {
            return words;
        }
    }
    words
}
