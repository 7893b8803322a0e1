//! The program `warp_serve`: makes the real link, files, clock and error stream, and
//! hands them to the command.
//!
//! Its promise is that of `warp_commands::run_connection`, over these very things.
#![tactic(auto)]

use outside::{OsClock, OsFiles, StdLink, StdSink};
use sock_front::SockFront;
use std::env;
use std::io::ErrorKind;
use std::process::ExitCode;
use std::sync::Arc;
use warp_commands::{Host, Status, refuse, run};

fn main(rt: HostRuntime) -> ExitCode {
    let alloc = rt.alloc();
    let mut errors = StdSink::new(rt.stderr());
    // The runtime is held by what is made over it, whose types then name no lifetime.
    let Ok(rt) = Arc::new(alloc, rt) else {
        return ExitCode::from(refuse(&mut errors, Status::NoMemory));
    };
    let (Ok(for_files), Ok(for_clock), Ok(for_front)) = (
        Arc::try_clone(&rt),
        Arc::try_clone(&rt),
        Arc::try_clone(&rt),
    ) else {
        return ExitCode::from(refuse(&mut errors, Status::NoMemory));
    };
    let mut host = Host {
        link: StdLink::new(rt.stdin(), rt.stdout()),
        files: OsFiles::new(alloc, for_files),
        clock: OsClock::new(for_clock),
        out: StdSink::new(rt.stdout()),
        errors,
        front: SockFront::new(for_front, alloc),
        served: None,
        driven: None,
    };
    let code = match words_of(&*rt) {
        Ok(words) => run(&*rt, alloc, &words, &mut host),
        Err(status) => refuse(&mut host.errors, status),
    };
    ExitCode::from(code)
}

/// The words of the command line without the program's name. An argument that isn't UTF-8 is a usage error.
fn words_of(rt: &HostRuntime) -> Result<Vec<String>, Status> {
    let args = match env::args(rt) {
        Ok(args) => args,
        Err(e) if e.kind() == ErrorKind::InvalidData => return Err(Status::Usage),
        Err(_) => return Err(Status::NoMemory),
    };
    let mut words = Vec::new(rt.alloc());
    for word in args.skip(1) {
        if words.push(word).is_err() {
            return Err(Status::NoMemory);
        }
    }
    Ok(words)
}
