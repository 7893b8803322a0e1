//! The words of a command line. They are few and positional, so they are read by hand.
ghost use Rattle.std.specs.Prelude.{◌≡◌, IfOk, map, option_map, string_bytes};
ghost use Rattle.warp_load.specs.LoadWords.{dispatchers_read, load_read};
ghost use Rattle.warp_commands.specs.ServiceWords.{HasRanges, service_shown};
ghost use Rattle.warp_commands.specs.Words.{IsWithin, command_shown, drive_of, serve_of, words_read};

use crate::service::{Service, service_in};
use warp_load::{Load, dispatchers_in, load_in};

/// What a command line asks for.
#[derive(Clone, Copy, Debug)]
pub enum Command<'a> {
    /// `connection ROOT`: serve one connection over standard input and output, from the folder ROOT.
    Connection { root: &'a str },
    /// `serve ROOT ADDR PORT DISPATCHERS CONNECTIONS SECONDS`: serve whoever connects to ADDR
    /// and PORT, from the folder ROOT.
    Serve { root: &'a str, service: Service },
    /// `drive SEED CONNECTIONS REQUESTS DISPATCHERS`: serve the load of these numbers over a net in memory,
    /// with this many dispatchers, 1 to 64.
    Drive { load: Load, dispatchers: u32 },
}

/// The words are no command.
#[derive(Clone, Copy, Debug, PartialEq, Eq)]
pub struct Usage;

/// The command that the words name, the program's own name left out. It takes no memory.
///
/// A ROOT isn't empty. A number is 1 to 10 decimal digits. ADDR is four numbers of 0 to 255 with a dot
/// between each two, PORT 1 to 65,535, DISPATCHERS 1 to 64, the CONNECTIONS of `serve` 1 to 4,294,967,295 and
/// SECONDS 1 to 86,400. The other numbers of `drive` are in the ranges of a load. All else is `Usage`.
pub fn command_of(words: &[String]) -> Result<Command<'_>, Usage>
    // It is that of the words, and no other.
    ensures reads { command_shown result ≡ words_read (map string_bytes words.now) }
    ensures within { IfOk result IsWithin }
{
    match words {
        [command, root] if command.as_str() == "connection" && !root.is_empty() => {
            Ok(Command::Connection {
                root: root.as_str(),
            })
        }
        [
            command,
            root,
            address,
            port,
            dispatchers,
            connections,
            seconds,
        ] if command.as_str() == "serve" && !root.is_empty() => serve_in(
            root.as_str(),
            service_in(
                address.as_str(),
                port.as_str(),
                dispatchers.as_str(),
                connections.as_str(),
                seconds.as_str(),
            ),
        ),
        [command, seed, connections, requests, dispatchers] if command.as_str() == "drive" => {
            drive_in(
                seed.as_str(),
                connections.as_str(),
                requests.as_str(),
                dispatchers.as_str(),
            )
        }
        _ => Err(Usage),
    }
}

/// The command `serve` with this root and this service, if it is one.
fn serve_in(root: &str, service: Option<Service>) -> Result<Command<'_>, Usage>
    requires within { HasRanges service }
    ensures reads { command_shown result ≡ serve_of root.now (option_map service_shown service) }
    ensures within { IfOk result IsWithin }
{
    match service {
        Some(service) => Ok(Command::Serve { root, service }),
        None => Err(Usage),
    }
}

/// The command `drive` with these numbers.
fn drive_in<'a>(
    seed: &str,
    connections: &str,
    requests: &str,
    dispatchers: &str,
) -> Result<Command<'a>, Usage>
    ensures reads { command_shown result
        ≡ drive_of (load_read seed.now connections.now requests.now) (dispatchers_read dispatchers.now) }
    ensures within { IfOk result IsWithin }
{
    match (
        load_in(seed, connections, requests),
        dispatchers_in(dispatchers),
    ) {
        (Some(load), Some(dispatchers)) => Ok(Command::Drive { load, dispatchers }),
        _ => Err(Usage),
    }
}
