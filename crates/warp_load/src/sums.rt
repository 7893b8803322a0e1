//! What serving the load adds up to.
ghost use Rattle.std.specs.Prelude.{◌≡◌, ◌<◌, ◌≤◌, ◌+◌, ◌*◌, ◌^◌};
ghost use Rattle.warp_load.specs.LoadScripts.{load_room};
ghost use Rattle.warp_load.specs.LoadTotals.{load_total};

use crate::laws::{answers_fill_the_room, each_request_is_answered};
use crate::load::{Load, REQUEST_LIMIT};
use crate::request_kind::RequestKind;

/// How many bytes more the thousandth answer of a connection has, which closes it.
const CLOSING_LENGTH: u64 = 19;

/// How many final answers all connections get, and how many bytes are sent to them in all.
#[derive(Clone, Copy, Debug, PartialEq, Eq)]
pub struct Sums {
    pub requests: u64,
    pub bytes: u64,
}

/// What serving the load adds up to, by any number of dispatchers.
pub fn expected(load: Load) -> Sums
    // They are those of the definition, which has the answers themselves.
    ensures total { (result.requests, result.bytes) ≡ load_total load.seed load.connections load.requests }

    // Both are far from what a number holds.
    ensures small { (result.requests ≤ 20000) × (result.bytes < 2 ^ 38) }
{
    // The laws that tie the table of lengths to the answers.
    each_request_is_answered();
    answers_fill_the_room();
    let mut bytes = 0;
    for connection in 0..load.connections {
        bytes += room(&load, connection);
    }
    Sums {
        requests: load.connections * load.requests,
        bytes,
    }
}

/// How many bytes the answers of a connection have.
pub(crate) fn room(load: &Load, connection: u64) -> u64
    requires { connection < 4000 }
    ensures room { result ≡ load_room load.now.seed load.now.requests connection }
    ensures most { result ≤ 40141 * load.now.requests + 19 }
{
    let mut bytes = if load.requests == REQUEST_LIMIT {
        CLOSING_LENGTH
    } else {
        0
    };
    for request in 0..load.requests {
        bytes += RequestKind::of(load.seed, connection, request).answer_length();
    }
    bytes
}
