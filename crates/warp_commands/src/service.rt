//! What a server is to do: where it listens, with how many dispatchers, how long, and
//! when a connection has timed out.
ghost use Rattle.std.specs.Prelude.{◌≡◌, ◌≤◌, IfSome, option_and_then, option_map};
ghost use Rattle.warp_load.specs.LoadWords.{number_read, number_within};
ghost use Rattle.warp_commands.specs.ServiceWords.{HasRanges, address_read, dot_split, octet_read, parts_shown, service_read, service_shown};

use warp_load::{dispatchers_in, number_in};

/// The most connections of one run.
const MOST_CONNECTIONS: u64 = 4_294_967_295;

/// The most seconds that nothing happens on a connection: a day.
const MOST_SECONDS: u64 = 86_400;

/// What a server is to do.
#[derive(Clone, Copy, Debug)]
pub struct Service {
    /// The address of IPv4 at which it listens.
    pub address: [u8; 4],
    /// The port at which it listens, not 0.
    pub port: u16,
    /// How many dispatchers it has, 1 to 64.
    pub dispatchers: u32,
    /// After how many connections it ends, 1 to 4,294,967,295.
    pub connections: u64,
    /// After how many seconds, up to twice as many, a connection on which nothing
    /// happens is ended, 1 to 86,400.
    pub seconds: u64,
}

/// The service that five words name.
#[tactic(auto, unfolding(crate::specs::ServiceWords::service_read))]
pub(crate) fn service_in(
    address: &str,
    port: &str,
    dispatchers: &str,
    connections: &str,
    seconds: &str,
) -> Option<Service>
    ensures reads { option_map service_shown result
        ≡ service_read address.now port.now dispatchers.now connections.now seconds.now }
    ensures ranges { HasRanges result }
{
    Some(Service {
        address: address_in(address)?,
        port: number_from(port, 1, 65_535)? as u16,
        dispatchers: dispatchers_in(dispatchers)?,
        connections: number_from(connections, 1, MOST_CONNECTIONS)?,
        seconds: number_from(seconds, 1, MOST_SECONDS)?,
    })
}

/// The address that a word is: four numbers, 0 to 255, with a dot between each two.
#[tactic(auto, unfolding(crate::specs::ServiceWords::address_read))]
fn address_in(word: &str) -> Option<[u8; 4]>
    ensures { result ≡ address_read word.now }
{
    let (first, rest) = parted(word)?;
    let (second, rest) = parted(rest)?;
    let (third, fourth) = parted(rest)?;
    Some([
        octet_in(first)?,
        octet_in(second)?,
        octet_in(third)?,
        octet_in(fourth)?,
    ])
}

/// What stands before the first dot, and what after it.
fn parted(word: &str) -> Option<(&str, &str)>
    ensures { parts_shown result ≡ dot_split word.now }
{
    word.split_once('.')
}

/// The number of 0 to 255 that a word is.
fn octet_in(word: &str) -> Option<u8>
    ensures { result ≡ octet_read word.now }
{
    Some(number_from(word, 0, 255)? as u8)
}

/// The number that a word is, where it lies in a range.
fn number_from(word: &str, least: u64, most: u64) -> Option<u64>
    ensures reads { result ≡ option_and_then (number_within least most) (number_read word.now) }
    ensures within { IfSome result (λ number. (least ≤ number) × (number ≤ most)) }
{
    let number = number_in(word)?;
    if (least..=most).contains(&number) {
        Some(number)
    } else {
        None
    }
}
