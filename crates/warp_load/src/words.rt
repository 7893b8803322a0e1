//! The words that name a load.
ghost use Rattle.std.specs.Prelude.{◌≡◌};
ghost use Rattle.std.specs.Char.{is_ascii_digit};
ghost use Rattle.std.specs.List.{list_all};
ghost use Rattle.warp_load.specs.LoadWords.{dispatchers_read, is_number, load_read, load_shown, number_read};

use crate::load::Load;

/// The most digits of a number.
const MOST_DIGITS: usize = 10;

/// The most dispatchers.
const DISPATCHER_LIMIT: u64 = 64;

/// Whether each byte is a decimal digit.
fn are_digits(word: &[u8]) -> bool
    ensures { result ≡ list_all is_ascii_digit word.now }
{
    word.iter().all(|b| b.is_ascii_digit())
}

/// Whether a word is 1 to 10 decimal digits.
fn is_number(word: &str) -> bool
    ensures { result ≡ is_number word.now }
{
    (1..=MOST_DIGITS).contains(&word.len()) && are_digits(word.as_bytes())
}

/// The number that a word is: 1 to 10 decimal digits, the first of which may be zeros, with no sign.
#[tactic(auto, unfolding(crate::specs::LoadWords::number_read))]
pub fn number_in(word: &str) -> Option<u64>
    ensures { result ≡ number_read word.now }
{
    if is_number(word) {
        word.parse().ok()
    } else {
        None
    }
}

/// The number of dispatchers that a word asks for, 1 to 64.
#[tactic(auto, unfolding(crate::specs::LoadWords::dispatchers_read))]
pub fn dispatchers_in(word: &str) -> Option<u32>
    ensures { result ≡ dispatchers_read word.now }
{
    let number = number_in(word)?;
    if (1..=DISPATCHER_LIMIT).contains(&number) {
        Some(number as u32)
    } else {
        None
    }
}

/// The load that three words name: its seed, its connections and the requests of each.
#[tactic(auto, unfolding(crate::specs::LoadWords::load_read))]
pub fn load_in(seed: &str, connections: &str, requests: &str) -> Option<Load>
    ensures { load_shown result ≡ load_read seed.now connections.now requests.now }
{
    Load::new(
        number_in(seed)?,
        number_in(connections)?,
        number_in(requests)?,
    )
}
