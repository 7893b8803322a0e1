//! What an event of the system says: a report of an opening, or that something came for a link that lingers.
ghost use Rattle.std.specs.Prelude.{◌≡◌, ◌<◌, IfSome};
ghost use Rattle.socket_poller.specs.Reports as spec;

use crate::limits::LINGER_TOKENS;
use mio::Token;
use mio::event::Event;
use reg_keys::{DESCRIPTORS, Dirs, Opening};

/// The directions that an event names: both where it names none, since a report may be of more than there is.
fn dirs_of(event: &Event) -> Dirs
    ensures { result ≡ spec.dirs_of event.now }
{
    let failed = event.is_error();
    let reads = event.is_readable() || event.is_read_closed() || failed;
    let writes = event.is_writable() || event.is_write_closed() || failed;
    if reads == writes {
        Dirs::Both
    } else if reads {
        Dirs::Read
    } else {
        Dirs::Write
    }
}

/// The report that an event makes: none where its token is that of a link that lingers.
pub(crate) fn report_of(event: &Event) -> Option<(Opening, Dirs)>
    ensures report { result ≡ spec.report_of event.now }
    ensures within { IfSome result (λ report. report.0.fd < DESCRIPTORS) }
{
    let token = event.token().0 as u64;
    if token < LINGER_TOKENS {
        Some((Opening::of_token(token), dirs_of(event)))
    } else {
        None
    }
}

/// Whether the peer's end was seen, or a fault: a read has something to tell then.
pub(crate) fn ends_reading(event: &Event) -> bool
    ensures { result ≡ spec.ends_reading event.now }
{
    event.is_read_closed() || event.is_error()
}

/// The token of a link that lingers at a place.
pub(crate) fn token_at(place: usize) -> Token
    requires { place < 1024 }
{
    Token(LINGER_TOKENS as usize + place)
}

/// The place of the link that lingers under a token.
pub(crate) fn place_of(token: Token) -> usize {
    token.0.saturating_sub(LINGER_TOKENS as usize)
}
