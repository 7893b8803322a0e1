//! The Connection lines of a head: whether the connection stays open (RFC 9112, section 9.3).
ghost use Rattle.std.specs.Prelude.{◌≡◌, ℕ, List};
ghost use Rattle.warp_request.specs.Fields.{stays_open as stays_open_by};
ghost use Rattle.warp_request.specs.NamedLines.{connection_lines, connection_with};

use crate::names::{CLOSE, KEEP_ALIVE};
use crate::values::has_word;

/// Which of the two words are members of the Connection list.
#[derive(Clone, Copy)]
pub(crate) struct ConnectionLines {
    pub close: bool,
    pub keep_alive: bool,
}

impl ConnectionLines {
    /// With one more line. Most clients send `keep-alive` and nothing else, which needs no list.
    pub(crate) fn with_value(self, value: &[u8]) -> ConnectionLines
        ensures { result ≡ connection_with self value.now }
    {
        if value == KEEP_ALIVE {
            return ConnectionLines {
                keep_alive: true,
                ..self
            };
        }
        ConnectionLines {
            close: self.close || has_word(value, CLOSE),
            keep_alive: self.keep_alive || has_word(value, KEEP_ALIVE),
        }
    }

    /// Whether the connection stays open after the answer to a request of this minor version.
    #[tactic(auto, unfolding(crate::specs::Fields::stays_open, crate::specs::NamedLines::connection_lines))]
    pub(crate) fn stays_open(self, minor: u8) -> bool
        ensures { (values : List (List ℕ)) → self ≡ connection_lines values
            → result ≡ stays_open_by minor values }
    {
        !self.close && (minor == 1 || self.keep_alive)
    }
}
