//! The Expect lines of a head: whether the client waits for an interim answer before it sends its content
//! (RFC 9110, section 10.1.1).
ghost use Rattle.std.specs.Prelude.{◌≡◌, ℕ, List};
ghost use Rattle.warp_request.specs.declared.verdict.Framing.{Framing as FramingOf};
ghost use Rattle.warp_request.specs.Content.{has_content as content_may_come, is_expect_fault, waits_for_interim};
ghost use Rattle.warp_request.specs.NamedLines.{expect_lines, expect_with, expects_other, expects_some};

use crate::names::CONTINUE;
use crate::values::is_same_word;
use crate::verdict::Framing;

/// What the Expect lines say.
#[derive(Clone, Copy)]
pub(crate) enum ExpectLines {
    Absent,
    /// Each is `100-continue`.
    Continue,
    /// One is something else.
    Other,
}

impl ExpectLines {
    /// With one more line.
    pub(crate) fn with_value(self, value: &[u8]) -> ExpectLines
        ensures { result ≡ expect_with self value.now }
    {
        match self {
            ExpectLines::Other => ExpectLines::Other,
            _ if is_same_word(value, CONTINUE) => ExpectLines::Continue,
            _ => ExpectLines::Other,
        }
    }

    /// Whether a head of this minor version is refused for them.
    #[tactic(auto, using(crate::proofs::ExpectLemmas::expect_fault_is))]
    pub(crate) fn is_fault(self, minor: u8) -> bool
        ensures { (values : List (List ℕ)) → self ≡ expect_lines values
            → result ≡ is_expect_fault minor values }
    {
        minor == 1 && self.are_other()
    }

    /// Whether the client of a head of this minor version waits with content of this framing.
    #[tactic(auto, using(crate::proofs::ExpectLemmas::expect_waits_is))]
    pub(crate) fn waits(self, minor: u8, framing: Framing) -> bool
        ensures { (values : List (List ℕ)) → self ≡ expect_lines values
            → result ≡ waits_for_interim minor values framing }
    {
        minor == 1 && self.are_there() && has_content(framing)
    }

    /// Whether one is something else.
    fn are_other(self) -> bool
        ensures { result ≡ expects_other self }
    {
        matches!(self, ExpectLines::Other)
    }

    /// Whether there is one.
    fn are_there(self) -> bool
        ensures { result ≡ expects_some self }
    {
        !matches!(self, ExpectLines::Absent)
    }
}

/// Whether content may come.
fn has_content(framing: Framing) -> bool
    ensures { result ≡ content_may_come framing }
{
    match framing {
        Framing::None => false,
        Framing::Length(length) => length > 0,
        Framing::Chunked => true,
    }
}
