//! The Host lines of a head: under HTTP/1.1 exactly one has to be there (RFC 9112, section 3.2).
ghost use Rattle.std.specs.Prelude.{◌≡◌, ℕ, List};
ghost use Rattle.warp_request.specs.Fields.{is_host_fault};
ghost use Rattle.warp_request.specs.NamedLines.{host_lines, host_with};

use crate::values::is_host;

/// What the Host lines say.
#[derive(Clone, Copy)]
pub(crate) enum HostLines {
    Absent,
    /// There is one, and each of its bytes may stand in a host.
    Right,
    /// There are two, or one has another byte.
    Wrong,
}

impl HostLines {
    /// With one more line.
    pub(crate) fn with_value(self, value: &[u8]) -> HostLines
        ensures { result ≡ host_with self value.now }
    {
        match self {
            HostLines::Absent if is_host(value) => HostLines::Right,
            _ => HostLines::Wrong,
        }
    }

    /// Whether a head of this minor version is refused for them.
    #[tactic(auto, using(crate::proofs::HostLemmas::host_fault_is))]
    pub(crate) fn is_fault(self, minor: u8) -> bool
        ensures { (values : List (List ℕ)) → self ≡ host_lines values → result ≡ is_host_fault minor values }
    {
        match self {
            HostLines::Absent => minor == 1,
            HostLines::Right => false,
            HostLines::Wrong => true,
        }
    }
}
