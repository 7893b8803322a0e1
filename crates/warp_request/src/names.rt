//! The field names and words that a head is read by, in small letters. They are compared without
//! regard to the case of ASCII letters (RFC 9110, sections 5.1 and 7.6.1).
ghost use Rattle.std.specs.Prelude.{◌≡◌};
ghost use Rattle.warp_request.specs.NamedLines.{IsKnown};

use crate::values::is_same_word;

pub(crate) const HOST: &[u8] = b"host";

pub(crate) const CONNECTION: &[u8] = b"connection";

pub(crate) const TRANSFER_ENCODING: &[u8] = b"transfer-encoding";

pub(crate) const CONTENT_LENGTH: &[u8] = b"content-length";

pub(crate) const EXPECT: &[u8] = b"expect";

/// The members of a Connection list that decide whether the connection stays open.
pub(crate) const CLOSE: &[u8] = b"close";

pub(crate) const KEEP_ALIVE: &[u8] = b"keep-alive";

/// The only transfer coding that there is (RFC 9112, section 7.1).
pub(crate) const CHUNKED: &[u8] = b"chunked";

/// The only expectation that there is (RFC 9110, section 10.1.1).
pub(crate) const CONTINUE: &[u8] = b"100-continue";

/// The name of a field: one that decides about the request, or another.
#[derive(Clone, Copy)]
pub(crate) enum KnownName {
    Host,
    Connection,
    TransferEncoding,
    ContentLength,
    Expect,
    /// Any other name.
    Other,
}

/// Which of them a name is. No two of those that decide are as long, so most names are
/// told apart by their length alone.
pub(crate) fn known_name(name: &[u8]) -> KnownName
    ensures { IsKnown name.now result }
{
    if is_same_word(name, HOST) {
        KnownName::Host
    } else if is_same_word(name, CONNECTION) {
        KnownName::Connection
    } else if is_same_word(name, TRANSFER_ENCODING) {
        KnownName::TransferEncoding
    } else if is_same_word(name, CONTENT_LENGTH) {
        KnownName::ContentLength
    } else if is_same_word(name, EXPECT) {
        KnownName::Expect
    } else {
        KnownName::Other
    }
}
