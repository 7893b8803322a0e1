//! The statuses that this server sends (RFC 9110, section 15; RFC 6585, section 5), each said once.

/// The request was answered.
pub const OK: u16 = 200;

/// The folder is found after its path with `/` at the end.
pub const MOVED_PERMANENTLY: u16 = 301;

/// The request breaks the grammar or a rule of its lines.
pub const BAD_REQUEST: u16 = 400;

/// Nothing is served at the target's path.
pub const NOT_FOUND: u16 = 404;

/// The method is known and isn't served.
pub const METHOD_NOT_ALLOWED: u16 = 405;

/// The body is longer than the server reads.
pub const CONTENT_TOO_LARGE: u16 = 413;

/// The first line isn't whole within the bytes that a head may have.
pub const URI_TOO_LONG: u16 = 414;

/// The request expects something other than `100-continue`.
pub const EXPECTATION_FAILED: u16 = 417;

/// The head or the trailer section is too long, or has too many fields.
pub const HEADER_FIELDS_TOO_LARGE: u16 = 431;

/// The method or a transfer coding isn't known.
pub const NOT_IMPLEMENTED: u16 = 501;
