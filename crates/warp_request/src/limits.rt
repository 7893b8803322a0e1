//! The limits that a request is held to, each said once.

/// The most bytes that a head may have, with the empty lines before it.
pub const HEAD_LIMIT: usize = 8_192;

/// The most field lines that a head may have.
pub const FIELD_LIMIT: usize = 100;

/// The field lines for which a `Scratch` has room: no head within `HEAD_LIMIT` has more.
pub const FIELD_ROOM: usize = 2_736;

/// The most bytes of content that a request may have.
pub const BODY_LIMIT: u64 = 1_048_576;
