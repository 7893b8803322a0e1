//! The limits of a connection, and its room.

/// How many final answers a connection gives.
pub const ANSWER_LIMIT: u32 = 1_000;

/// Content leaves in pieces of at most this many bytes, and no answer is made after as
/// many that aren't written.
pub(crate) const PIECE: usize = 16_384;

/// Bytes for which a buffer has room: a piece, and after fewer bytes than that any head without a Location.
pub(crate) const ROOM: usize = 16_896;

/// The first bytes of a buffer's room, which are all of it that most connections touch.
pub(crate) const FIRST_ROOM: usize = 1_024;

/// More bytes than a head has besides its Location, which repeats at most two spans of the target.
pub(crate) const HEAD_ROOM: usize = 512;
