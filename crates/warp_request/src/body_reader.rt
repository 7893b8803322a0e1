//! Reading a body: how many bytes of each piece belong to it, and when it is whole or refused. The content is
//! passed over by its length, so that a body costs no memory and no look at its bytes; only chunk lines and
//! trailers are looked at, byte by byte, because a piece may end anywhere in them.
ghost use Rattle.std.specs.Prelude.{◌≡◌, ◌≢◌, ◌↔◌, ◌+◌, ◌≤◌, ◌<◌, ◌++◌, Bool, IsTrue, List, ℕ, None, [], ◌∷◌, length, take};
ghost use Rattle.warp_request.specs.declared.verdict.Framing.{Framing as FramingOf};
ghost use Rattle.warp_request.specs.Body.{body_of, more};
ghost use Rattle.warp_request.specs.BodyReader.{Skips, RepresentsAt, Represents, state_of, state_verdict};

use crate::body_place::{
    BodyPlace, LINE_FEED, TRAILER_LIMIT, TrailerLine, behind_chunk, behind_chunk_return,
    behind_digits, behind_extension, behind_trailer_byte, chunk_place, content_place,
};
use crate::limits::BODY_LIMIT;
use crate::verdict::Framing;
use warp_response::status::{BAD_REQUEST, CONTENT_TOO_LARGE};

/// Where a reader stands with its body.
#[derive(Clone, Copy, Debug, PartialEq, Eq)]
pub enum BodyState {
    /// More bytes belong to it.
    More,
    /// All its bytes were used.
    Whole,
    /// It is refused with this status.
    Refuse(u16),
}

/// What a reader did with a piece.
#[derive(Clone, Copy, Debug, PartialEq, Eq)]
pub struct Fed {
    /// How many bytes at the front of the piece belong to the body.
    pub used: usize,
    /// Where the reader stands after them.
    pub state: BodyState,
}

/// How many bytes of a piece belong to content, and what is left of the content after the next byte.
#[derive(Clone, Copy)]
struct Skipped {
    used: usize,
    behind: Option<u64>,
}

/// Reads a body piece by piece (RFC 9112, section 6.3 and section 7.1), and keeps none of it.
#[derive(Drop)]
pub struct BodyReader {
    place: BodyPlace,
    sum: u64,
}

impl BodyReader {
    /// A reader of the body that a head with this framing promises.
    pub fn new(framing: Framing) -> BodyReader
        ensures { Represents result framing [] }
    {
        let place = match framing {
            Framing::None | Framing::Length(0) => BodyPlace::Whole,
            Framing::Length(length) => BodyPlace::Content(length - 1),
            Framing::Chunked => BodyPlace::Size(0, 0),
        };
        BodyReader { place, sum: 0 }
    }

    /// Uses the bytes at the front of the piece that belong to the body. After `Whole` or `Refuse` it uses
    /// nothing and answers the same again.
    #[inline(always)]
    pub fn feed(&mut self, piece: &[u8]) -> Fed
        ensures within { result.used ≤ length piece.now }
        // The state is what the definition says of all bytes laid end to end, of those
        // used before and the piece.
        ensures state { (framing : FramingOf) (fed : List ℕ) → Represents self.old framing fed
            → body_of framing (fed ++ piece.now) ≡ state_verdict result.state (length fed + result.used) }
        ensures stands { (framing : FramingOf) (fed : List ℕ) → Represents self.old framing fed
            → Represents self.new framing (fed ++ take result.used piece.now) }
        // No shorter front of them settles the body: it is whole or refused with the last byte that was used.
        ensures first { (framing : FramingOf) (fed : List ℕ) → Represents self.old framing fed
            → (n : ℕ) → n < result.used
            → body_of framing (fed ++ take n piece.now) ≡ more }
        ensures shows { result.state ≡ state_of self.new }
        ensures all { state_of self.new ≡ BodyState.More → result.used ≡ length piece.now }
        ensures ended { state_of self.old ≢ BodyState.More → (result.used ≡ 0) × (self.new ≡ self.old) }
    {
        let mut used = 0;
        while used < piece.len() && self.is_open() {
            used += self.advance(&piece[used..]);
        }
        Fed {
            used,
            state: self.state(),
        }
    }

    fn state(&self) -> BodyState
        ensures { result ≡ state_of self.now }
    {
        match self.place {
            BodyPlace::Whole => BodyState::Whole,
            BodyPlace::Refused(code) => BodyState::Refuse(code),
            _ => BodyState::More,
        }
    }

    /// Whether more bytes belong to the body.
    fn is_open(&self) -> bool
        ensures { IsTrue result ↔ (state_of self.now ≡ BodyState.More) }
    {
        !matches!(self.place, BodyPlace::Whole | BodyPlace::Refused(_))
    }

    /// Uses the next byte, or as much content as is there.
    fn advance(&mut self, bytes: &[u8]) -> usize
        requires some { 0 < length bytes.now }
        requires open { state_of self.old ≡ BodyState.More }
        ensures some { 1 ≤ result }
        ensures within { result ≤ length bytes.now }
        ensures stands { (framing : FramingOf) (fed : List ℕ) → Represents self.old framing fed
            → Represents self.new framing (fed ++ take result bytes.now) }
        ensures first { (framing : FramingOf) (fed : List ℕ) → Represents self.old framing fed
            → (n : ℕ) → n < result
            → body_of framing (fed ++ take n bytes.now) ≡ more }
    {
        let first = bytes[0];
        match self.place {
            BodyPlace::Content(behind) => {
                let skipped = skip(behind, bytes.len());
                self.place = content_place(skipped.behind);
                skipped.used
            }
            BodyPlace::Chunk(behind) => {
                let skipped = skip(behind, bytes.len());
                self.place = chunk_place(skipped.behind);
                skipped.used
            }
            BodyPlace::LineFeed(size) => self.begin_chunk(size, first),
            BodyPlace::Size(count, number) => self.go_to(behind_digits(count, number, first)),
            BodyPlace::Extension(room, number) => self.go_to(behind_extension(room, number, first)),
            BodyPlace::ChunkReturn => self.go_to(behind_chunk(first)),
            BodyPlace::ChunkLineFeed => self.go_to(behind_chunk_return(first)),
            BodyPlace::Trailers(room, line) => self.go_to(behind_trailer_byte(room, line, first)),
            BodyPlace::Whole | BodyPlace::Refused(_) => unreachable!(),
        }
    }

    /// One byte led to this place.
    fn go_to(&mut self, place: BodyPlace) -> usize
        ensures used { result ≡ 1 }
        ensures goes { self.new ≡ record self.old { place = place } }
    {
        self.place = place;
        1
    }

    /// After the CR of a chunk line comes its LF, and then what the size of the chunk says.
    fn begin_chunk(&mut self, size: u64, byte: u8) -> usize
        ensures used { result ≡ 1 }
        ensures stands { (framing : FramingOf) (fed : List ℕ)
            → RepresentsAt (BodyPlace.LineFeed size) self.old.sum framing fed
            → Represents self.new framing (fed ++ byte ∷ []) }
    {
        if byte != LINE_FEED {
            return self.go_to(BodyPlace::Refused(BAD_REQUEST));
        }
        let sum = self.sum.saturating_add(size);
        if sum > BODY_LIMIT {
            return self.go_to(BodyPlace::Refused(CONTENT_TOO_LARGE));
        }
        self.sum = sum;
        match size.checked_sub(1) {
            Some(behind) => self.go_to(BodyPlace::Chunk(behind)),
            None => self.go_to(BodyPlace::Trailers(TRAILER_LIMIT, TrailerLine::Start)),
        }
    }
}

/// How many of the next `size` bytes are content, where `behind + 1` bytes of it are left.
fn skip(behind: u64, size: usize) -> Skipped
    requires { 0 < size }
    ensures { Skips behind size result.used result.behind }
{
    match behind.checked_sub(size as u64) {
        Some(rest) => Skipped {
            used: size,
            behind: Some(rest),
        },
        None => Skipped {
            used: behind as usize + 1,
            behind: None,
        },
    }
}
