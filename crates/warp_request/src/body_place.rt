//! Where the reading of a body stands, and where one more byte leads it: in chunk lines, after chunks and in
//! the trailer section (RFC 9112, section 7.1). Each place keeps what it needs of the
//! bytes before it and no more.
ghost use Rattle.std.specs.Prelude.{◌≡◌, ◌++◌, Bool, List, ℕ, None, [], ◌∷◌};
ghost use Rattle.warp_request.specs.declared.verdict.Framing.{Framing as FramingOf};
ghost use Rattle.warp_request.specs.Body.{hex_digit as digit_of, is_extension_byte, opens_extension, section_of};
ghost use Rattle.warp_request.specs.BodyReader.{RepresentsAt, place_in_chunk, place_in_content, section_at, step_leaves};

use warp_response::status::{BAD_REQUEST, HEADER_FIELDS_TOO_LARGE};

/// The most hexadecimal digits of a chunk's size.
pub const CHUNK_DIGITS: u8 = 8;

/// The most bytes of a chunk line, with its CRLF.
pub const CHUNK_LINE_LIMIT: usize = 256;

/// The most bytes of a trailer section, with its last CRLF.
pub const TRAILER_LIMIT: usize = 4_096;

const NUL: u8 = 0;

const CARRIAGE_RETURN: u8 = b'\r';

pub(crate) const LINE_FEED: u8 = b'\n';

/// Where in a line of the trailer section the next byte stands.
#[derive(Clone, Copy)]
pub(crate) enum TrailerLine {
    /// At the beginning of a line.
    Start,
    /// After a byte of a line.
    Inside,
    /// After the CR of an empty line.
    StartReturn,
    /// After the CR of a line that has bytes.
    InsideReturn,
}

/// What a byte of the trailer section does.
#[derive(Clone, Copy)]
enum TrailerStep {
    /// It ends the section.
    Ends,
    /// It breaks a rule.
    Breaks,
    /// It leads to this place in a line.
    Goes(TrailerLine),
}

/// What the next byte of a body belongs to.
#[derive(Clone, Copy)]
pub(crate) enum BodyPlace {
    /// Content of a known length: the next byte, and this many after it.
    Content(u64),
    /// The digits of a chunk line: how many there were, and the number that they mean.
    Size(u8, u64),
    /// What follows the digits of a chunk line: the most bytes that the line may still
    /// have, and the chunk's size.
    Extension(usize, u64),
    /// The LF of a chunk line, after a chunk's size.
    LineFeed(u64),
    /// The content of a chunk: the next byte, and this many after it.
    Chunk(u64),
    /// The CR after the content of a chunk.
    ChunkReturn,
    /// The LF after that CR.
    ChunkLineFeed,
    /// The trailer section: the most bytes that it may still have, and the place in one of its lines.
    Trailers(usize, TrailerLine),
    /// Nothing: all bytes of the body were used.
    Whole,
    /// Nothing: the body was refused with this status.
    Refused(u16),
}

/// Content of a known length with this many bytes after the next, or with none left.
pub(crate) fn content_place(behind: Option<u64>) -> BodyPlace
    ensures { result ≡ place_in_content behind }
{
    match behind {
        Some(behind) => BodyPlace::Content(behind),
        None => BodyPlace::Whole,
    }
}

/// A chunk with this many bytes after the next, or with none left.
pub(crate) fn chunk_place(behind: Option<u64>) -> BodyPlace
    ensures { result ≡ place_in_chunk behind }
{
    match behind {
        Some(behind) => BodyPlace::Chunk(behind),
        None => BodyPlace::ChunkReturn,
    }
}

/// The number that a byte means as a hexadecimal digit.
fn hex_digit(byte: u8) -> Option<u64>
    ensures { result ≡ digit_of byte }
{
    match byte {
        b'0'..=b'9' => Some((byte - b'0') as u64),
        b'A'..=b'F' => Some((byte - b'A') as u64 + 10),
        b'a'..=b'f' => Some((byte - b'a') as u64 + 10),
        _ => None,
    }
}

/// After the digits of a chunk line comes one more digit, CR or an extension.
pub(crate) fn behind_digits(count: u8, number: u64, byte: u8) -> BodyPlace
    ensures { (sum : ℕ) (framing : FramingOf) (fed : List ℕ)
        → RepresentsAt (BodyPlace.Size count number) sum framing fed
        → RepresentsAt result sum framing (fed ++ byte ∷ []) }
{
    match hex_digit(byte) {
        Some(digit) => {
            if count >= CHUNK_DIGITS {
                return BodyPlace::Refused(BAD_REQUEST);
            }
            BodyPlace::Size(count + 1, number.saturating_mul(16).saturating_add(digit))
        }
        None => behind_number(count, number, byte),
    }
}

/// After all digits of a chunk line comes CR or an extension.
fn behind_number(count: u8, number: u64, byte: u8) -> BodyPlace
    requires { digit_of byte ≡ None }
    ensures { (sum : ℕ) (framing : FramingOf) (fed : List ℕ)
        → RepresentsAt (BodyPlace.Size count number) sum framing fed
        → RepresentsAt result sum framing (fed ++ byte ∷ []) }
{
    if count == 0 {
        return BodyPlace::Refused(BAD_REQUEST);
    }
    if byte == CARRIAGE_RETURN {
        return BodyPlace::LineFeed(number);
    }
    if is_extension_start(byte) {
        return BodyPlace::Extension(CHUNK_LINE_LIMIT - 1 - count as usize, number);
    }
    BodyPlace::Refused(BAD_REQUEST)
}

/// A semicolon or white space begins what is no part of a chunk's size.
fn is_extension_start(byte: u8) -> bool
    ensures { result ≡ opens_extension byte }
{
    byte == b';' || byte == b' ' || byte == b'\t'
}

/// Tabs, spaces, visible bytes and those beyond ASCII.
fn is_extension_text(byte: u8) -> bool
    ensures { result ≡ is_extension_byte byte }
{
    byte == b'\t' || (byte >= b' ' && byte <= b'~') || byte >= 0x80
}

/// In an extension comes one more byte of it, or CR.
pub(crate) fn behind_extension(room: usize, number: u64, byte: u8) -> BodyPlace
    ensures { (sum : ℕ) (framing : FramingOf) (fed : List ℕ)
        → RepresentsAt (BodyPlace.Extension room number) sum framing fed
        → RepresentsAt result sum framing (fed ++ byte ∷ []) }
{
    // The LF would stand beyond the limit of the line.
    if room <= 1 {
        return BodyPlace::Refused(BAD_REQUEST);
    }
    if byte == CARRIAGE_RETURN {
        return BodyPlace::LineFeed(number);
    }
    if is_extension_text(byte) {
        return BodyPlace::Extension(room - 1, number);
    }
    BodyPlace::Refused(BAD_REQUEST)
}

/// After the content of a chunk comes CR.
pub(crate) fn behind_chunk(byte: u8) -> BodyPlace
    ensures { (sum : ℕ) (framing : FramingOf) (fed : List ℕ)
        → RepresentsAt BodyPlace.ChunkReturn sum framing fed
        → RepresentsAt result sum framing (fed ++ byte ∷ []) }
{
    if byte == CARRIAGE_RETURN {
        BodyPlace::ChunkLineFeed
    } else {
        BodyPlace::Refused(BAD_REQUEST)
    }
}

/// After the CR of a chunk comes LF, and then the next chunk line.
pub(crate) fn behind_chunk_return(byte: u8) -> BodyPlace
    ensures { (sum : ℕ) (framing : FramingOf) (fed : List ℕ)
        → RepresentsAt BodyPlace.ChunkLineFeed sum framing fed
        → RepresentsAt result sum framing (fed ++ byte ∷ []) }
{
    if byte == LINE_FEED {
        BodyPlace::Size(0, 0)
    } else {
        BodyPlace::Refused(BAD_REQUEST)
    }
}

/// In the trailer section comes one more byte.
pub(crate) fn behind_trailer_byte(room: usize, line: TrailerLine, byte: u8) -> BodyPlace
    ensures { (sum : ℕ) (framing : FramingOf) (fed : List ℕ)
        → RepresentsAt (BodyPlace.Trailers room line) sum framing fed
        → RepresentsAt result sum framing (fed ++ byte ∷ []) }
{
    match trailer_step(line, byte) {
        TrailerStep::Ends => BodyPlace::Whole,
        TrailerStep::Breaks => BodyPlace::Refused(BAD_REQUEST),
        TrailerStep::Goes(line) => {
            if room <= 1 {
                return BodyPlace::Refused(HEADER_FIELDS_TOO_LARGE);
            }
            BodyPlace::Trailers(room - 1, line)
        }
    }
}

/// What one byte of a trailer section does at a place in a line.
fn trailer_step(line: TrailerLine, byte: u8) -> TrailerStep
    ensures { (t : List ℕ) → section_at line (byte ∷ t) ≡ step_leaves result t }
{
    match line {
        TrailerLine::Start => text_step(byte, TrailerLine::StartReturn),
        TrailerLine::Inside => text_step(byte, TrailerLine::InsideReturn),
        TrailerLine::StartReturn => {
            if byte == LINE_FEED {
                TrailerStep::Ends
            } else {
                TrailerStep::Breaks
            }
        }
        TrailerLine::InsideReturn => {
            if byte == LINE_FEED {
                TrailerStep::Goes(TrailerLine::Start)
            } else {
                TrailerStep::Breaks
            }
        }
    }
}

/// What one byte does that isn't after a CR, in a line where CR leads to a place.
fn text_step(byte: u8, at_return: TrailerLine) -> TrailerStep
    ensures { (fresh : Bool) → ((u : List ℕ) → section_at at_return u ≡ section_of fresh (13 ∷ u))
        → (t : List ℕ) → section_of fresh (byte ∷ t) ≡ step_leaves result t }
{
    if byte == CARRIAGE_RETURN {
        return TrailerStep::Goes(at_return);
    }
    if byte == LINE_FEED || byte == NUL {
        return TrailerStep::Breaks;
    }
    TrailerStep::Goes(TrailerLine::Inside)
}
