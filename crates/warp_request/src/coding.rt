//! The Transfer-Encoding lines of a head: whether their list of codings ends in `chunked`, the only coding
//! that is taken (RFC 9112, sections 6.1 and 6.3).
ghost use Rattle.std.specs.Prelude.{◌≡◌};
ghost use Rattle.warp_request.specs.NamedLines.{coding_with, codings_with, opened};

use crate::names::CHUNKED;
use crate::values::{is_same_word, trim};

/// What the Transfer-Encoding lines say. Each list is read without its empty members.
#[derive(Clone, Copy)]
pub(crate) enum CodingLines {
    Absent,
    /// There is a line, and no coding.
    Empty,
    /// There are codings, and none is `chunked`.
    Others,
    /// `chunked` alone.
    Chunked,
    /// Others, and then `chunked`.
    OthersChunked,
    /// A coding follows `chunked`.
    Wrong,
}

impl CodingLines {
    /// With one more line.
    pub(crate) fn with_value(self, value: &[u8]) -> CodingLines
        ensures { result ≡ codings_with self value.now }
    {
        value
            .split(|b| *b == b',')
            .fold(self.opened(), |lines, member| {
                lines.with_coding(trim(member))
            })
    }

    /// A line begins.
    fn opened(self) -> CodingLines
        ensures { result ≡ opened self }
    {
        match self {
            CodingLines::Absent => CodingLines::Empty,
            _ => self,
        }
    }

    /// With one more member of the list.
    fn with_coding(self, member: &[u8]) -> CodingLines
        ensures { result ≡ coding_with self member.now }
    {
        if member.is_empty() {
            return self;
        }
        let is_chunked = is_same_word(member, CHUNKED);
        match self {
            CodingLines::Absent | CodingLines::Empty if is_chunked => CodingLines::Chunked,
            CodingLines::Others if is_chunked => CodingLines::OthersChunked,
            CodingLines::Absent | CodingLines::Empty | CodingLines::Others => CodingLines::Others,
            _ => CodingLines::Wrong,
        }
    }
}
