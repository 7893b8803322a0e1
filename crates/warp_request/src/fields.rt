//! The fields that decide about a request, read in one pass.
ghost use Rattle.std.specs.Prelude.{◌≡◌, ℕ, List, [], ◌∷◌, ◌++◌, length, map, All};
ghost use Rattle.httparse.specs.Spans.{header_bytes, IsHeaderWithin};
ghost use Rattle.warp_request.specs.NamedLines.{fields_say, lines_shown, named_lines};

use crate::coding::CodingLines;
use crate::connection::ConnectionLines;
use crate::expect::ExpectLines;
use crate::framing::framing;
use crate::host::HostLines;
use crate::length::LengthLines;
use crate::names::{KnownName, known_name};
use crate::verdict::Framing;
use httparse::spans::HeaderSpan;
use warp_response::status::{BAD_REQUEST, EXPECTATION_FAILED};

/// What the lines of each name say.
#[derive(Clone, Copy)]
pub(crate) struct NamedLines<'a> {
    pub host: HostLines,
    pub connection: ConnectionLines,
    pub codings: CodingLines,
    pub lengths: LengthLines<'a>,
    pub expect: ExpectLines,
}

/// What no line says.
const NO_LINES: NamedLines<'static> = NamedLines {
    host: HostLines::Absent,
    connection: ConnectionLines {
        close: false,
        keep_alive: false,
    },
    codings: CodingLines::Absent,
    lengths: LengthLines::Absent,
    expect: ExpectLines::Absent,
};

impl<'a> NamedLines<'a> {
    /// Reads the fields, whose spans lie in `bytes`.
    pub(crate) fn read(bytes: &'a [u8], fields: &[HeaderSpan]) -> NamedLines<'a>
        requires { All (IsHeaderWithin (length bytes.now)) fields.now }
        ensures { lines_shown result ≡ named_lines (map (header_bytes bytes.now) fields.now) }
    {
        let mut lines = NO_LINES;
        for field in fields {
            lines.add(field.name.of(bytes), field.value.of(bytes));
        }
        lines
    }

    /// Adds one more field. Most fields decide nothing, and touch nothing here.
    fn add(&mut self, name: &[u8], value: &'a [u8])
        ensures { (fields : List (List ℕ × List ℕ)) → lines_shown self.old ≡ named_lines fields
            → lines_shown self.new ≡ named_lines (fields ++ (name.now, value.now) ∷ []) }
    {
        match known_name(name) {
            KnownName::Host => self.host = self.host.with_value(value),
            KnownName::Connection => self.connection = self.connection.with_value(value),
            KnownName::TransferEncoding => self.codings = self.codings.with_value(value),
            KnownName::ContentLength => self.lengths = self.lengths.with_value(value),
            KnownName::Expect => self.expect = self.expect.with_value(value),
            KnownName::Other => {}
        }
    }

    /// How the content is delimited, or the status of the first fault in the fields of a
    /// head of this minor version.
    pub(crate) fn framing(self, minor: u8) -> Result<Framing, u16>
        ensures { (fields : List (List ℕ × List ℕ)) → lines_shown self.entry ≡ named_lines fields
            → result ≡ fields_say minor fields }
    {
        if self.host.is_fault(minor) {
            return Err(BAD_REQUEST);
        }
        let expects_other = self.expect.is_fault(minor);
        match framing(minor, self.codings, self.lengths) {
            Err(code) => Err(code),
            Ok(_) if expects_other => Err(EXPECTATION_FAILED),
            Ok(framing) => Ok(framing),
        }
    }
}
