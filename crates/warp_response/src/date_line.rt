//! The Date line, made once for all answers of a second (RFC 9110, section 6.6.1).
ghost use Rattle.std.specs.Prelude.{◌≡◌, ◌≤◌, ◌<◌, ◌++◌, codes, length, take};
ghost use Rattle.warp_response.specs.Head.{date_line, field_line};
ghost use Rattle.warp_response.specs.Moment.{first_undated};
ghost use Rattle.httpdate.specs.Date.{unix_secs};

use crate::fields::LINE_END;
use crate::head_buf::write_at;
use httpdate::HttpDate;

/// Bytes of a Date line: the name, the date and the line's end.
pub(crate) const DATE_LINE_BYTES: usize = 37;

/// The Date line of the moment that was asked for last.
#[derive(Drop)]
pub(crate) struct DateLine {
    moment: u64,
    line: [u8; DATE_LINE_BYTES],
    len: usize,
    ghost within: { len ≤ 37 },
    ghost shows: { take len line ≡ date_line moment },
}

impl DateLine {
    /// That of a moment beyond the year 9999, which has none.
    pub(crate) fn new() -> DateLine {
        DateLine {
            moment: u64::MAX,
            line: [0; DATE_LINE_BYTES],
            len: 0,
        }
    }

    /// The Date line of a moment. It is made only where the last one was of another moment.
    pub(crate) fn of(&mut self, moment: u64) -> &[u8]
        ensures is { result.now ≡ date_line moment }
        ensures short { length result.now ≤ DATE_LINE_BYTES }
    {
        if self.moment != moment {
            *self = date_line(moment);
        }
        &self.line[..self.len]
    }
}

/// The Date line of a moment.
fn date_line(moment: u64) -> DateLine
    ensures { result.moment ≡ moment }
{
    match HttpDate::from_unix_secs(moment) {
        Ok(date) => dated(moment, date),
        Err(_) => undated(moment),
    }
}

/// The Date line of a moment with its date.
#[tactic(auto, unfolding(crate::specs::Head::date_line))]
fn dated(moment: u64, date: HttpDate) -> DateLine
    requires early { moment < first_undated }
    requires same { unix_secs date ≡ moment }
    ensures { result.moment ≡ moment }
{
    DateLine {
        moment,
        line: with_name(&date.to_bytes()),
        len: DATE_LINE_BYTES,
    }
}

/// None, of a moment from the year 10000 on.
#[tactic(auto, unfolding(crate::specs::Head::date_line))]
fn undated(moment: u64) -> DateLine
    requires { first_undated ≤ moment }
    ensures { result.moment ≡ moment }
{
    DateLine {
        moment,
        line: [0; DATE_LINE_BYTES],
        len: 0,
    }
}

/// The Date line with this date.
fn with_name(date: &[u8; 29]) -> [u8; DATE_LINE_BYTES]
    ensures { result ≡ field_line (codes "Date") date.now }
{
    let mut line = [0; DATE_LINE_BYTES];
    write_at(&mut line, 0, b"Date: ");
    write_at(&mut line, 6, date);
    write_at(&mut line, 35, LINE_END);
    line
}
