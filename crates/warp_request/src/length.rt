//! The Content-Length lines of a head: one number, or several times the same (RFC 9112, section 6.3). Numbers
//! are told apart by their digits after leading zeros, so that a number of any length is judged.
ghost use Rattle.std.specs.Prelude.{◌≡◌, ◌-◌, ◌^◌, min};
ghost use Rattle.std.specs.List.{list_all};
ghost use Rattle.warp_request.specs.Content.{decimal_of, is_digit, is_numeral as is_numeral_text};
ghost use Rattle.warp_request.specs.NamedLines.{length_with, lengths_shown, lengths_with, skip_zeros};

use crate::values::trim;

/// What the Content-Length lines say.
#[derive(Clone, Copy)]
pub(crate) enum LengthLines<'a> {
    Absent,
    /// Each member of the list is this number, in digits after any leading zeros.
    Number(&'a [u8]),
    /// A member is no number, or two are different ones.
    Wrong,
}

impl<'a> LengthLines<'a> {
    /// With one more line.
    pub(crate) fn with_value(self, value: &'a [u8]) -> LengthLines<'a>
        ensures { lengths_shown result ≡ lengths_with (lengths_shown self.entry) value.now }
    {
        value
            .split(|b| *b == b',')
            .fold(self, |lines, member| lines.with_member(trim(member)))
    }

    /// With one more member of the list.
    fn with_member(self, member: &'a [u8]) -> LengthLines<'a>
        ensures { lengths_shown result ≡ length_with (lengths_shown self.entry) member.now }
    {
        if !is_numeral(member) {
            return LengthLines::Wrong;
        }
        let digits = without_zeros(member);
        match self {
            LengthLines::Absent => LengthLines::Number(digits),
            LengthLines::Number(first) if first == digits => self,
            _ => LengthLines::Wrong,
        }
    }
}

/// Whether the text is one or more decimal digits.
fn is_numeral(text: &[u8]) -> bool
    ensures { result ≡ is_numeral_text text.now }
{
    !text.is_empty() && are_digits(text)
}

/// Whether each byte is a decimal digit.
fn are_digits(text: &[u8]) -> bool
    ensures { result ≡ list_all is_digit text.now }
{
    text.iter().all(|b| b.is_ascii_digit())
}

/// The digits from the first that is no zero.
#[tactic(auto, unfolding(crate::specs::NamedLines::skip_zeros))]
fn without_zeros(digits: &[u8]) -> &[u8]
    ensures { result.now ≡ skip_zeros digits.now }
{
    let mut rest = digits;
    while let [b'0', inner @ ..] = rest {
        rest = inner;
    }
    rest
}

/// The number that the digits mean, or the largest where it is larger.
pub(crate) fn number_of(digits: &[u8]) -> u64
    ensures { result ≡ min (decimal_of digits.now) (2 ^ 64 - 1) }
{
    let mut number = 0u64;
    for digit in digits {
        number = number
            .saturating_mul(10)
            .saturating_add(digit.saturating_sub(b'0') as u64);
    }
    number
}
