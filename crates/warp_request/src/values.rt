//! Values of fields: words without regard to case, lists cut at commas (RFC 9110, section 5.6).
ghost use Rattle.std.specs.Prelude.{◌≡◌, reverse};
ghost use Rattle.std.specs.List.{list_all};
ghost use Rattle.std.specs.Str.{str_eq_ignore_ascii_case};
ghost use Rattle.httparse.specs.Grammar.{skip_ows, trim_ows};
ghost use Rattle.warp_request.specs.Fields.{has_word as has_this_word, is_host_byte as is_byte_of_host};

/// Whether the words are the same but for the case of ASCII letters.
pub(crate) fn is_same_word(word: &[u8], other: &[u8]) -> bool
    ensures { result ≡ str_eq_ignore_ascii_case word.now other.now }
{
    word.eq_ignore_ascii_case(other)
}

/// The bytes from the first that is neither a space nor a tab.
fn trim_start(value: &[u8]) -> &[u8]
    ensures { result.now ≡ skip_ows value.now }
{
    let mut rest = value;
    while let [b' ' | b'\t', inner @ ..] = rest {
        rest = inner;
    }
    rest
}

/// The bytes up to the last that is neither a space nor a tab.
fn trim_end(value: &[u8]) -> &[u8]
    ensures { reverse result.now ≡ skip_ows (reverse value.now) }
{
    let mut rest = value;
    while let [inner @ .., b' ' | b'\t'] = rest {
        rest = inner;
    }
    rest
}

/// The value without the spaces and tabs at its ends.
#[tactic(auto, unfolding(httparse::specs::Grammar::trim_ows))]
pub(crate) fn trim(value: &[u8]) -> &[u8]
    ensures { result.now ≡ trim_ows value.now }
{
    trim_end(trim_start(value))
}

/// Whether the word is a member of the list that the value is.
pub(crate) fn has_word(value: &[u8], word: &[u8]) -> bool
    ensures { result ≡ has_this_word word.now value.now }
{
    value
        .split(|b| *b == b',')
        .any(|member| is_same_word(trim(member), word))
}

// Each byte that may stand in a host and port stands at its own place, and a space at every other place.
static HOST_MAP: [u8; 256] = *b"\
    \x20                               \
    \x20!  $%&'()*+,-. 0123456789:; =  \
    \x20ABCDEFGHIJKLMNOPQRSTUVWXYZ[ ] _\
    \x20abcdefghijklmnopqrstuvwxyz   ~ \
    \x20                               \
    \x20                               \
    \x20                               \
    \x20                               ";

/// Whether a byte may stand in a host and port (RFC 3986, section 3.2.2).
fn is_host_byte(b: u8) -> bool
    ensures { result ≡ is_byte_of_host b }
{
    HOST_MAP[b as usize] != b' '
}

/// Whether each byte may stand in a host and port (RFC 3986, section 3.2.2).
pub(crate) fn is_host(value: &[u8]) -> bool
    ensures { result ≡ list_all is_byte_of_host value.now }
{
    value.iter().all(|b| is_host_byte(*b))
}
