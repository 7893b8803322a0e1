//! The parts of a target: where its raw path and its query stand (RFC 9112, section 3.2).
ghost use Rattle.std.specs.Prelude.{◌≡◌, ◌≤◌, ◌+◌, ℕ, IsTrue, length, IfSome};
ghost use Rattle.warp_response.specs.Reply.{IsSpanOf};
ghost use Rattle.path_rules.specs.Target.{form_of, begins_with_slash, has_scheme, behind_scheme, authority_end, path_end, raw_path_of, query_of, ends_authority, is_question_mark};
ghost use Rattle.std.specs.List.{position_or_len};

use memchr::{memchr, memchr2};

/// The forms of targets that have a path.
#[derive(Clone, Copy, Debug, PartialEq, Eq)]
pub enum Form {
    /// The target begins with `/` (RFC 9112, section 3.2.1).
    Origin,
    /// The target begins with `http://` or `https://` and an authority, which begins at this place
    /// (RFC 9112, section 3.2.2).
    Absolute(usize),
    /// Any other target.
    Neither,
}

const HTTP: &[u8] = b"http://";

const HTTPS: &[u8] = b"https://";

/// The form of a target: whether it has a path, and where.
#[tactic(auto, unfolding(crate::specs::Target::form_of))]
pub fn form_of(target: &[u8]) -> Form
    ensures is { result ≡ form_of target.now }
    ensures within { (authority : ℕ) → result ≡ Form.Absolute authority → authority ≤ length target.now }
{
    if begins_with_slash(target) {
        return Form::Origin;
    }
    if let Some(authority) = behind_scheme(target, HTTP) {
        return Form::Absolute(authority);
    }
    match behind_scheme(target, HTTPS) {
        Some(authority) => Form::Absolute(authority),
        None => Form::Neither,
    }
}

/// Whether a target begins with `/`.
fn begins_with_slash(target: &[u8]) -> bool
    ensures { result ≡ begins_with_slash target.now }
{
    target.first() == Some(&b'/')
}

/// Whether a target begins with a scheme, in any case of ASCII letters.
fn has_scheme(target: &[u8], scheme: &[u8]) -> bool
    ensures is { result ≡ has_scheme target.now scheme.now }
    ensures within { IsTrue result → length scheme.now ≤ length target.now }
{
    match target.get(..scheme.len()) {
        Some(front) => front.eq_ignore_ascii_case(scheme),
        None => false,
    }
}

/// The place after the scheme, where the target begins with it and an authority of at least one byte follows.
#[tactic(auto, unfolding(crate::specs::Target::behind_scheme))]
fn behind_scheme(target: &[u8], scheme: &[u8]) -> Option<usize>
    ensures is { result ≡ behind_scheme target.now scheme.now }
    ensures within { IfSome result (λ place. place ≤ length target.now) }
{
    if has_scheme(target, scheme) && scheme.len() < authority_end(target, scheme.len()) {
        Some(scheme.len())
    } else {
        None
    }
}

/// The length of the authority at the front of some bytes: it ends before the first `/` or `?`.
fn authority_len(bytes: &[u8]) -> usize
    ensures is { result ≡ position_or_len ends_authority bytes.now }
    ensures within { result ≤ length bytes.now }
{
    memchr2(b'/', b'?', bytes).unwrap_or(bytes.len())
}

/// The place of the first `?` in some bytes, or their length.
fn question_mark(bytes: &[u8]) -> usize
    ensures is { result ≡ position_or_len is_question_mark bytes.now }
    ensures within { result ≤ length bytes.now }
{
    memchr(b'?', bytes).unwrap_or(bytes.len())
}

/// The place after the authority that begins at `start`.
fn authority_end(target: &[u8], start: usize) -> usize
    requires { start ≤ length target.now }
    ensures is { result ≡ authority_end target.now start }
    ensures within { result ≤ length target.now }
{
    start + authority_len(&target[start..])
}

/// The place of the first `?` from `start` on, or the end of the target.
fn path_end(target: &[u8], start: usize) -> usize
    requires { start ≤ length target.now }
    ensures is { result ≡ path_end target.now start }
    ensures after { start ≤ result }
    ensures within { result ≤ length target.now }
{
    start + question_mark(&target[start..])
}

/// The span of the raw path: the places of its first byte and after its last byte. It is empty after an
/// authority with no path, and (0, 0) where the target is of neither form.
#[tactic(auto, unfolding(crate::specs::Target::raw_path_of))]
pub fn raw_path(target: &[u8]) -> (usize, usize)
    ensures is { result ≡ raw_path_of target.now }
    ensures within { IsSpanOf target.now result }
{
    match form_of(target) {
        Form::Origin => (0, path_end(target, 0)),
        Form::Absolute(authority) => {
            let start = authority_end(target, authority);
            (start, path_end(target, start))
        }
        Form::Neither => (0, 0),
    }
}

/// The span of the query: what follows the first `?`, where there is one.
#[tactic(auto, unfolding(crate::specs::Target::query_of))]
pub fn query(target: &[u8]) -> Option<(usize, usize)>
    ensures is { result ≡ query_of target.now }
    ensures within { IfSome result (λ span. IsSpanOf target.now span) }
{
    let end = path_end(target, 0);
    if end < target.len() {
        Some((end + 1, target.len()))
    } else {
        None
    }
}
