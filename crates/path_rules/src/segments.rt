//! The segments of a raw path: each is decoded once, and then it has to be a name.
ghost use Rattle.std.specs.Prelude.{◌≡◌, ◌≤◌, ◌<◌, ◌+◌, ◌++◌, true, false, [], ◌∷◌, ◌&&◌, IfSome, IfNone, IsTrue, MatchOption, length, take, nat_le, codes, if◌then◌else◌};
ghost use Rattle.std.specs.List.{list_any, slice_split};
ghost use Rattle.percent_encoding.specs.Percent.{percent_decode as decoded};
ghost use Rattle.std.specs.Bool.{OnTrue};
ghost use Rattle.path_rules.specs.Route.{is_name, is_hidden, is_forbidden};
ghost use Rattle.path_rules.specs.Target.{is_slash};
ghost use Rattle.path_rules.specs.Walk.{can_follow, IsFirstOf};

use crate::path_buf::{PATH_BYTES, PathBuf8};
use memchr::memchr;
use percent_encoding::percent_decode;

/// Bytes of the longest name.
const LONGEST_NAME: usize = 255;

/// The first segment of a path and what follows its `/`, where it isn't the last one.
pub(crate) fn first_folder(path: &[u8]) -> Option<(&[u8], &[u8])>
    ensures { MatchOption result (slice_split is_slash path.now ≡ path.now ∷ [])
        (λ parts. IsFirstOf path.now parts.0.now parts.1.now) }
{
    match memchr(b'/', path) {
        Some(at) => Some((&path[..at], &path[at + 1..])),
        None => None,
    }
}

/// Decodes a segment into the front of `bytes`, and gives the number of its bytes. There
/// is none where it is too long.
fn decode(segment: &[u8], bytes: &mut [u8]) -> Option<usize>
    ensures some { IfSome result
        (λ len. (len ≤ length bytes.old) × (take len bytes.new ≡ decoded segment.now)) }
    ensures none { IfNone result (length bytes.old < length (decoded segment.now)) }
{
    let mut len = 0;
    for byte in percent_decode(segment) {
        if len == bytes.len() {
            return None;
        }
        bytes[len] = byte;
        len += 1;
    }
    Some(len)
}

/// The decoded segment as a name, where it is one.
#[tactic(auto, unfolding(crate::specs::Route::is_name))]
fn name_of(bytes: &[u8]) -> Option<&str>
    ensures { MatchOption result (is_name bytes.now ≡ false)
        (λ name. (name.now ≡ bytes.now) × (is_name bytes.now ≡ true)) }
{
    if bytes.len() > LONGEST_NAME || is_hidden(bytes) || holds_forbidden(bytes) {
        return None;
    }
    match str::from_utf8(bytes) {
        Ok(name) => Some(name),
        Err(_) => None,
    }
}

/// Whether a name begins with `.`.
fn is_hidden(name: &[u8]) -> bool
    ensures { result ≡ is_hidden name.now }
{
    name.first() == Some(&b'.')
}

/// Whether a name holds NUL, `/` or `\`.
fn holds_forbidden(name: &[u8]) -> bool
    ensures { result ≡ list_any is_forbidden name.now }
{
    name.iter().any(|b| *b == 0 || *b == b'/' || *b == b'\\')
}

/// Writes a segment, decoded, after the path. `false` says that it is no name or doesn't fit,
/// and then the path is as it was.
#[tactic(auto, using(crate::proofs::PlainLemmas::plain))]
pub(crate) fn add_segment(segment: &[u8], out: &mut PathBuf8) -> bool
    ensures is { result
        ≡ (is_name (decoded segment.now)
        && nat_le (length out.old + length (decoded segment.now)) PATH_BYTES) }
    ensures added { out.new ≡ (if result then out.old ++ decoded segment.now else out.old) }
{
    // Without `%` there is nothing to decode, so it is a name as it stands or none.
    if !segment.contains(&b'%') {
        return add_name(segment, out);
    }
    let mut bytes = [0u8; LONGEST_NAME];
    let Some(len) = decode(segment, &mut bytes) else {
        return false;
    };
    add_name(&bytes[..len], out)
}

/// Writes a name after the path. `false` says that it is none or doesn't fit, and then the path is as it was.
fn add_name(bytes: &[u8], out: &mut PathBuf8) -> bool
    ensures is { result ≡ (is_name bytes.now && nat_le (length out.old + length bytes.now) PATH_BYTES) }
    ensures added { out.new ≡ (if result then out.old ++ bytes.now else out.old) }
{
    match name_of(bytes) {
        Some(name) => out.add(name),
        None => false,
    }
}

/// Writes the segment of a folder, decoded, after the path, and a `/` after it. `false` says that it is
/// empty, is no name or doesn't fit.
#[tactic(auto, unfolding(crate::specs::Walk::can_follow))]
pub(crate) fn add_folder(segment: &[u8], out: &mut PathBuf8) -> bool
    ensures is { result ≡ can_follow (length out.old) segment.now }
    ensures added { OnTrue result (out.new ≡ out.old ++ (decoded segment.now ++ codes "/")) }
{
    if segment.is_empty() {
        return false;
    }
    if !add_segment(segment, out) {
        return false;
    }
    out.add("/")
}
