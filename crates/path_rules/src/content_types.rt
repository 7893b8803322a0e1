//! The media type of a file, by the ending of its name.
ghost use Rattle.std.specs.Prelude.{◌≡◌, ◌≤◌, ◌<◌, ◌+◌, ◌↔◌, IsTrue, length, map, Option, option_map, None, Some};
ghost use Rattle.std.specs.Char.{to_ascii_lowercase};
ghost use Rattle.std.specs.Str.{bytes_eq};
ghost use Rattle.path_rules.specs.ContentType.{content_type_of, last_segment, ending_in, kind_of_ending};

use memchr::memrchr;
use warp_response::Kind;

/// The kind of the file at a path, by what follows the last `.` of its last segment, in
/// any case of ASCII letters.
#[tactic(auto, unfolding(crate::specs::ContentType::content_type_of))]
pub fn content_type(path: &str) -> Kind
    ensures { result ≡ content_type_of path.now }
{
    match ending(last_segment(path.as_bytes())) {
        Some(ending) => kind_of(ending),
        None => Kind::OctetStream,
    }
}

/// What follows the last `/` of a path, or all of it where there is none.
fn last_segment(path: &[u8]) -> &[u8]
    ensures { result.now ≡ last_segment path.now }
{
    match memrchr(b'/', path) {
        Some(at) => &path[at + 1..],
        None => path,
    }
}

/// What follows the last `.` of a segment, where it has one.
fn ending(segment: &[u8]) -> Option<&[u8]>
    ensures { option_map (λ bytes. bytes.now) result ≡ ending_in segment.now }
{
    match memrchr(b'.', segment) {
        Some(at) => Some(&segment[at + 1..]),
        None => None,
    }
}

/// Whether the ending is this one, which is given in small letters.
fn is_ending(ending: &[u8], known: &[u8]) -> bool
    ensures { result ≡ bytes_eq (map to_ascii_lowercase ending.now) (map to_ascii_lowercase known.now) }
{
    ending.eq_ignore_ascii_case(known)
}

/// The kind of the files with an ending.
#[tactic(auto, unfolding(crate::specs::ContentType::kind_of_ending))]
fn kind_of(ending: &[u8]) -> Kind
    ensures { result ≡ kind_of_ending ending.now }
{
    if is_ending(ending, b"html") || is_ending(ending, b"htm") {
        Kind::Html
    } else if is_ending(ending, b"txt") {
        Kind::Plain
    } else if is_ending(ending, b"css") {
        Kind::Css
    } else if is_ending(ending, b"js") {
        Kind::JavaScript
    } else if is_ending(ending, b"json") {
        Kind::Json
    } else if is_ending(ending, b"xml") {
        Kind::Xml
    } else if is_ending(ending, b"svg") {
        Kind::Svg
    } else if is_ending(ending, b"png") {
        Kind::Png
    } else if is_ending(ending, b"jpg") || is_ending(ending, b"jpeg") {
        Kind::Jpeg
    } else if is_ending(ending, b"gif") {
        Kind::Gif
    } else {
        Kind::OctetStream
    }
}
