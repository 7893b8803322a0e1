//! The empty lines before a head, and whether a line's end is there after them.
ghost use Rattle.std.specs.Prelude.{◌≡◌, ◌↔◌, ◌≤◌, ◌==◌, [], IsTrue, length, drop};
ghost use Rattle.warp_request.specs.Lines.{skip_empty, has_line, line_end_len as line_end_length};

/// How many bytes the line end at the front has: 0 where there is none.
fn line_end_len(bytes: &[u8]) -> usize
    ensures is { result ≡ line_end_length bytes.now }
    ensures within { result ≤ length bytes.now }
{
    match bytes {
        [b'\n', ..] => 1,
        [b'\r', b'\n', ..] => 2,
        _ => 0,
    }
}

/// The place after the empty lines at the front.
fn after_empty(bytes: &[u8]) -> usize
    ensures within { result ≤ length bytes.now }
    ensures rest { drop result bytes.now ≡ skip_empty bytes.now }
{
    let mut at = 0;
    loop {
        let len = line_end_len(&bytes[at..]);
        if len == 0 {
            return at;
        }
        at += len;
    }
}

/// Whether the bytes are empty lines and nothing more: input that ends so is not cut short
/// (RFC 9112, section 2.2).
pub fn is_blank(bytes: &[u8]) -> bool
    ensures { IsTrue result ↔ (skip_empty bytes.now ≡ []) }
{
    after_empty(bytes) == bytes.len()
}

/// Whether a line's end is there after the empty lines.
#[tactic(auto, unfolding(crate::specs::Lines::has_line))]
pub(crate) fn has_line(bytes: &[u8]) -> bool
    ensures { result ≡ has_line bytes.now }
{
    let at = after_empty(bytes);
    bytes[at..].contains(&b'\n')
}
