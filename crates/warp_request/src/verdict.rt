//! What `next` answers: where the parts of a head lie, and what its fields decide.
pub use httparse::spans::Span;

/// How the content of a request is delimited (RFC 9112, section 6).
#[derive(Clone, Copy, Debug, PartialEq, Eq)]
pub enum Framing {
    /// There is no content.
    None,
    /// The content has this many bytes.
    Length(u64),
    /// The content comes in chunks (RFC 9112, section 7.1).
    Chunked,
}

/// A head, by the places of its parts in the bytes that were read.
#[derive(Clone, Copy, Debug, PartialEq, Eq)]
pub struct HeadInfo {
    pub method: Span,
    pub target: Span,
    /// The last digit of the version: 0 or 1.
    pub minor: u8,
    /// Length of the head in bytes, including the empty lines before it and the one after it.
    pub head_len: usize,
    pub framing: Framing,
    /// Whether the connection stays open after the answer (RFC 9112, section 9.3).
    pub keeps: bool,
    /// Whether the client waits for an interim answer (RFC 9110, section 10.1.1).
    pub interim: bool,
}

/// What the bytes after the last whole request begin with.
#[derive(Clone, Copy, Debug, PartialEq, Eq)]
pub enum Next {
    /// The head of a request that is served.
    Head(HeadInfo),
    /// Something that is refused with this status.
    Refuse(u16),
    /// Too little to say. It comes only for fewer than `HEAD_LIMIT` bytes.
    More,
}
