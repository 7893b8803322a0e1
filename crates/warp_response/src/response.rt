//! What an answer shows, without the bytes of its file and without those of its Location.

/// The media type of a file (RFC 9110, section 8.3.1).
#[derive(Clone, Copy, Debug, PartialEq, Eq)]
pub enum Kind {
    /// `text/html; charset=utf-8`
    Html,
    /// `text/plain; charset=utf-8`
    Plain,
    /// `text/css; charset=utf-8`
    Css,
    /// `text/javascript; charset=utf-8`
    JavaScript,
    /// `application/json`
    Json,
    /// `application/xml`
    Xml,
    /// `image/svg+xml`
    Svg,
    /// `image/png`
    Png,
    /// `image/jpeg`
    Jpeg,
    /// `image/gif`
    Gif,
    /// `application/octet-stream`, for every file of no other kind
    OctetStream,
}

/// The content of an answer.
#[derive(Clone, Copy, Debug, PartialEq, Eq)]
pub enum Content {
    /// The answer has none.
    None,
    /// The content has no bytes.
    Empty,
    /// A file of `size` bytes. The head tells the size, and the bytes follow where `send`
    /// is true: for GET, not for HEAD.
    File { size: u64, send: bool },
}

/// The spans of the target from which Location is made. A span holds the place of its first byte, counted
/// from 0, and the place after its last byte.
#[derive(Clone, Copy, Debug, PartialEq, Eq)]
pub struct Place {
    /// The raw path, after which Location has a `/`.
    pub raw: (usize, usize),
    /// What follows the first `?` of the target, where there is one.
    pub query: Option<(usize, usize)>,
}

/// What an answer shows.
#[derive(Clone, Copy, Debug, PartialEq, Eq)]
pub struct Response {
    /// One of the module `status`.
    pub status: u16,
    pub content: Content,
    /// There exactly where the content is a file.
    pub kind: Option<Kind>,
    /// There exactly at `MOVED_PERMANENTLY`.
    pub place: Option<Place>,
    /// Whether the answer lists the methods that are served.
    pub allow: bool,
}

/// What an answer says of the connection after it (RFC 9112, section 9.3).
#[derive(Clone, Copy, Debug, PartialEq, Eq)]
pub enum LastWord {
    /// Nothing: the connection stays open, as HTTP/1.1 has it.
    Nothing,
    /// The connection closes after this answer.
    Close,
    /// The connection stays open, which a client of HTTP/1.0 has to be told.
    KeepAlive,
}
