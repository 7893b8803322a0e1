//! What a connection answers when it was brought as far as it goes.

/// How a connection ended.
#[derive(Clone, Copy, Debug, PartialEq, Eq)]
pub enum End {
    /// The input ended between requests, or an answer that closes was written whole.
    Clean,
    /// The input ended within a request.
    Cut,
    /// The link failed in a read.
    ReadFault,
    /// The link failed in a write, or took nothing of a piece.
    WriteFault,
    /// The files failed.
    FileFault,
    /// Memory for a file that was asked for was wanted.
    NoMemory,
}

/// What a connection answers: what it waits for, or how it ended.
#[derive(Clone, Copy, Debug, PartialEq, Eq)]
pub enum Step {
    /// Every answer that is due is written, and the link has no more bytes yet.
    WantRead,
    /// An answer isn't written whole, and the link takes no more bytes yet.
    WantWrite,
    /// The application asks to look for a path, which `Conn::wanted` tells.
    /// `Conn::supply` is owed what was found there.
    WantFile,
    /// The connection is over.
    Done(End),
}
