//! What a target may stand for.

/// What a target stands for.
#[derive(Clone, Copy, Debug, PartialEq, Eq)]
pub enum Route {
    /// A file, or a folder without `/` at its end.
    Path,
    /// The index of a folder.
    Index,
    /// Nothing that is served.
    NotFound,
}
