//! What a seat of a net's table knows. It is plain data that exists in contracts alone: no value of it is
//! made, and it has no bytes.
use std::collections::LinkedList;

/// What a seat may do.
pub(crate) enum Role {
    /// It alone raises the words from one number on up to another, which isn't among them, and no seat reads
    /// them.
    Raises(u64, u64),
    /// It alone raises a word, which one other seat reads.
    Delivers(u64),
    /// It alone reads a word.
    Reads(u64),
}

/// What a seat knows.
pub(crate) struct SeatKnowledge {
    /// For each word how often it is raised at most.
    pub limits: LinkedList<u64>,
    pub role: Role,
    /// What each word has that the seat raises, or what the word had that it reads when it was last read.
    pub seen: u64,
    /// How often it looked at a word.
    pub looks: u64,
    /// What the seat last found where a link notes that it leaves: 0 where it hadn't left.
    pub left: u64,
    /// Whether it noted that it leaves.
    pub gone: bool,
}
