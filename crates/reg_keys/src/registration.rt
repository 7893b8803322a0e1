//! What a registration is made of: a direction to wait for, the key that it is known by, and the marks
//! that tell which report it has seen.

/// The name of one registration. The number is drawn from the count of the stripe, and no other
/// registration, opening, report or event of the stripe has it.
#[derive(Clone, Copy, PartialEq, Eq)]
pub struct Key {
    pub number: u64,
}

/// The direction that a registration waits for.
#[derive(Clone, Copy, PartialEq, Eq)]
pub enum Dir {
    Read,
    Write,
}

/// The directions that a report names.
#[derive(Clone, Copy, PartialEq, Eq)]
pub enum Dirs {
    Read,
    Write,
    Both,
}

/// For each direction the number of the last report that named it, or the opening's own number where
/// none has. A registration that names a mark says that it has tried since that report in vain.
#[derive(Clone, Copy, PartialEq, Eq)]
pub struct Marks {
    pub read: u64,
    pub write: u64,
}
