//! How much there is of what.

/// How many watches can live at once.
pub const SLOTS: usize = 4096;

/// How often a slot is used at most.
pub const USES: u64 = 1 << 40;
