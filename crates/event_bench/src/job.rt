//! Jobs of two sizes. What they hold is a number, by which nothing is done.
ghost use Rattle.std.specs.Prelude.{[], ◌∷◌};

use stripe_table::Load;

/// A job that is made out of a number.
pub(crate) trait Job: Load {
    fn new(number: u64) -> Self;
}

/// A job of 8 bytes.
#[derive(Drop)]
pub(crate) struct Small {
    number: u64,
}

impl Load for Small {
    ghost tag = { λ job. (job.number ∷ []) ∷ [] };
}

impl Job for Small {
    fn new(number: u64) -> Small {
        Small { number }
    }
}

/// A job of 400 bytes.
#[derive(Drop)]
pub(crate) struct Large {
    numbers: [u64; 50],
}

impl Load for Large {
    ghost tag = { λ job. job.numbers ∷ [] };
}

impl Job for Large {
    fn new(number: u64) -> Large {
        Large {
            numbers: [number; 50],
        }
    }
}
