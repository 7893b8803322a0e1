//! An opening is one use of a descriptor, from its opening to its closing. Descriptors are used again
//! and openings never are, so that a late call can be told from one that belongs.
ghost use Rattle.std.specs.Prelude.{◌≡◌, ◌<◌, ◌^◌, ◌%◌};
ghost use Rattle.reg_keys.specs.Token.{token_of, opening_of};

use crate::limits::{DESCRIPTORS, STRIPE_DESCRIPTORS, STRIPES};

/// One use of the descriptor `fd`. The number is drawn from the count of the descriptor's stripe, and
/// no other opening of the stripe has it.
#[derive(Clone, Copy, PartialEq, Eq)]
pub struct Opening {
    pub number: u64,
    pub fd: u16,
}

impl Opening {
    /// The opening as one number, for pollers that keep a number with each source.
    pub fn token(&self) -> u64
        requires number { self.now.number < 2 ^ 57 }
        requires descriptor { self.now.fd < DESCRIPTORS }
        ensures value { result ≡ token_of self.now }
        ensures back { self.now.number % STRIPES ≡ self.now.fd % STRIPES → opening_of result ≡ self.now }
    {
        self.number * STRIPE_DESCRIPTORS + self.fd as u64 / STRIPES
    }

    /// The opening of which a token was made. Its descriptor is taken to be of the stripe that drew
    /// its number.
    pub fn of_token(token: u64) -> Opening
        ensures { result ≡ opening_of token }
    {
        let number = token / STRIPE_DESCRIPTORS;
        let fd = STRIPES * (token % STRIPE_DESCRIPTORS) + number % STRIPES;
        Opening {
            number,
            fd: fd as u16,
        }
    }
}
