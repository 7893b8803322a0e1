//! The sizes of the table of registrations, each named once. They are this project's own.
ghost use Rattle.std.specs.Prelude.{◌≡◌, ◌-◌, ◌^◌};

/// The stripes of the table. A descriptor belongs to the stripe `fd % STRIPES`.
pub const STRIPES: u64 = 32;

/// The descriptors, numbered from 0.
pub const DESCRIPTORS: u64 = 4096;

/// The descriptors of one stripe.
pub const STRIPE_DESCRIPTORS: u64 = DESCRIPTORS / STRIPES;

/// The places of a descriptor: registrations that wait, and flags that have fired and aren't asked yet.
pub const PLACES: u64 = 4;

/// The flags of one stripe that may be unasked at a time.
pub const FLAGS: u64 = 512;

/// The count at which a stripe draws no further number.
pub const LAST_COUNT: u64 = (1 << 50) - 1;

/// The definitions write these numbers out, and they are the same there and here.
pub fn limits_are_those_of_the_definitions()
    ensures stripes { STRIPES ≡ 32 }
    ensures descriptors { DESCRIPTORS ≡ 4096 }
    ensures stripe_descriptors { STRIPE_DESCRIPTORS ≡ 128 }
    ensures places { PLACES ≡ 4 }
    ensures flags { FLAGS ≡ 512 }
    ensures last_count { LAST_COUNT ≡ 2 ^ 50 - 1 }
{}
