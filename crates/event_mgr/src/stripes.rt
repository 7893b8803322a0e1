//! The 32 stripes of a new manager, and which stripe a call is on.
ghost use Rattle.std.specs.Prelude.{◌≡◌, ◌<◌, IfOk};
ghost use Rattle.reg_keys.specs.declared.limits.TheConstants.{STRIPES};
ghost use Rattle.event_mgr.specs.Rows.{AreNewParts};
ghost use Rattle.event_mgr.specs.Stripes.{stripe_of};

use reg_keys::{Key, STRIPES};
use std::alloc::{AllocError, Global};
use stripe_table::{Load, Stripe};
use turn_cell::Part;

/// The stripe of a descriptor.
pub(crate) fn stripe_of_descriptor(fd: u16) -> u8
    ensures is { result ≡ stripe_of fd }
    ensures within { result < STRIPES }
{
    (fd as u64 % STRIPES) as u8
}

/// The stripe that drew a key.
pub(crate) fn stripe_of_key(key: Key) -> u8
    ensures is { result ≡ stripe_of key.number }
    ensures within { result < STRIPES }
{
    (key.number % STRIPES) as u8
}

/// A stripe for each place, with no openings.
pub(crate) fn all_stripes<T: Load>(alloc: Global) -> Result<Vec<Stripe<T>>, AllocError>
    ensures { IfOk result (λ v. AreNewParts ⟦<Stripe<T> as Part>⟧.stands ⟦<Stripe<T> as Part>⟧.name v.items) }
{
    let mut parts = Vec::with_capacity(alloc, STRIPES as usize)?;
    for stripe in 0..STRIPES as u8 {
        let part = Stripe::new(alloc, stripe)?;
        parts.push_reserved(part);
    }
    Ok(parts)
}
