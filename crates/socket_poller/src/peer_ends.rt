//! Which peers have ended, as far as polls were told.
//!
//! A read that fills less than its buffer has taken all that was there, so the next one would have to wait,
//! and needn't ask the system: what comes later is a change, which a poll reports. The peer's end is such a
//! change too, but it may have been reported already, together with the bytes. So a poll notes it before it
//! reports, and a link looks here before it answers that its caller must wait.
ghost use Rattle.std.specs.Prelude.{◌≡◌, ◌<◌, IfOk, vec_len};

use reg_keys::{DESCRIPTORS, Opening};
use std::alloc::{AllocError, Global};
use std::sync::atomic::{AtomicU64, Ordering};

/// For each descriptor, the number of the last opening whose peer was seen to end, or 0.
#[derive(Drop)]
pub(crate) struct PeerEnds {
    numbers: Vec<AtomicU64>,
    ghost each: { vec_len numbers ≡ 4096 },
}

impl PeerEnds {
    /// No peer was seen to end.
    pub fn new(alloc: Global) -> Result<PeerEnds, AllocError> {
        let mut numbers = Vec::with_capacity(alloc, DESCRIPTORS as usize)?;
        for _descriptor in 0..DESCRIPTORS {
            numbers.push(AtomicU64::new(0))?;
        }
        Ok(PeerEnds { numbers })
    }

    /// Notes that the peer of an opening was seen to end.
    pub fn note(&self, opening: Opening)
        requires { opening.fd < DESCRIPTORS }
    {
        self.numbers[opening.fd as usize].store(opening.number, Ordering::SeqCst);
    }

    /// Whether the peer of an opening was seen to end.
    pub fn has(&self, opening: Opening) -> bool
        requires { opening.fd < DESCRIPTORS }
    {
        self.numbers[opening.fd as usize].load(Ordering::SeqCst) == opening.number
    }
}
