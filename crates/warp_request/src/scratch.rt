//! Room for the fields of a head, taken once and used for every head.
ghost use Rattle.std.specs.Prelude.{◌≡◌, vec_len};
ghost use Rattle.warp_request.specs.declared.limits.TheConstants.{FIELD_ROOM};

use crate::limits::FIELD_ROOM;
use httparse::spans::{EMPTY_HEADER_SPAN, HeaderSpan};
use std::alloc::{AllocError, Global};

/// Room for the `FIELD_ROOM` fields that a head can have.
#[derive(Drop)]
pub struct Scratch {
    pub(crate) fields: Vec<HeaderSpan>,
    ghost room: { vec_len fields ≡ FIELD_ROOM },
}

impl Scratch {
    /// Takes the room. The error is want of memory.
    pub fn new(alloc: Global) -> Result<Scratch, AllocError> {
        let fields = vec![in alloc; EMPTY_HEADER_SPAN; FIELD_ROOM]?;
        Ok(Scratch { fields })
    }
}
