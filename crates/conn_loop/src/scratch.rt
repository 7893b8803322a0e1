//! What one thread lends to each connection that it brings on: nothing in it is kept between two calls.
ghost use Rattle.std.specs.Prelude.{◌≡◌};

use std::alloc::{AllocError, Global};
use warp_response::HeadBuf;

/// Room for the fields of a head that is read, and for a head that is written.
#[derive(Drop)]
pub struct Scratch {
    pub(crate) fields: warp_request::Scratch,
    pub(crate) head: HeadBuf,
}

impl Scratch {
    /// The room, which is taken here; an error is want of memory.
    pub fn new(alloc: Global) -> Result<Scratch, AllocError> {
        let fields = warp_request::Scratch::new(alloc)?;
        let head = HeadBuf::new(alloc)?;
        Ok(Scratch { fields, head })
    }
}
