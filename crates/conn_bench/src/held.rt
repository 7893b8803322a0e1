//! The connections that are held.
ghost use Rattle.std.specs.Prelude.{◌≡◌, ◌<◌, length};

use crate::order::{Order, Past};
use app_trait::FolderApp;
use conn_loop::{Conn, Scratch};
use outside::{Clock, Files, PieceLink, ReadEvent};
use std::alloc::{AllocError, Global};

/// A request whose target has a folder and then a name that no file has, so that its path is
/// begun and it is answered by 404.
const REQUEST: &[u8] =
    b"GET /a/.b HTTP/1.1\r\nHost: 127.0.0.1:8080\r\nConnection: keep-alive\r\nAccept: */*\r\n\r\n";

/// Bytes for which a link has room: more than the answer has.
const SENT: usize = 1_024;

/// As many connections as are wanted.
pub(crate) fn hold<F: Files, C: Clock>(
    alloc: Global,
    order: &Order,
    files: &mut F,
    clock: &mut C,
) -> Result<Vec<Conn<F>>, AllocError> {
    let mut scratch = Scratch::new(alloc)?;
    let mut held = Vec::with_capacity(alloc, order.count)?;
    for _ in 0..order.count {
        let conn = match order.past {
            Past::New => Conn::new(alloc)?,
            Past::Asked => asked(alloc, files, clock, &mut scratch)?,
        };
        held.push(conn)?;
    }
    Ok(held)
}

/// A connection that has answered one request, and waits for the next.
fn asked<F: Files, C: Clock>(
    alloc: Global,
    files: &mut F,
    clock: &mut C,
    scratch: &mut Scratch,
) -> Result<Conn<F>, AllocError> {
    let mut conn = Conn::<F>::new(alloc)?;
    let reads = vec![in alloc; ReadEvent::Piece(REQUEST.to_vec(alloc)?), ReadEvent::NotYet]?;
    let mut link = PieceLink::new(alloc, reads, Vec::new(alloc), SENT)?;
    conn.advance(&mut link, files, &FolderApp, clock, scratch);
    Ok(conn)
}
