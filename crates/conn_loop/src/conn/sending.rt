//! How a connection sends the content of a file: a part is read after what was made, and
//! written before more is read.
ghost use Rattle.std.specs.Prelude.{◌≡◌, ◌≤◌, ◌<◌, ◌⊎◌, [], Option, Some, None, IfNone, length};
ghost use Rattle.app_trait.specs.Moves.{Moves};
ghost use Rattle.conn_loop.specs.Moves.{HasRead, IsPartWithin, ReadsPart};
ghost use Rattle.conn_loop.specs.Replying.{Serving, serving_over};
ghost use Rattle.conn_loop.specs.Steps.{ComesFor, Goes, GoesOver, IsSendingOut, IsSendingStage, to_go};

use super::Conn;
use crate::buffer::least;
use crate::limits::{PIECE, ROOM};
use crate::phase::Phase;
use crate::step::Step;
use outside::{Files, Link, PartOut};

impl<F: Files> Conn<F> {
    /// Reads the next part of the content. What was read of it before is written first.
    #[inline(always)]
    pub(super) fn send_part<L: Link>(&mut self, link: &mut L, files: &mut F) -> Option<Step>
        requires sends { IsSendingStage self.old.stage }
        ensures stands { (moves : Moves)
            → ComesFor None (serving_over moves F.folder) self.old (L.told link.old)
            → ComesFor result (serving_over moves F.folder) self.new (L.told link.new) }
        ensures same { self.new ≡ record self.old {
          stage = self.new.stage;
          pending = self.new.pending;
          bytes = self.new.bytes;
          waits = self.new.waits;
        } }
        ensures stage { IsSendingOut self.new.stage }
        ensures nearer { (to_go self.new ≤ to_go self.old) × IfNone result (to_go self.new < to_go self.old) }
        ensures goes { GoesOver result self.old self.new (L.told link.old) (L.told link.new)
            (F.told files.old) (F.told files.new) }
    {
        if let Some(step) = self.make_way_for_part(link) {
            return Some(step);
        }
        self.read_part(files);
        None
    }

    /// Writes what was read of the content before. The first part follows the head,
    /// where there is room for it.
    fn make_way_for_part<L: Link>(&mut self, link: &mut L) -> Option<Step>
        requires sends { IsSendingStage self.old.stage }
        ensures stands { (serving : Option Serving) → ComesFor None serving self.old (L.told link.old)
            → ComesFor result serving self.new (L.told link.new) }
        ensures room { IfNone result (length self.new.pending < 16384) }
        ensures same { self.new
            ≡ record self.old { pending = self.new.pending; bytes = self.new.bytes; waits = self.new.waits } }
        ensures goes { Goes result self.old self.new (L.told link.old) (L.told link.new) }
    {
        match self.phase {
            Phase::Sending { at, .. } if at > 0 => self.write_due(link),
            _ => self.make_room(link),
        }
    }

    /// Reads a part of the content after what was made.
    #[inline(always)]
    fn read_part(&mut self, files: &mut F)
        requires sends { IsSendingStage self.old.stage }
        requires room { length self.old.pending < 16384 }
        ensures { ReadsPart F.folder self.old self.new (F.told files.old) (F.told files.new) }
    {
        let Phase::Sending { at, size } = self.phase else {
            unreachable!()
        };
        let room = least(PIECE, ROOM - self.output.bytes().len());
        let Some(lease) = &mut self.lease else {
            unreachable!()
        };
        let part = self
            .output
            .part(files, lease, at, least(room, (size - at) as usize));
        self.phase = phase_read(part, at, size);
    }
}

/// Where a connection stands once a part was read.
fn phase_read(part: PartOut, at: u64, size: u64) -> Phase
    requires within { IsPartWithin part at size }
    ensures { HasRead part at size result }
{
    match part {
        PartOut::Got(n) if at + (n as u64) < size => Phase::Sending {
            at: at + n as u64,
            size,
        },
        PartOut::Got(_) => Phase::Fresh,
        PartOut::Failed => Phase::Broken(at),
    }
}
