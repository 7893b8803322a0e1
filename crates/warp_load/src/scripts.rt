//! The scripts of the load's links.
ghost use Rattle.std.specs.Prelude.{◌≡◌, ◌<◌, ◌^◌, IfOk, map};
ghost use Rattle.poller.specs.Scripts.{AreScripts, plans_from};
ghost use Rattle.warp_load.specs.LoadScripts.{load_plans, load_script, load_scripts, script_shown};

use crate::cutter::Cutter;
use crate::load::Load;
use crate::request_kind::RequestKind;
use crate::sums::room;
use poller::Script;
use std::alloc::{AllocError, Global};

/// The script of each of the load's links, in order, as `poller::MemNet::new` takes them. A link's script
/// gives its requests in pieces of 1 to 61 bytes, each with 1 to 977 bytes more that may be written, and has
/// room for just its answers.
pub fn load_scripts(alloc: Global, load: Load) -> Result<Vec<Script>, AllocError>
    // Each script is, piece by piece, that of the load, and has its room.
    ensures scripts { IfOk result (λ scripts.
        map script_shown scripts.items ≡ load_scripts load.seed load.connections load.requests) }

    // So the plan of each link is its whole input.
    ensures plans { IfOk result (λ scripts.
        plans_from 0 scripts.items ≡ load_plans load.seed load.connections load.requests) }

    // A net takes them.
    ensures fit { IfOk result (λ scripts. AreScripts scripts.items) }
{
    let mut scripts = Vec::with_capacity(alloc, load.connections as usize)?;
    for connection in 0..load.connections {
        scripts.push(script(alloc, &load, connection)?)?;
    }
    Ok(scripts)
}

/// The script of a link.
fn script(alloc: Global, load: &Load, connection: u64) -> Result<Script, AllocError>
    requires { connection < 4000 }
    ensures { IfOk result (λ script.
        script_shown script ≡ load_script load.now.seed load.now.requests connection) }
{
    let mut cutter = Cutter::new(alloc, load.seed, connection);
    for request in 0..load.requests {
        cutter.add(RequestKind::of(load.seed, connection, request).bytes())?;
    }
    Ok(Script {
        steps: cutter.finish()?,
        room: room(load, connection) as usize,
    })
}
