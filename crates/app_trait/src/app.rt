//! An application, and what it may do with a request: ask for a look, or answer. What it does is a function
//! of the request and of what was seen, so that its answer is one function of the request and the folder.
ghost use Rattle.std.specs.Prelude.{◌≡◌};
ghost use Rattle.app_trait.specs.declared.request.Seen.{Seen as Sight};
ghost use Rattle.app_trait.specs.Moves.{RequestText, AppMove, text_of, EndsWithTwo, IsProperMove, PathKept};
ghost use Rattle.app_trait.specs.Shown.{move_shown, FitsMove};

use crate::request::{Request, Seen};
use path_rules::PathBuf8;
use warp_response::Response;

/// What an application does next.
#[derive(Clone, Copy, Debug, PartialEq, Eq)]
pub enum Move {
    /// It asks for a look at the path that it wrote.
    Look,
    /// It answers. A file's content is that of the file which the last look found.
    Answer(Response),
}

/// One function from a request and a folder to a reply, with at most two looks for files.
pub trait App {
    // What it does with a request when this has been seen.
    ghost moves: { Self → RequestText → Sight → AppMove };

    /// The next move. At `Look` the path to be looked for stands in `path`. The caller owes that `path` is
    /// left as it was from a look to the call that is told what it found.
    fn reply(&self, request: &Request<'_>, seen: Seen, path: &mut PathBuf8) -> Move
        requires kept { PathKept (moves self.now (text_of request.now)) seen path.old }
        ensures is { move_shown request.now.target.now result path.new
            ≡ moves self.now (text_of request.now) seen }
        ensures fits { FitsMove request.now.target.now seen result };

    // After a second look it answers.
    ghost ends: { (app : Self) → EndsWithTwo (moves app) };

    // What it answers is well formed.
    ghost proper: { (app : Self) (request : RequestText) (seen : Sight)
        → IsProperMove seen (moves app request seen) };
}
