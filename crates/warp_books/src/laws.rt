//! What holds of every book, and what makes a finished connection true to its link. Each law is the contract
//! of a function that does nothing.
ghost use Rattle.std.specs.Prelude.{◌≡◌, ◌∷◌, ◌++◌, [], List, Option};
ghost use Rattle.reg_keys.specs.declared.opening.Opening.{Opening};
ghost use Rattle.outside.specs.Causes.{LinkTold, IsFresh};
ghost use Rattle.outside.specs.Counts.{nothing_counted};
ghost use Rattle.outside.specs.FileCauses.{FilesTold};
ghost use Rattle.outside.specs.Folder.{Folder};
ghost use Rattle.app_trait.specs.FolderMoves.{folder_move};
ghost use Rattle.conn_loop.specs.declared.step.End.{End};
ghost use Rattle.conn_loop.specs.declared.step.Step.TheVariants.{Done};
ghost use Rattle.conn_loop.specs.Causes.{HasFault};
ghost use Rattle.conn_loop.specs.ConnState.{ConnState, Represents, Counted, StepImpliesFor, at_first};
ghost use Rattle.warp_books.specs.declared.finish.Finish.{Finish};
ghost use Rattle.warp_books.specs.declared.finish.Finish.TheVariants.{Ended};
ghost use Rattle.warp_books.specs.Truth.{IsTrueTo, IsGivenUp, finished_of, folder_serving};
ghost use Rattle.warp_books.specs.Books.{FinishedTold, BookTold, BookHasTaken, IsBookOf};

use conn_loop::sent_is_a_prefix;

/// A book that was handed some connections and takes one more was handed these and that one.
pub fn books_add_up()
    ensures { (ds : List FinishedTold) (d : FinishedTold) (b c : BookTold)
        → IsBookOf ds b → BookHasTaken d b c → IsBookOf (ds ++ d ∷ []) c }
{}

/// A connection that came to its own end, as its last step said, is true to its link.
pub fn ended_connections_are_true()
    ensures { (o : Opening) (folder : Option Folder) (c : ConnState) (end : End) (was : Option End)
        (before link : LinkTold) (files since : FilesTold)
        → Represents (λ request seen. folder_move request seen) folder c link
        → StepImpliesFor (Done end) (folder_serving folder) c link
        → HasFault (Done end) was before link files since → Counted c link
        → IsTrueTo (folder_serving folder) (finished_of o link c (Ended end)) }
{
    sent_is_a_prefix();
}

/// A connection that was given up, with an end that says nothing of the bytes, is true to its link.
pub fn given_up_connections_are_true()
    ensures { (o : Opening) (folder : Option Folder) (c : ConnState) (end : Finish) (link : LinkTold)
        → Represents (λ request seen. folder_move request seen) folder c link → Counted c link
        → IsGivenUp end → IsTrueTo (folder_serving folder) (finished_of o link c end) }
{
    sent_is_a_prefix();
}

/// A connection that was given up before it read or wrote anything is true to its link.
pub fn unserved_connections_are_true()
    ensures { (o : Opening) (folder : Option Folder) (end : Finish) (link : LinkTold)
        → IsFresh link → link.waits ≡ nothing_counted
        → IsGivenUp end → IsTrueTo (folder_serving folder) (finished_of o link at_first end) }
{}
