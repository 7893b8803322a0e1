//! What holds of every application, whatever it answers. Each law is the contract of a function that does
//! nothing, for callers that go from look to look.
ghost use Rattle.std.specs.Prelude.{◌≡◌, ℕ, List, Option};
ghost use Rattle.outside.specs.Folder.{Folder, Content};
ghost use Rattle.warp_response.specs.declared.response.Response.{Response as ResponseOf};
ghost use Rattle.app_trait.specs.declared.request.Seen.{Seen as Sight};
ghost use Rattle.app_trait.specs.Laws.{BeginsWhole, GoesOnAtLook, EndsAtAnswer, StandsForReply, CanBeSent};
ghost use Rattle.app_trait.specs.Moves.{RequestText, AppMove, Moves, look_at, PathKept};
ghost use Rattle.app_trait.specs.ReplyTo.{SawFound, facts_of};
ghost use Rattle.app_trait.specs.Seen.{next_seen};

/// Look by look, what is still to come is the one reply to the request.
pub fn looks_come_to_one_reply()
    ensures begins { (moves : Moves) (folder : Folder) (request : RequestText)
        → BeginsWhole moves folder request }
    ensures looks { (moves : Moves) (folder : Folder) (request : RequestText)
        → GoesOnAtLook moves folder request }
    ensures answers { (moves : Moves) (folder : Folder) (request : RequestText)
        → EndsAtAnswer moves folder request }
    // What a look finds is what was seen.
    ensures sees { (seen : Sight) (found : Option Content)
        → SawFound (next_seen seen (facts_of found)) found }
    // Its path is the one that was looked for last.
    ensures keeps { (move : Sight → AppMove) (seen : Sight) (found : Option (ℕ × ℕ)) (path : List ℕ)
        → move seen ≡ look_at path
        → PathKept move (next_seen seen found) path }
{}

/// The response of an answer stands for the reply to come, and it has a head.
pub fn an_answer_can_be_sent()
    ensures stands { (moves : Moves) (folder : Folder) (request : RequestText)
        → StandsForReply moves folder request }
    ensures sends { (target : List ℕ) (response : ResponseOf) (seen : Sight)
        → CanBeSent target response seen }
{}
