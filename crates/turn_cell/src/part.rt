//! What a turn cell guards. A part is a value with one kind of call, and contracts know it by a relation
//! between it and the calls that were made on it.
ghost use Rattle.std.specs.Prelude.{◌≡◌, ◌<◌, ◌^◌, ℕ, List, [], ◌∷◌, ◌++◌, length};

/// A value that calls are applied to, one after the other.
///
/// A part stores no list of its calls, and a seat is no value of the program: both are known to contracts
/// alone.
pub trait Part: Drop {
    /// What is asked. A call that is refused is handed back.
    type Call;

    /// What is answered.
    type Reply;

    /// The plain content of one call and its reply.
    type Entry;

    // Whether the part stands for a list of entries, each with the seat that it was made under.
    ghost stands: { Self → List (ℕ × Self.Entry) → Type 0 };

    // What no call changes, so that each pass of a cell can know it.
    ghost name: { Self → List ℕ };

    // What a call has to meet. It speaks of the part's name and the call alone.
    ghost may: { List ℕ → Self.Call → Type 0 };

    // The plain content of a call and its reply.
    ghost entry: { Self.Call → Self.Reply → Self.Entry };

    // How a reply belongs to its call, beyond what the entry shows of the two: what is handed back is the
    // very value that came, and not one of the same content.
    ghost answers: { Self.Call → Self.Reply → Type 0 };

    /// Answers one call.
    ///
    /// It may count on fewer than 2^62 entries so far, so that a counter of its calls can't wrap. From
    /// whatever list the part stood for, and under whatever seat, it then stands for that list and this one
    /// entry.
    fn apply(&mut self, call: Self::Call) -> Self::Reply
        requires may { may (name self.old) call }
        requires short { (h : List (ℕ × Self.Entry)) × stands self.old h × (length h < 2 ^ 62) }
        ensures name { name self.new ≡ name self.old }
        ensures answers { answers call result }
        ensures step { (h : List (ℕ × Self.Entry)) (seat : ℕ) →
            stands self.old h → stands self.new (h ++ (seat, entry call result) ∷ []) };
}
