//! Where a program's lines go.
ghost use Rattle.std.specs.Prelude.{◌≤◌};
ghost use Rattle.outside.specs.Counts.{full};
ghost use Rattle.outside.specs.SinkCauses.{Puts, SinkTold};

/// What putting a piece answers.
#[derive(Clone, Copy, Debug, PartialEq, Eq)]
pub enum SinkOut {
    /// The whole piece is stored.
    Stored,
    /// A prefix of the piece is stored. The sink's count of faults rose.
    Failed,
}

/// Where bytes are stored.
pub trait Sink {
    // The bytes stored so far, where they are told, and how many faults there were.
    ghost told: { Self → SinkTold };

    /// Stores the piece after what is stored.
    fn put(&mut self, piece: &[u8]) -> SinkOut
        ensures { Puts result piece.now (told self.old) (told self.new) };

    ghost faults_fit: { (sink : Self) → (told sink).faults ≤ full };
}
