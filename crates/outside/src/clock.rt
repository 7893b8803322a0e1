//! The time, as far as an answer's date and the age of what is kept need it.
ghost use Rattle.std.specs.Prelude.{◌≡◌, [], ◌∷◌, IfSome};
ghost use Rattle.outside.specs.Moments.{ClockTold, Gives};

/// The time, in whole seconds since 1970.
pub trait Clock {
    // The moments handed out, where they are told, and the one moment of a clock that stands still.
    ghost told: { Self → ClockTold };

    /// The moment, in whole seconds since 1970, rounded down.
    fn now(&mut self) -> u64
        ensures gives { Gives (result ∷ []) (told self.old) (told self.new) }
        ensures at { IfSome (told self.old).still (λ moment. result ≡ moment) };
}
