//! A count of what happened. It never falls, and stands still at the end of its type.
ghost use Rattle.std.specs.Prelude.{◌≡◌, ◌≤◌};
ghost use Rattle.outside.specs.Counts.{full, more_by_one};

/// How often something happened.
#[derive(Drop)]
pub struct Count {
    n: u64,
    pub ghost fits: { n ≤ full },
}

impl Count {
    /// Nothing happened yet.
    pub fn new() -> Count
        ensures { result.n ≡ 0 }
    {
        Count { n: 0 }
    }

    /// How often it happened.
    pub fn now(&self) -> u64
        ensures { result ≡ self.now.n }
    {
        self.n
    }

    /// Counts one more, unless the count stands at the end of its type.
    pub fn rise(&mut self)
        ensures { self.new.n ≡ more_by_one self.old.n }
    {
        self.n = self.n.saturating_add(1);
    }
}
