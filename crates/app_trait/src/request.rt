//! What an application is told: the request, and what its looks for files have found so far.
ghost use Rattle.std.specs.Prelude.{◌≡◌, Some, None};

/// A request, as an application sees it.
#[derive(Clone, Copy)]
pub struct Request<'a> {
    /// The method, as it stood: methods are told apart by case (RFC 9110, section 9.1).
    pub method: &'a [u8],
    /// The target, as it stood.
    pub target: &'a [u8],
    /// The `y` of `HTTP/1.y`.
    pub minor: u8,
}

/// What the looks for one request have found so far. A size is in bytes, and a time in seconds since 1970.
#[derive(Clone, Copy, Debug, PartialEq, Eq)]
pub enum Seen {
    /// Nothing was looked for.
    Nothing,
    /// The first look found a file.
    FirstFound { size: u64, mtime: u64 },
    /// The first look found none.
    FirstAbsent,
    /// The second look found a file.
    SecondFound { size: u64, mtime: u64 },
    /// The second look found none.
    SecondAbsent,
}

impl Seen {
    ghost use Rattle.app_trait.specs.Seen.{next_seen};

    /// What is seen once one more look has found a file of this size and time.
    pub fn found(self, size: u64, mtime: u64) -> Seen
        ensures { result ≡ next_seen self (Some (size, mtime)) }
    {
        match self {
            Seen::Nothing => Seen::FirstFound { size, mtime },
            _ => Seen::SecondFound { size, mtime },
        }
    }

    /// What is seen once one more look has found none.
    pub fn absent(self) -> Seen
        ensures { result ≡ next_seen self None }
    {
        match self {
            Seen::Nothing => Seen::FirstAbsent,
            _ => Seen::SecondAbsent,
        }
    }
}
