//! The paths that files in memory looked for, in order, so that they can tell them.
ghost use Rattle.std.specs.Prelude.{◌≡◌, [], ◌∷◌, ◌++◌, if◌then◌else◌, is_ok};

use std::alloc::{AllocError, Global};
use std::marker::Model;

/// The paths that were looked for.
#[derive(Drop)]
pub(crate) struct Looks {
    alloc: Global,
    paths: Vec<String>,
}

impl Model for Looks {
    ghost use Rattle.std.specs.Prelude.{ℕ, List, map, string_bytes};

    ghost Value = { List (List ℕ) };

    ghost view = { λ looks. map string_bytes looks.paths.items };
}

impl Looks {
    pub(crate) fn new(alloc: Global) -> Looks
        ensures { result ≡ [] }
    {
        Looks {
            alloc,
            paths: Vec::new(alloc),
        }
    }

    /// Notes one more path. Where memory is short, it isn't noted.
    pub(crate) fn add(&mut self, path: &str) -> Result<(), AllocError>
        ensures { self.new ≡ (if is_ok result then self.old ++ path.now ∷ [] else self.old) }
    {
        self.paths.push(String::from_str(self.alloc, path)?)?;
        Ok(())
    }
}
