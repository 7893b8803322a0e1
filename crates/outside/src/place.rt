//! What a folder in memory has, as a meaning of a type: a type that names the folder stands for it at compile
//! time, and `Brand` stands for one that is chosen where it is used.
ghost use Rattle.outside.specs.Folder.{Folder};

use std::marker::Brand;

/// What a folder has, for each of its paths.
pub trait Place {
    // The folder.
    ghost folder: { Folder };
}

impl Place for Brand {
    ghost use Rattle.outside.specs.Folder.{folder_of};
    ghost use Rattle.std.specs.Prelude.{[]};

    ghost folder = { folder_of [] };
}
