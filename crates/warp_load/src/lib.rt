//! A load made from a number: the folder, the requests and the scripts of the links that the command `drive`
//! serves over a net in memory, and what serving them adds up to.
//!
//! The promise: the files, the scripts and the sums are those of the definitions, which know no thread, no
//! descriptor and no event: the sums are those of the answers to each connection's input with this folder.
#![tactic(auto)]

// Of which size a load is, and the words that name one.
mod load;
mod words;

// What it asks for, and of what folder.
mod folder;
mod request_kind;

// How its links give it piece by piece, and what the answers add up to.
mod cutter;
mod laws;
mod scripts;
mod sums;

pub use folder::{LOAD_MOMENT, LoadPlace, load_files};
pub use laws::{
    a_load_has_its_ranges, answers_fill_the_room, each_request_is_answered, sums_are_over_the_plans,
};
pub use load::Load;
pub use request_kind::RequestKind;
pub use scripts::load_scripts;
pub use sums::{Sums, expected};
pub use words::{dispatchers_in, load_in, number_in};

#[cfg(test)]
mod tests;
