//! From the target of a request to the path of a file below the folder that is served (RFC 9112, section 3.2;
//! RFC 3986, sections 2.1 and 3.3), and from a path to the media type of its file. It touches no file: which
//! paths are there is the caller's to find out. A path that it gives is a list of names joined with `/`, none
//! of which leads upwards, names something hidden or holds a separator.
//!
//! Its promise: `route` gives exactly the path that `route_of` defines over the whole
//! target, and takes no memory.
#![tactic(auto)]

// The media type of a file.
mod content_types;

// The parts of a target.
mod target;

// The path of a file.
mod path_buf;
mod routes;
mod segments;

// From the one to the other.
mod paths;

pub use content_types::content_type;
pub use path_buf::PathBuf8;
pub use paths::route;
pub use routes::Route;
pub use target::{Form, form_of, query, raw_path};

#[cfg(test)]
mod tests;
