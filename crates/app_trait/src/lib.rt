//! What answers a request: an application, which is one function from a request and a folder to a reply, and
//! the application that serves the files of a folder. An application opens no file: it asks for at most two
//! looks, and its caller looks and tells it what was found.
//!
//! The promise: whatever the folder has, `FolderApp` ends with the reply that the folder's table gives.
#![tactic(auto)]

// What an application is shown, and what it answers.
mod app;
mod request;

// The application that serves a folder.
mod folder_app;
mod method;

// What holds of every application.
mod laws;

pub use app::{App, Move};
pub use folder_app::FolderApp;
pub use laws::{an_answer_can_be_sent, looks_come_to_one_reply};
pub use method::Method;
pub use request::{Request, Seen};

#[cfg(test)]
mod tests;
