//! What the passes and the books of a server say together, once it has ended: how often each connection was
//! registered, which openings were finished, and how the sums of all books stand to these.
//!
//! Its promise: whatever the dispatchers did side by side, each connection that a book tells was registered
//! as often as its waits and its end say, no opening was finished twice, each book was handed what its pass
//! counted, and whoever was turned away or timed out was so for a cause that the pass's calls show. Where the
//! server came to its own end, nothing is left over.
//!
//! It follows from what `serve_loop` says of what it hands back, and from nothing else: no
//! code of the server is looked at.
#![tactic(auto)]

mod laws;

pub use laws::served_runs_add_up;
