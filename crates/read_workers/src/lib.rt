//! Reads of one tree by several threads.
//!
//! `look_all` gives each ask to a reader: the asks are works at a board of `apply_workers`, and all readers share the
//! tree, which nobody changes meanwhile. The answers come in the order of the asks, and each is that of its own ask,
//! however many readers there are. `look_all_on` starts only those of the readers' threads that may be, and `look_run`
//! spares the threads where there are too few asks to pay for them.
//!
//! ```text
//! let looks = look_all(rt, alloc, &tree, &asks, readers, &OpenGate)?;
//! ```
#![tactic(auto)]

mod readers;
mod work;

pub use readers::{look_all, look_all_on, look_run};
pub use work::{LookWork, Looked};
