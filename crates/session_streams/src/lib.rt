//! The streams of a session's thread, over a socket.
//!
//! A socket is [`split`] into a reader that waits and a writer. The reader waits until the socket can be read or
//! written, or the hub rings the [`Bell`], so a thread makes system calls only if there is something to do, and once in
//! its longest wait otherwise.
#![tactic(auto)]

mod bell;
mod waiting;

pub use bell::Bell;
pub use waiting::{Sides, Waiting, Writing, split};
