//! The thread of a connection: it reads what the peer sends, passes it to the hub through its port, and writes the
//! hub's outputs.
//!
//! [`session_loop`] serves a client and [`leader_loop`] follows the leader, over any reader and writer. A reader that has
//! nothing is asked to [`Rest`] until there may be something to do, at most for ten seconds.
//!
//! A session sends on at most 16 whole frames at once, and the next ones when the hub has taken these and the answers
//! are written: a client that sends much, or doesn't read, blocks only itself. A frame that the engine would hold while
//! the leader owes an answer waits here until all frames before it are answered (`window.rt`, [`frames_going`]), unless
//! it has one of a few places ([`ReadsAhead`]). So what one client is answered in a turn is bounded, however it
//! pipelines. Who says nothing or doesn't read is closed ([`SessionLimits`]).
//!
//! It is proved which bytes are whole frames ([`whole_frames`]), which of those that wait are sent on next
//! (`incoming.rt`), how answers are counted ([`law::exchanges`]), and of both loops what goes through the port and what
//! is written, whichever reads and writes fail (`specs/Conversations.antt`); the rest of the code is proved safe.
#![tactic(auto)]

mod ahead;
mod frames;
mod incoming;
mod kind;
pub mod law;
mod limits;
mod outgoing;
mod patience;
mod rest;
mod session;
mod window;

pub use ahead::ReadsAhead;
pub use frames::{frames_going, whole_frames};
pub use kind::Gate;
pub use limits::{AllowedWords, SessionLimits};
pub use rest::{Close, Rest};
pub use session::{LeaderGone, leader_loop, session_loop};
