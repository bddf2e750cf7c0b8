//! Why a server ends, or doesn't follow another one, in words for the one who runs it.
//!
//! A [`Failure`] has one line for standard error, which names what is wrong, and an exit status that tells causes apart.
//! `fault_hint` says of each fault what to do about it: docs/OPERATING.md lists the same texts.
//!
//! ```text
//! let failure = Failure::system(alloc, Step::Bind, &"0.0.0.0:2181", error);
//! failure.tell(rt)       // 3, and: observer: cannot bind 0.0.0.0:2181: Address already in use (os error 98)
//! ```
#![tactic(auto)]

mod failure;
mod hint;
mod server;

pub use failure::{Failure, Step};
pub use hint::fault_hint;
pub use server::{Reason, Server, Tried, servers_of};
