//! A tree that follows a leader.
//!
//! A `Replica` has a learner, which knows how far a leader was followed, a tree, and the base that the log starts from:
//! the tree is always the base with the log applied. `take` takes the next packet or part of the leader's stream, does
//! the acts that the learner learns from it, and returns the packets for the leader, the triggers for watchers, and
//! what concerns more than the replica (`LeaderNews`): a PING, a sync, an answer for a client's session, or a
//! transaction that was applied, with its results. An image is loaded apart from the tree, by a loader that the caller keeps with the stream, and replaces the
//! tree when its last part is in. A refused item leaves the replica and the loader as they were.
//!
//! Packets that only bring a transaction (`brings_txns`) may be gathered instead: `gather` leaves the tree, and
//! `apply_gathered` has a closure apply all that was gathered as one list.
//!
//! ```text
//! let mut replica = Replica::new(alloc, dialect, epochs)?;
//! send(replica.start(alloc, server_id)?);                              // a leader has connected
//! let outcome = replica.take(alloc, &mut loader, item)?;               // outcome.replies, outcome.triggers
//! replica.end();                                                       // it has left, or an item was refused
//! ```
//!
//! `specs/Taking.antt` and `specs/Gathering.antt` define what each call does, and the laws in `law` hold for every
//! replica.
#![tactic(auto)]

mod gathering;
mod item_outcome;
pub mod law;
mod replica;
mod taking;

pub use gathering::brings_txns;
pub use item_outcome::{ItemOutcome, LeaderNews};
pub use replica::Replica;
