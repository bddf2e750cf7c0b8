//! The replies to writes that were forwarded to the leader.
//!
//! A write of a client is made into a transaction by the leader. Once that was applied, the client is answered:
//! [`write_look`] says what its reply shows (specs/Replies), from the transaction, its results and the tree as it is
//! then. The results of a multi are those of its parts, as each was done (specs/Results).
//!
//! ```text
//! let seen = write_look(alloc, tree, WriteKind::Create, &txn.body, &outcome.results)?;   // the path of the new node
//! let frame = seen.into_frame(txn.header.cxid, txn.header.zxid);
//! ```
#![tactic(auto)]

mod multi;
mod reply;

pub use reply::write_look;
