//! What clients asked for and the leader's stream hasn't answered yet.
//!
//! An observer forwards writes, syncs and requests for sessions to the leader. Each waits until the leader's stream
//! answers it, and what comes after it on the same connection is held. For each connection there is a queue, the oldest
//! request first: a connect in front, or none; writes and syncs that were forwarded; and frames that are held whole.
//! The leader answers syncs by their order alone, so there is one list of the syncs of all connections, too.
//!
//! ```text
//! let mut pending = Pending::new(alloc);
//! pending.push_write(alloc, 1, xid, WriteKind::Create)?;      // unless `occupancy(1)` is Full
//! pending.hold(alloc, 1, frame)?;                             // a read after it
//! let write = pending.answered_write(1, xid, 1);              // the create was applied; Some, with its place
//! pending.remove_write(1, write.place);
//! while let Some(ready) = pending.take_ready(1) { .. }        // the held frame
//! pending.drop_connection(1);                                 // what waits goes with its connection
//! ```
//!
//! The sessions whose clients were heard are kept, too, until the leader asks for them.
#![tactic(auto)]

mod law;
mod queue;
mod queues;
mod request;
mod syncs;
mod table;
mod timeouts;
mod touched;

pub use law::{
    answers_are_matched, connects_are_found, emptiness_is_told, gone_connections_are_forgotten,
    nothing_waits_in_vain, order_is_kept, other_connections_stay, requests_and_syncs_agree,
    worked_rows,
};
pub use queue::PENDING_LIMIT;
pub use request::{
    AnsweredWrite, ConnectKind, ERROR_TXN, Occupancy, PendingConnect, Ready, Settled, TakenConnect,
    WriteKind,
};
pub use table::{Pending, TOUCHED_LIMIT};
pub use timeouts::SessionTimeouts;
