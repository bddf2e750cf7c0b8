//! What the leader's stream answers: the requests of clients that wait for it.
//!
//! A client's connect with a new session, its writes, its closeSession and its syncs go to the leader, and wait here
//! (`client_service`); `forwarding` knows what waits. When the leader's stream brings what they wait for, the client is
//! answered, as specs/Answering defines.
//!
//! [`due_in_log`] says once whom an applied transaction answers, and how ([`Due`]), and [`answer_applied_txn`] does it.
//! A createSession admits the connection that waits for the session: it gets the session and the answer to its connect,
//! and then the frames are served that were held until then. A closeSession answers the closeSession that waits, and
//! closes the connection of the session. Any other transaction answers the oldest write of the connection that has its
//! session, if it was made of it. [`answer_sync`] answers the oldest sync that was forwarded. What came after the
//! answered request, and waits for nothing else, is answered next. [`answer_revalidated`] admits or refuses a client that
//! claims a session, by what the leader says of it. [`answer_ping`] tells the leader which sessions'
//! clients were heard.
//!
//! The caller says what the leader's stream has brought, once the replica has taken it. Each function makes a step on a
//! stage (`world`), as those of `client_service` do.
//!
//! ```text
//! // the replica has applied the transaction at this place of its log, with this error
//! let due = due_in_log(&stage.world, place);
//! answer_applied_txn(alloc, &mut stage, place, due, error)?;  // Output::ToClient(7, reply), for one that waited
//! // the leader has done a sync, and then it asks who was heard
//! answer_sync(alloc, &mut stage)?;
//! answer_ping(alloc, &mut stage, ping)?;                      // appends Output::ToLeader(answer)
//! ```
#![tactic(auto)]

mod admitting;
mod due;
mod ending;
mod pinging;
mod ready;
mod syncing;
mod txn;
mod writing;

pub use admitting::answer_revalidated;
pub use due::Due;
pub use pinging::answer_ping;
pub use syncing::answer_sync;
pub use txn::{answer_applied_txn, due_in_log};
