//! Reads of the tree, for clients.
//!
//! `look` gives the answer to a read: an error code, or 0 and the body of a reply. The body is made once, with room
//! before it, and `Look::into_frame` fills the length and the header in there, so the only copy is the one out of the
//! tree. specs/Look defines the answers, `permissions` who may read a node, and specs/Reply the frame. What the kinds of
//! reads differ in is in one place: a row and a body for each (`kinds`, specs/Kinds).
//!
//! `look_each` answers several reads of one tree; an `Ask` is a read with the ids of its client (specs/Asking).
//!
//! A read may leave a watch, which `watch_of` returns (specs/Watch), and an event is sent in the same form as a reply
//! (specs/Events). The watch that an addWatch asks for is `watch_to_add`'s, and the one that a checkWatches or a
//! removeWatches names is `watch_sought`'s. A client that reconnects sends the watches that it had; `renew`, and
//! `renew_all` for later clients, return the events that it missed and the watches to set again (specs/Renewal).
//!
//! What later clients alone ask for has functions of its own (specs/LaterReads): the ephemeral nodes of a session, the
//! number of nodes below another, and the ids that the client has shown. Later clients need a permission for a getACL,
//! and who may not administrate the node sees no hash of a digest id in its list.
//!
//! ```text
//! let request = Request { kind: ReadKind::GetData, path, watch, rules };
//! let look = look(alloc, &tree, ids, &request)?;
//! let watch = watch_of(&request, look.error);
//! match look.into_frame(xid, last_zxid) {
//!     Some(frame) => send(frame),
//!     None => close(),                    // more bytes than a frame holds
//! }
//!
//! let synced = Look::of_path(alloc, "/a")?;
//! let created = Look::of_created(alloc, "/a", node)?;
//! let told = Look::of_event(alloc, &event)?.into_frame(NOTIFICATION_XID, -1);
//! let renewal = renew(alloc, &tree, &set_watches, rules)?;
//!
//! let paths = look_at_ephemerals(alloc, &tree, session, &prefix)?;
//! let number = look_below(alloc, &tree, ids, &path)?;
//! let shown = look_at_ids(alloc, ids)?;
//! ```
#![tactic(auto)]

mod asking;
mod body;
mod counts;
mod kinds;
mod later_reads;
mod law;
mod multi_reads;
mod reads;
mod renewal;
mod request;
mod shown;
mod watch;

pub use asking::{Ask, look_each};
pub use body::{BODY_LIMIT, Body};
pub use kinds::{ReadRow, WatchTable, may_watch, read_row};
pub use later_reads::{look_at_ephemerals, look_at_ids, look_below, look_of_sasl};
pub use law::worked_looks;
pub use multi_reads::look_at_parts;
pub use reads::{is_readable_path, look};
pub use renewal::{Renewal, renew, renew_all};
pub use request::Request;
pub use shown::Look;
pub use watch::{SoughtWatch, Watch, look_of_added, watch_of, watch_sought, watch_to_add};
