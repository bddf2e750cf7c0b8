//! The watches of clients: the connections that are sent an event when a path changes, at most one for each watch.
//!
//! There are three tables. Data watches and child watches (ZooKeeper Programmer's Guide, "Watches") are finite sets of
//! pairs of a path and a connection. Lasting watches aren't used up: a persistent one is on a path, and a recursive one
//! on a path and all below it; a connection may have both on one path. `fire` takes the triggers of transactions, uses up the data and child watches on them,
//! and returns each event with its connection. `specs/Watches.antt` defines this, and `fire` is proved to do it.
//!
//! ```text
//! let mut watches = Watches::new(alloc);
//! watches.set_data(alloc, 1, "/a")?;
//! watches.fire(alloc, &[Trigger::DataChanged(a)])?     // [(1, NodeDataChanged "/a")]
//! watches.fire(alloc, &[Trigger::DataChanged(a)])?     // []
//! ```
#![tactic(auto)]

mod counts;
mod event;
mod kind;
mod lasting;
pub mod law;
mod left;
mod mode;
mod recursive;
mod summary;
mod table;
mod telling;
mod watched;
mod watches;

pub use counts::WatchCounts;
pub use event::{Event, EventKind};
pub use kind::WatchKind;
pub use mode::WatchMode;
pub use watched::{Table, Watched};
pub use watches::Watches;
