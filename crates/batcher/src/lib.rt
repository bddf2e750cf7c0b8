//! Cuts a list of transactions into batches, and a batch into groups that have no path in common.
//!
//! The groups of a batch may be applied separately and in any order: the result is that of applying the transactions
//! one after the other (by the laws of `data_tree`). A batch is the longest prefix of the list in which each
//! transaction, in turn, has paths in common with at most one group; or it is a single barrier. `specs/Groups.antt`
//! defines the group of a transaction, `specs/Cut.antt` the cut, and the laws are in `law`.
//!
//! ```text
//! let limits = Limits::new(4, 256, 64)?;
//! let batch = cut(alloc, key, txns, &limits)?;
//! let rest = &txns[batch.len()..];
//! for group in batch.groups() {
//!     group.members()     // the places in `batch.txns()` of its transactions, ascending
//!     group.paths()       // the paths whose cells they may touch
//! }
//! ```
//!
//! `cut` copies the transactions of its batch; `cut_front` moves them out of a queue. `front_of` leaves them where they
//! are: it finds the same batch as a `Front`, and `Front::lend` makes of it and the list a `LentBatch`.
#![tactic(auto)]

mod batch;
mod cutting;
mod draft;
mod front;
mod group;
pub mod law;
mod lent;
mod limits;
mod met;
mod owners;
mod threshold;

pub use batch::Batch;
pub use cutting::{cut, cut_front};
pub use data_tree::HashKey;
pub use front::{Front, front_of};
pub use group::Group;
pub use lent::LentBatch;
pub use limits::{BadLimit, Limits};
pub use threshold::SpreadThreshold;
