//! The paths that a transaction may touch.
//!
//! Transactions whose footprints have no path in common can be applied separately (by the laws of `data_tree`), so a
//! batch may be cut by their footprints. A footprint is a finite set of paths, given as a strictly ascending list, or a
//! barrier: a transaction whose paths depend on the state, or are too many, is applied alone.
//!
//! ```text
//! match footprint(alloc, &txn)? {
//!     Footprint::Barrier => ..            // a closeSession, a multi of more than 16 paths
//!     Footprint::Paths(paths) => ..       // of a create of /a/b: "/a", "/a/b"
//! }
//! ```
//!
//! A caller that needs no order takes the paths as the transaction names them: `borrow_paths` of `txn_codec` copies none
//! of them, and `is_barrier` says whether they are too many.
#![tactic(auto)]

mod cover;
pub mod law;
mod listing;

pub use cover::Footprint;
pub use listing::{footprint, is_barrier};
