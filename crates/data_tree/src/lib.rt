//! The data tree of ZooKeeper: what each transaction does to it, its errors, and its triggers for watchers.
//!
//! A `Tree` is a state in three parts: the nodes by path, the ephemeral nodes of each session, and the timeout of each
//! session. It starts `fresh`, or `empty` if it is read node by node from an image. `apply` applies one transaction and
//! is proved to do what `specs/Meaning.antt` defines; `docs/TRANSACTIONS.md` has this as a table. It allocates before
//! it changes anything, so a refused allocation leaves the tree as it was, except in a multi or a closeSession. The
//! laws in `law` say which transactions can be applied separately: `take_cells` moves the cells at some paths out of
//! the tree, transactions whose footprint is within these paths are applied to the cells as they would be to the tree,
//! and `put_cells` moves the cells back.
//!
//! ```text
//! let mut tree = Tree::fresh(alloc)?;
//! let outcome = tree.apply(alloc, &decode_txn(alloc, bytes)?)?;
//! outcome.results.err                  // the first error code, or 0
//! outcome.triggers                     // the triggers for watchers, in order
//! tree.node("/a"), tree.stat("/a")     // the node, and its Stat
//! let mut cells = tree.take_cells(alloc, &paths)?;
//! cells.apply(alloc, &txn)?;
//! tree.put_cells(alloc, cells)?;
//! ```
#![tactic(auto)]

mod cells;
pub mod law;
mod multi;
mod outcome;
mod sessions;
mod tree;

pub use cells::Cells;
pub use node_map::{HashKey, Node};
pub use outcome::{Outcome, PartResult, Trigger, Triggers, TxnResults};
pub use sessions::Timeouts;
pub use tree::Tree;
