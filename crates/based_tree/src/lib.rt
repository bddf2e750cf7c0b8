//! A tree that can go back to its base.
//!
//! A log starts from a base: the tree without the log's transactions. `BasedTree` keeps no copy of it, but the base's
//! cells that have changed since. Which these are, the Stats tell: the zxids in a node that was created or changed come
//! after all those of the base. So only the first change of a node of the base copies it. A node that a single create
//! makes takes no memory here; where a session owns it, or the create is one of a multi, its path is kept. To go back,
//! or to take the tree as the new base, it looks at each node once.
//!
//! ```text
//! let mut based = BasedTree::new(alloc, tree);
//! based.apply(alloc, &txn)?;
//! based.tree()                 // after the transaction
//! based.go_back(alloc)?;       // the tree is the base again
//! based.apply(alloc, &txn)?;
//! based.rebase(alloc);         // the base is the tree
//! ```
#![tactic(auto)]

mod based_tree;
mod newer;
mod saved;

pub use based_tree::BasedTree;
