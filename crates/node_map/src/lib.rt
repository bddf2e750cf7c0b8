//! The nodes of the data tree by path, and what a transaction makes of a node.
//!
//! A `Node` has bytes, an access control list, its numbers, and the names of its children; `shown` is its Stat. A
//! `NodeMap` is a finite map from paths to nodes, which it finds by a keyed hash of the path. Its methods change the node
//! at a path, if there is one, or the names that a parent lists, and return what was done. A refused allocation leaves
//! the map as it was, except in `append`. `are_named`, `are_linked` and `are_owned` decide whether
//! paths, names and owners agree (`specs/Agreement.antt`). `data_tree` defines what a transaction does to the whole
//! tree.
//!
//! ```text
//! let mut nodes = NodeMap::new(alloc);
//! nodes.insert(alloc, "/", Node::childless(alloc)?)?;
//! nodes.add_child(alloc, "/", "a", &header, &create)?       // AddedChild::Added: the root's numbers before
//! nodes.insert_new(alloc, "/a", Node::created(alloc, &header, &create)?)?     // true: there was no node at the path
//! let taken = nodes.take(alloc, &paths)?;             // takes the nodes at the paths out
//! nodes.append(taken)?;                               // inserts them again
//! ```
#![tactic(auto)]

mod added_child;
mod moving;
mod node;
mod node_map;

pub use added_child::AddedChild;
pub use node::Node;
pub use node_map::NodeMap;
pub use pairs::{HashKey, TextKey};
