//! Paths of nodes and access control lists: the values of a node's transactions that are checked, or held in little
//! memory.
//!
//! A `Path` begins with a slash, and no name in it is empty or has a NUL. An `AclList` takes no memory where it grants
//! every client everything, as the lists of nearly all nodes do. In a record the list may be null: an `AclField`.
//!
//! ```text
//! let path = Path::new(alloc, "/a/b")?;
//! path.parent()    // "/a"
//! path.name()    // "b"
//! ```
#![tactic(auto)]

mod acl_field;
mod acl_list;
mod path;

pub use acl_field::AclField;
pub use acl_list::AclList;
pub use path::{Path, child_of, is_path, name_of, parent_of};
