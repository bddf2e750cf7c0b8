//! An audit: it counts the children of a node that a log created and deleted, from the triggers of the log.
//!
//! The cversion in a Stat is twice the stored number less the number of children. `audit_stat` counts it instead: one
//! for each child that was created or deleted since the node was created. For a clean log (`specs/Clean.antt`) both are
//! the same by the law `law::counts_are_shown`, so the audit checks a tree's numbers without reading any of them. For a
//! log that isn't clean it returns the index of the first transaction that isn't.
//!
//! ```text
//! audit_stat(alloc, log, "/a")?     // Some((2, 0x100000003)): two creates or deletes of children, and the last zxid
//! ```
#![tactic(auto)]

mod audit;
mod clean;
mod count;
pub mod law;
mod taking;

pub use audit::{AuditError, audit_stat};
pub use count::Count;
