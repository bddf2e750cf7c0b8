//! An audit of a script: its events are fed to an observer, and the children of a node are counted from the log.
//!
//! `audit_on` reads the script to its end, feeds its events except the checkpoints, and prints the count of the node at
//! the path, from the observer's log; it returns the exit status. It works over any reader and writers, so what it
//! prints is proved for the bytes that it reads (`specs/Auditing.antt`).
//!
//! ```
//! let mut reader = b"primed".as_slice();
//! let status = audit_on(alloc, &mut reader, "/zookeeper", &mut printed, &mut errors);
//! // status 0; printed has the line `cversion=-1 pzxid=0x0`, and errors nothing
//! ```
#![tactic(auto)]

mod auditing;

pub use auditing::audit_on;
