//! Sessions, each with a connection.
//!
//! A `SessionMap` is a finite map: `sessions` has in one which connection has a session, and `forwarding` in another which
//! connection waits for one. The proofs in `proofs/Maps` are of all finite maps.
//!
//! ```text
//! let mut sessions = SessionMap::new(alloc);
//! sessions.set(0x1001, 7)?;                     // the session 0x1001 has connection 7
//! let connection = sessions.get(0x1001);        // Some(7)
//! ```
#![tactic(auto)]

mod session_map;

pub use session_map::SessionMap;
