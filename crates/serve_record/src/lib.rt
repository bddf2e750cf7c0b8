//! The record of a server's run: a script that `replay` plays again.
//!
//! It begins with the settings of the observer that aren't those of every script, and each message of the hub adds a line
//! (specs/Lines).
//!
//! ```text
//! let mut record = Record::new(alloc, Some(file));
//! record.begin(&config.settings);                      // `server 3`, `dialect 3.8`, ..
//! record.add(messages);                                // `client 2 up 127.0.0.1`, ..
//! ```
#![tactic(auto)]

mod record;

pub use record::{Record, put_message};
