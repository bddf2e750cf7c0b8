//! The configuration file of a ZooKeeper server, as an observer reads it.
//!
//! `parse` reads a text in the form of Java's properties (`form`), and refuses a key that asks for security which isn't
//! here (`key`). `setting_in` finds the value of a key, and `server_in` reads the line of a server (`server`), whose addresses
//! `addresses_in` gives (`address`). `text_of` makes the text of a file's bytes.
//!
//! ```text
//! let entries = parse(alloc, "tickTime=2000\nserver.1=zk1:2888:3888\nserver.9=here:2888:3888:observer\n")?;
//! setting_in(entries.as_slice(), "tickTime")     // Some("2000"), and 3000 without the line
//! server_in(alloc, &entries[2])?                 // Some: id 9, an observer, at here:2888:3888
//! parse(alloc, "sslQuorum=true\n")               // Err: 1: there is no TLS here
//! ```
//!
//! `specs/Form.antt` defines the entries of a text, `specs/Keys.antt` what each key means, `specs/Addresses.antt` and
//! `specs/Servers.antt` what the line of a server is.
#![tactic(auto)]

mod address;
mod config;
mod error;
mod form;
mod joined;
mod key;
mod server;

pub use address::{
    ServerAddress, ServerRole, addresses_in, bare_host, is_negative_up_to, without_plus,
};
pub use config::{master_port, parse, serves_metrics, setting_in, value_in};
pub use error::{BadLine, ConfigError, Reason};
pub use form::{Entry, entries_of, text_of};
pub use key::{Meaning, meaning_of};
pub use server::{ClientPlace, Server, server_in, voters_beside};
