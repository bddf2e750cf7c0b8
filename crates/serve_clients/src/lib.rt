//! The thread of a client's connection: it answers the words that the server answers by itself, counts the packets that
//! come and go, and has a session served.
//!
//! [`client_loop`] looks at what a connection begins with. A word of the server's own that lists clients is answered from
//! its tally, which needs no message and no turn of the hub; then the session is run on a stream that is at its end. What
//! is anything else is handed to `session_loop`, whose reader and writer count frames on the way (`PacketCount`).
//!
//! It is proved that the reader gives what the connection brought, in order, from its first byte on, and that the writer
//! writes what it is given (`counted.rt`); the rest is proved safe, and tested over sockets.
#![tactic(auto)]

mod client;
mod counted;
mod writing;

pub use client::client_loop;
