//! What has gone through a server and its connections, counted by their threads, and the answers to the words that ask
//! for it.
//!
//! All threads share one [`Tally`]. A connection has a [`ClientTally`], which its thread tells what has come and gone,
//! and asks for the text for a word; the hub stores after each turn what the engine holds
//! ([`EngineFigures`]). So an answer takes no message and no turn, and no time for nodes, watches or other clients,
//! unless it lists these. The counts are read one after the other, so an answer may tell of a packet that came and not
//! yet of its connection.
//!
//! A monitoring system is told the same by [`Tally::metrics`], [`Tally::health`] and [`Tally::is_live`].
//!
//! Which text a word has is proved in `server_words`, that of the metrics in `server_metrics`, and here how an answer is timed (`timed.rt`); that the counts are
//! right is tested.
//!
//! ```text
//! let tally = Arc::new(alloc, Tally::new(rt, alloc, TallySettings { version, dialect, settings, words }))?;
//! let client = ClientTally::new(alloc, Arc::try_clone(&tally)?, number, address)?;
//! client.enter(rt);
//! client.receive(rt, 2);                                // two frames came
//! client.send(rt, 3, 2);                                // three packets went, two of them answers
//! client.text_for(rt, alloc, ServerWord::Srvr)?         // the answer, or that the word isn't answered
//! client.leave(rt);
//! ```
#![tactic(auto)]

mod client;
mod counts;
mod histogram;
mod packets;
mod tally;
mod telling;
mod timed;

pub use client::ClientTally;
pub use packets::{Found, PacketCount};
pub use tally::{EngineFigures, Tally, TallySettings, TurnFigures};
