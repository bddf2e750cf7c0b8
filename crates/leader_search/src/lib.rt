//! The search for a leader among several servers.
//!
//! Two threads share it. The hub's thread has a [`Search`]: it picks the server to be tried, after the pauses of
//! `following`. A thread of its own runs [`find_all`]: it resolves the server's name and connects to it, which may take
//! long, and hands the connection to the hub. Only a server that leads listens at its quorum port, so a server that
//! refuses costs a round trip, and no election is needed.
//!
//! ```text
//! let (mut search, finder) = search_among(alloc, servers, finding, now)?;
//! thread::spawn(rt, move || find_all(&rt, finder, &waker));
//! search.advance(now)                                   // Some(connection), where a server has accepted
//! search.lost(Outcome::Ended { served }, Reason::Ended, now);
//! ```
//!
//! The decisions are those of `following`, which are proved there; the rest is proved safe.
#![tactic(auto)]

mod finder;
mod search;

pub use finder::{Finder, find_all};
pub use search::{Search, search_among};
