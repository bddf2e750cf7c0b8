//! The four-letter words that a server answers by itself: what has gone through it, what it holds, and how it is set.
//!
//! The texts have ZooKeeper's lines, as far as the figures are known here: specs/Words defines the words, and specs/Texts
//! the text of each. They are made from a `Report`, which the caller fills in; only the words for which `lists_clients`
//! is true use its list of clients.
//!
//! ```text
//! let mut out = Vec::new(alloc);
//! if let Some(word) = ServerWord::from_bytes(*b"srvr") {
//!     answer(word, &report, &mut out)?;      // Zookeeper version: 3.8.0-.., Latency min/avg/max: 0/0.2500/1, ..
//! }
//! ```
#![tactic(auto)]

mod answered;
mod average;
mod figures;
pub mod law;
mod texts;
mod word;

pub use answered::AnsweredWords;
pub use average::Average;
pub use figures::{ClientFigures, Descriptors, Latency, Report, ServerFigures, ServerSettings};
pub use texts::{NOT_SERVING, answer};
pub use word::ServerWord;
