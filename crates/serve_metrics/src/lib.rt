//! The thread that answers monitoring systems over HTTP: `/metrics`, `/health` and `/live`.
//!
//! It serves one connection at a time, each for two seconds at most and for one request, from the counts of the server's
//! [`Tally`](server_tally::Tally): so a slow or hostile peer takes neither a client's place nor the engine's time. HTTP
//! is that of the crate `http_server`, whose answers are proved to be whole. The server's first thread, which may open
//! files, counts the descriptors of the process for the tally by a [`DescriptorCount`].
//!
//! ```text
//! let scraping = start_scraping(rt, alloc, Some(listener), &tally, status, limit)?;
//! ..
//! scraping.end(rt);
//! ```
#![tactic(auto)]

mod descriptors;
mod memory;
mod page;
mod scraping;
mod service;
mod thread;
mod timed;

pub use descriptors::DescriptorCount;
pub use memory::STATUS;
pub use page::{Page, page_at};
pub use thread::{ScrapeThread, start_scraping};
