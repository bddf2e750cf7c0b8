//! The four-letter words, by which operators ask an observer for its state.
//!
//! A connection that begins with one of eight words is sent a text. specs/Words defines the words, specs/Texts the text
//! of each, specs/Watched the lists of watches, and specs/Dumped the sessions with ephemeral nodes. The texts are made
//! from `Figures`, which the caller fills in; only the words for which `needs_watches` is true use the watches
//! themselves, and the one for which `needs_counts` is true more than their number.
//!
//! ```text
//! let mut out = Vec::new(alloc);
//! answer(*b"ruok", &figures, &mut out)?      // true: out has "imok"
//! answer(*b"stat", &figures, &mut out)?      // false: no word of this observer, and out stays as it is
//! ```
#![tactic(auto)]

mod dump;
mod figures;
pub mod law;
mod put;
mod texts;
mod watched;
mod word;

pub use figures::{Figures, Lent, WatchRow};
pub use texts::answer;
pub use word::Word;
