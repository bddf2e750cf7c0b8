//! Ordered sets of texts, and the paths that each session owns.
//!
//! A `TextSet` is a finite set of texts that iterates in ascending order of their bytes: a node's children, or a
//! session's paths. `Ephemerals` is a finite set of pairs of a session and a path, found by either (`pairs`), so that
//! ending a session and removing a path look at no other pairs. Session 0 owns nothing: adding or removing a pair of it
//! does nothing.
//!
//! ```text
//! let mut owners = Ephemerals::keyed(alloc, key);
//! owners.add(alloc, 9, "/a")?;                // true: the pair is new
//! owners.replace(alloc, "/a", 9, 7)?;         // from session 9 to session 7
//! owners.of(alloc, 7)?                        // the set of "/a"
//! owners.owns_any(9)                          // false
//! ```
#![tactic(auto)]

mod number_of_session;
mod owners;
mod run;
mod runs;
mod text_set;
mod texts;

pub use owners::Ephemerals;
pub use text_set::TextSet;
pub use texts::Texts;
