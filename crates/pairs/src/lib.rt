//! Finite sets of pairs of a text and a number, found by either.
//!
//! `Pairs` is such a set, for the watches of connections on paths, and for the paths that sessions own. It is stored
//! twice: for each text its numbers, found by the text's hash, and for each number its texts. What is asked of one text
//! or of one number looks at no other pairs, and nothing is left of a text or a number without a pair. Up to 30 bytes
//! of a text lie in the set itself, and a text with one number and a number with one text have no set of their own, so that a
//! pair takes little memory.
//!
//! ```text
//! let mut pairs = Pairs::keyed(alloc, key);
//! pairs.insert(alloc, "/a", 1)?;              // true: the pair is new
//! pairs.numbers_of(alloc, "/a")?              // the set of 1
//! pairs.drop_number(1);
//! ```
#![tactic(auto)]

mod by_number;
mod by_text;
mod hash_key;
mod hashed_texts;
pub mod law;
mod number_set;
mod pairs_table;
mod row;
mod text_key;
mod text_table;

pub use hash_key::HashKey;
pub use hashed_texts::HashedTexts;
pub use number_set::NumberSet;
pub use pairs_table::Pairs;
pub use text_key::{KeyQuery, TextKey};
pub use text_table::TextTable;
