//! Texts that are cut at a byte, and the decimal numbers that they spell.
//!
//! Scripts, the command line, a `zoo.cfg` and the addresses in access control lists have these in common.
//!
//! ```text
//! let words = cut_at(b' ', b"client 7 up");            // "client" in front, "7 up" behind
//! let number = number_up_to(255, b"007");              // 7
//! let too_large = number_up_to(255, b"256");           // None
//! ```
//!
//! `specs/Cut.antt` defines the parts of a text, `specs/Number.antt` the number that it spells.
#![tactic(auto)]

mod cut;
mod number;

pub use cut::{Cut, cut_at};
pub use number::number_up_to;
