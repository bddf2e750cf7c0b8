//! Tests of boards and their workers, over public calls alone. They are a crate of their own, since a crate with tests
//! is proved twice.
#![tactic(auto)]

#[cfg(test)]
mod boards;
mod doubling;
#[cfg(test)]
mod threads;

pub use doubling::{Doubled, Number, numbers, shown};
