//! Tests of sets of pairs, over public calls alone. They are a crate of their own, since a crate with tests is proved
//! twice.
#![tactic(auto)]

#[cfg(test)]
mod hashed;
#[cfg(test)]
mod steps;
