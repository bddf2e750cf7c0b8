//! Tests of numbered texts, over public calls alone. They are a crate of their own, since a crate with tests is proved
//! twice.
#![tactic(auto)]

#[cfg(test)]
mod numbered;
