//! Tests of the four-letter words and of the list of watches, over public calls alone. They are a crate of their own,
//! since a crate with tests is proved twice. The calls are in functions without contracts, so that a test's own proof
//! is short.
#![tactic(auto)]

#[cfg(test)]
mod answers;
#[cfg(test)]
mod helpers;
