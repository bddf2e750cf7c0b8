//! Tests of the watches that clients ask for, over `read_processor`'s public calls alone. They are a crate of their
//! own, since a crate with tests is proved twice. The calls are in functions without contracts, so that a test's own
//! proof is short.
#![tactic(auto)]

#[cfg(test)]
mod asking;
#[cfg(test)]
mod calls;
#[cfg(test)]
mod renewing;
