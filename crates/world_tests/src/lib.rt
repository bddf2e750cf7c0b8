//! Tests of what a server knows, over public calls alone. They are a crate of their own, since a crate with tests is
//! proved twice. Most calls are in functions without contracts, so that a test's own proof is short.
#![tactic(auto)]

#[cfg(test)]
mod sessions_known;
