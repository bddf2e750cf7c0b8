//! Tests of `permissions`, over public calls alone. They are a crate of their own, since a crate with tests is proved
//! twice. Calls are in functions without contracts, so that a test's own proof is short.
#![tactic(auto)]

#[cfg(test)]
mod calls;
#[cfg(test)]
mod granted;
#[cfg(test)]
mod shown;
