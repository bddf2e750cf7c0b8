//! Tests of `write_replies`. They are a crate of their own, since a crate with tests is proved twice. Calls are in
//! functions without contracts, so that a test's own proof is short.
#![tactic(auto)]

#[cfg(test)]
mod creates;
#[cfg(test)]
mod multis;
#[cfg(test)]
mod others;
#[cfg(test)]
mod replies;
