//! Tests of `client_frames`. They are a crate of their own, since a crate with tests is proved twice. The calls are in
//! functions without contracts, so that a test's own proof is short.
#![tactic(auto)]

#[cfg(test)]
mod calls;
#[cfg(test)]
mod connects;
#[cfg(test)]
mod helpers;
#[cfg(test)]
mod later;
