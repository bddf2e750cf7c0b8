//! Tests of `read_workers`. They are a crate of their own, since a crate with tests is proved twice.
#![tactic(auto)]

#[cfg(test)]
mod readers;
#[cfg(test)]
mod starts;
