//! Tests of `client_records`. They are a crate of their own, since a crate with tests is proved twice.
#![tactic(auto)]

#[cfg(test)]
mod helpers;
#[cfg(test)]
mod kinds;
#[cfg(test)]
mod later;
#[cfg(test)]
mod lists;
#[cfg(test)]
mod requests;
#[cfg(test)]
mod responses;
