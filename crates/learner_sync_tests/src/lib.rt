//! Tests of `learner_sync`, over its public calls. They are a crate of their own, since a crate with tests is proved
//! twice.
#![tactic(auto)]

#[cfg(test)]
mod handshake_rows;
#[cfg(test)]
mod image_rows;
#[cfg(test)]
mod later_rows;
#[cfg(test)]
mod replay_rows;
#[cfg(test)]
mod request_rows;
#[cfg(test)]
mod steps;
