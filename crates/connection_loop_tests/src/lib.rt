//! Tests of the loops of connections, over streams in memory: each read and write fails in turn, and streams end or are
//! slow where it tells. And the pieces in which a client's frames go on.
//!
//! The hub of a loop makes its turns while the loop reads or rests (`streams.rt`), so there is one thread, and each run
//! is the same.
#![tactic(auto)]

#[cfg(test)]
mod clients;
#[cfg(test)]
mod leaders;
#[cfg(test)]
mod others;
#[cfg(test)]
mod pieces;
#[cfg(test)]
mod played;
#[cfg(test)]
mod rows;
#[cfg(test)]
mod seen;
#[cfg(test)]
mod streams;
