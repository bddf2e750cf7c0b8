//! Tests of batches that are applied by workers, over public calls alone. They are a crate of their own, since a crate
//! with tests is proved twice. The calls are in functions without contracts, so that a test's own proof is short.
#![tactic(auto)]

#[cfg(test)]
mod batches;
#[cfg(test)]
mod large;
#[cfg(test)]
mod lists;
#[cfg(test)]
mod refusals;
#[cfg(test)]
mod schedules;
#[cfg(test)]
mod threads;
#[cfg(test)]
mod words;
