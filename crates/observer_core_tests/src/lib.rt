//! Tests of the engine, over the public calls of `observer_core`.
//!
//! The calls, the bytes and the laws are in helper functions without contracts: what a test looks at shows when it
//! runs, and its proof would otherwise compute the engine's answer to these bytes. A function that holds an engine or a
//! list has few ends, since each end drops it, and each drop is proved.
#![tactic(auto)]

#[cfg(test)]
mod forwarded;
#[cfg(test)]
mod held;
#[cfg(test)]
mod held_reads;
#[cfg(test)]
mod helpers;
#[cfg(test)]
mod laws;
#[cfg(test)]
mod leader_sessions;
#[cfg(test)]
mod ordered;
#[cfg(test)]
mod played;
#[cfg(test)]
mod rows;
#[cfg(test)]
mod settings_taken;
#[cfg(test)]
mod watched;
