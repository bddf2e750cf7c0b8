//! Tests of ports and the desk, over the public calls of `intake`.
//!
//! The calls are in helper functions without contracts: what a test looks at shows when it runs, and its proof would
//! otherwise compute the engine's answer.
#![tactic(auto)]

#[cfg(test)]
mod helpers;
#[cfg(test)]
mod hints;
#[cfg(test)]
mod ports;
#[cfg(test)]
mod turns;
