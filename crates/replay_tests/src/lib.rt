//! Tests of scripts and of replays, over the public calls of `replay_script` and `replay`.
//!
//! The calls are in helper functions without contracts: a test looks at the result of a call when it runs, so its proof
//! needn't know it.
#![tactic(auto)]

#[cfg(test)]
mod helpers;
#[cfg(test)]
mod replays;
#[cfg(test)]
mod scripts;
