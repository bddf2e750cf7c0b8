//! Tests of the log: what a queue does with lines, and what is written.
#![tactic(auto)]

#[cfg(test)]
mod queues;
#[cfg(test)]
mod writing;
