//! Counts and times.

use anyhow::Result;
use data_tree::Outcome;
use std::rt::Clock;
use std::time::{Duration, Instant};

/// What was done, and the time that it took.
#[derive(Clone, Copy)]
pub struct Tally {
    /// The number of transactions that were cut or applied, or of works that were claimed.
    pub done: u64,
    /// The number of transactions whose outcome is an error.
    pub errors: u64,
    pub batches: u64,
    /// The number of groups in the batches.
    pub groups: u64,
    /// The time spent on cutting batches.
    pub cut: Duration,
    /// The time spent on applying transactions or on works.
    pub worked: Duration,
}

impl Tally {
    /// All counts and times are 0.
    pub fn new() -> Tally {
        Tally {
            done: 0,
            errors: 0,
            batches: 0,
            groups: 0,
            cut: Duration::ZERO,
            worked: Duration::ZERO,
        }
    }

    /// Counts an outcome with this error.
    pub fn count(&mut self, err: i32) {
        self.done = self.done.saturating_add(1);
        if err != 0 {
            self.errors = self.errors.saturating_add(1);
        }
    }

    /// Counts outcomes.
    pub fn count_all(&mut self, outcomes: &[Outcome]) {
        for outcome in outcomes {
            self.count(outcome.results.err);
        }
    }

    /// Counts a batch with this many groups.
    pub fn count_batch(&mut self, groups: usize) {
        self.batches = self.batches.saturating_add(1);
        self.groups = self.groups.saturating_add(groups as u64);
    }

    /// Adds the time since `since` to the time spent on cutting.
    pub fn end_cut(&mut self, clock: &impl Clock, since: Instant) -> Result<()> {
        self.cut = self.cut.saturating_add(since.elapsed(clock)?);
        Ok(())
    }

    /// Adds the time since `since` to the time spent on work.
    pub fn end_work(&mut self, clock: &impl Clock, since: Instant) -> Result<()> {
        self.worked = self.worked.saturating_add(since.elapsed(clock)?);
        Ok(())
    }
}
