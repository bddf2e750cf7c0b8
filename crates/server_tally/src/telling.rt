//! What a tally tells a monitoring system.

use crate::tally::Tally;
use server_metrics::{Health, MetricsReport, health_of, is_live, put_metrics};
use std::alloc::Global;
use std::sync::atomic::Ordering;
use std::time::Clock;
use values::NoMemory;

impl Tally {
    // The microseconds since the leader was last heard.
    fn silence<T: Clock>(&self, rt: &T) -> u64 {
        let heard = self.heard.load(Ordering::SeqCst);
        self.microseconds(rt).saturating_sub(heard)
    }

    /// The text of all metrics. `memory` is what the process has, in bytes, if that is known.
    pub fn metrics<T: Clock>(
        &self,
        rt: &T,
        alloc: Global,
        memory: Option<u64>,
    ) -> Result<Vec<u8>, NoMemory> {
        let report = MetricsReport {
            figures: self.figures(rt),
            transactions: self.transactions.load(Ordering::SeqCst),
            log: self.log.load(Ordering::SeqCst),
            silence: self.silence(rt),
            memory,
            answers: self.answers.times(alloc)?,
            turns: self.turns.times(alloc)?,
        };
        let mut text = Vec::new(alloc);
        put_metrics(&mut text, &report)?;
        Ok(text)
    }

    /// Whether the server is healthy, whose leader may be silent for so many milliseconds.
    pub fn health<T: Clock>(&self, rt: &T, limit: u64) -> Health {
        health_of(&self.figures(rt), self.silence(rt), limit)
    }

    /// Whether the engine made a turn in the last ten seconds.
    pub fn is_live<T: Clock>(&self, rt: &T) -> bool {
        let turned = self.turned.load(Ordering::SeqCst);
        is_live(self.microseconds(rt).saturating_sub(turned))
    }
}
