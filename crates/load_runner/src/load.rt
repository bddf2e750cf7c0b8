//! An engine, what it is fed, and counts of what it gives.

use crate::counts::Counts;
use crate::supply::{Step, Supply};
use anyhow::Result;
use apply_workers::OpenGate;
use batcher::{Limits, SpreadThreshold};
use observer_core::{Config, Engine, Event, Output};
use std::alloc::Global;
use std::rt::Clock;
use std::thread::Threads;
use std::time::{Duration, Instant};
use values::Blob;

/// The engine, and what it gave so far.
#[derive(Drop)]
pub struct Load {
    pub engine: Engine,
    pub counts: Counts,
    // The outputs of a step, until they are counted.
    outputs: Vec<Output>,
}

impl Load {
    /// An engine that follows a leader and has one client's connection.
    pub fn new(alloc: Global, limits: Limits, threshold: SpreadThreshold) -> Result<Load> {
        let secret = Blob::from_vec(Vec::new(alloc));
        let config = Config::new(1, 0, 0, 4000, 40_000, secret, limits)?.with_threshold(threshold);
        let engine = Engine::primed(alloc, config)?;
        let counts = Counts {
            replies: 0,
            events: 0,
            packets: 0,
            bytes: 0,
        };
        Ok(Load {
            engine,
            counts,
            outputs: Vec::new(alloc),
        })
    }

    // Counts the outputs of a step, and removes them. At a leader's end clients are closed, which isn't counted.
    fn take_outputs(&mut self, step: Step) -> Result<()> {
        if matches!(step, Step::LeaderEnd) {
            self.outputs.clear();
            return Ok(());
        }
        for output in self.outputs.iter() {
            self.counts.add(output)?;
        }
        self.outputs.clear();
        Ok(())
    }

    /// Feeds the steps one after the other, on the calling thread.
    pub fn play(&mut self, alloc: Global, supply: &Supply, steps: &[Step]) -> Result<()> {
        for step in steps {
            let events = [supply.event(*step)?];
            self.engine.feed_inline(alloc, &events, &mut self.outputs)?;
            self.take_outputs(*step)?;
        }
        Ok(())
    }

    // Feeds events, and returns how long the engine took. `is_spread` says whether it may use its workers.
    fn time_feed<R: Threads + Clock + Sync>(
        &mut self,
        rt: &R,
        alloc: Global,
        events: &[Event<'_>],
        is_spread: bool,
    ) -> Result<Duration> {
        let since = Instant::now(rt)?;
        if is_spread {
            self.engine
                .feed(rt, alloc, events, &OpenGate, &mut self.outputs)?;
        } else {
            self.engine.feed_inline(alloc, events, &mut self.outputs)?;
        }
        Ok(since.elapsed(rt)?)
    }

    /// Feeds the steps of the measured part, and returns how long the engine took for them alone. `is_spread` says
    /// whether it may use its workers.
    pub fn play_spread<R: Threads + Clock + Sync>(
        &mut self,
        rt: &R,
        alloc: Global,
        supply: &Supply,
        is_spread: bool,
    ) -> Result<Duration> {
        let mut took = Duration::ZERO;
        for step in &supply.steps {
            let events = [supply.event(*step)?];
            let more = self.time_feed(rt, alloc, &events, is_spread)?;
            took = took.saturating_add(more);
            self.take_outputs(*step)?;
        }
        Ok(took)
    }
}
