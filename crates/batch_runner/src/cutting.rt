//! Transactions that are cut into batches.

use crate::batches::{GROUPS, LENGTH, cut_one, queued};
use crate::tally::Tally;
use anyhow::{Result, ensure};
use batcher::{HashKey, Limits, cut};
use std::alloc::Global;
use std::rt::Clock;
use std::time::Instant;
use txn_codec::Txn;

// Cuts copies of all of them once.
fn cut_once(
    rt: &impl Clock,
    alloc: Global,
    txns: &[Txn],
    limits: &Limits,
    tally: &mut Tally,
) -> Result<()> {
    for front in txns.chunks(LENGTH) {
        let since = Instant::now(rt)?;
        let batch = cut(alloc, HashKey::default(), front, limits)?;
        tally.end_cut(rt, since)?;
        ensure!(batch.len() == front.len(), "a batch is too short");
        tally.count_batch(batch.groups().len());
    }
    Ok(())
}

// Moves all of them out of a queue once.
fn move_once(
    rt: &impl Clock,
    alloc: Global,
    txns: &[Txn],
    limits: &Limits,
    tally: &mut Tally,
) -> Result<()> {
    let mut queue = queued(alloc, txns)?;
    for _ in txns.chunks(LENGTH) {
        cut_one(rt, alloc, &mut queue, limits, tally)?;
    }
    Ok(())
}

/// Cuts copies of the transactions into batches, this many times.
pub fn cut_all(rt: &impl Clock, alloc: Global, txns: &[Txn], times: u32) -> Result<Tally> {
    let limits = Limits::new(1, LENGTH, GROUPS)?;
    let mut tally = Tally::new();
    for _ in 0..times {
        cut_once(rt, alloc, txns, &limits, &mut tally)?;
    }
    Ok(tally)
}

/// Moves the transactions out of a queue into batches, this many times.
pub fn move_all(rt: &impl Clock, alloc: Global, txns: &[Txn], times: u32) -> Result<Tally> {
    let limits = Limits::new(1, LENGTH, GROUPS)?;
    let mut tally = Tally::new();
    for _ in 0..times {
        move_once(rt, alloc, txns, &limits, &mut tally)?;
    }
    Ok(tally)
}
