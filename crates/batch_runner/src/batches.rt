//! Batches that are applied by workers.

use crate::making::tree;
use crate::tally::Tally;
use anyhow::{Result, ensure};
use apply_workers::{OpenGate, apply_batch};
use batcher::{Batch, HashKey, Limits, cut_front};
use data_tree::Tree;
use std::alloc::Global;
use std::collections::VecDeque;
use std::rt::Clock;
use std::thread::Threads;
use std::time::Instant;
use txn_codec::Txn;

/// The most transactions of a batch, by default.
pub const LENGTH: usize = 256;

/// The most groups of a batch.
pub const GROUPS: usize = 256;

/// Copies of the transactions, in a queue.
pub fn queued(alloc: Global, txns: &[Txn]) -> Result<VecDeque<Txn>> {
    let mut queue = VecDeque::new(alloc);
    for txn in txns {
        queue.push_back(txn.clone()?)?;
    }
    Ok(queue)
}

/// Cuts the next batch from the front of the queue, with as many transactions as the limits allow.
pub fn cut_one(
    rt: &impl Clock,
    alloc: Global,
    queue: &mut VecDeque<Txn>,
    limits: &Limits,
    tally: &mut Tally,
) -> Result<Batch> {
    let wanted = queue.len().min(limits.batch());
    let since = Instant::now(rt)?;
    let batch = cut_front(alloc, HashKey::default(), queue, limits)?;
    tally.end_cut(rt, since)?;
    ensure!(batch.len() == wanted, "a batch is too short");
    tally.count_batch(batch.groups().len());
    Ok(batch)
}

fn do_one<R: Threads + Clock + Sync>(
    rt: &R,
    alloc: Global,
    tree: &mut Tree,
    batch: Batch,
    limits: &Limits,
    tally: &mut Tally,
) -> Result<()> {
    let since = Instant::now(rt)?;
    let outcomes = apply_batch(rt, alloc, tree, batch, limits.workers(), &OpenGate)?;
    tally.count_all(outcomes.as_slice());
    drop(outcomes);
    tally.end_work(rt, since)
}

// Cuts and applies all of them once.
fn do_all<R: Threads + Clock + Sync>(
    rt: &R,
    alloc: Global,
    tree: &mut Tree,
    txns: &[Txn],
    limits: &Limits,
    tally: &mut Tally,
) -> Result<()> {
    let mut queue = queued(alloc, txns)?;
    for _ in txns.chunks(limits.batch()) {
        let batch = cut_one(rt, alloc, &mut queue, limits, tally)?;
        do_one(rt, alloc, tree, batch, limits, tally)?;
    }
    Ok(())
}

/// Cuts the transactions into batches within the limits and applies these to a tree, this many times.
pub fn by_workers<R: Threads + Clock + Sync>(
    rt: &R,
    alloc: Global,
    txns: &[Txn],
    times: u32,
    limits: &Limits,
) -> Result<Tally> {
    let mut tally = Tally::new();
    let mut tree = tree(alloc)?;
    for _ in 0..times {
        do_all(rt, alloc, &mut tree, txns, limits, &mut tally)?;
    }
    Ok(tally)
}
