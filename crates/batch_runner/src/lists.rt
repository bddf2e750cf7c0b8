//! Lists of transactions that stay where they are.

use crate::making::tree;
use crate::tally::Tally;
use anyhow::{Result, ensure};
use apply_workers::{OpenGate, apply_list, apply_list_inline};
use batcher::{Limits, SpreadThreshold};
use std::alloc::Global;
use std::rt::Clock;
use std::thread::Threads;
use std::time::Instant;
use txn_codec::Txn;

/// Applies the transactions to a tree in lists of this length, one after the other, this many times.
pub fn lists_inline(
    rt: &impl Clock,
    alloc: Global,
    txns: &[Txn],
    times: u32,
    length: usize,
) -> Result<Tally> {
    ensure!(length > 0, "a list is empty");
    let mut tally = Tally::new();
    let mut tree = tree(alloc)?;
    for _ in 0..times {
        for list in txns.chunks(length) {
            let since = Instant::now(rt)?;
            let outcomes = apply_list_inline(alloc, &mut tree, list)?;
            tally.count_all(outcomes.as_slice());
            drop(outcomes);
            tally.end_work(rt, since)?;
        }
    }
    Ok(tally)
}

/// The same, with each list cut into batches within the limits and applied by workers, however little work it is.
pub fn lists_by_workers<R: Threads + Clock + Sync>(
    rt: &R,
    alloc: Global,
    txns: &[Txn],
    times: u32,
    length: usize,
    limits: &Limits,
) -> Result<Tally> {
    ensure!(length > 0, "a list is empty");
    let always = SpreadThreshold::ALWAYS;
    let mut tally = Tally::new();
    let mut tree = tree(alloc)?;
    for _ in 0..times {
        for list in txns.chunks(length) {
            let since = Instant::now(rt)?;
            let outcomes = apply_list(rt, alloc, &mut tree, list, limits, &always, &OpenGate)?;
            tally.count_all(outcomes.as_slice());
            drop(outcomes);
            tally.end_work(rt, since)?;
        }
    }
    Ok(tally)
}
