//! Transactions that are applied one after the other.

use crate::batches::{LENGTH, queued};
use crate::making::tree;
use crate::tally::Tally;
use anyhow::Result;
use data_tree::Tree;
use std::alloc::Global;
use std::collections::VecDeque;
use std::rt::Clock;
use std::time::Instant;
use txn_codec::Txn;

// Applies all of them once, and keeps them.
fn apply_lent(alloc: Global, tree: &mut Tree, txns: &[Txn], tally: &mut Tally) -> Result<()> {
    for txn in txns {
        let outcome = tree.apply(alloc, txn)?;
        tally.count(outcome.results.err);
    }
    Ok(())
}

// Applies all of them, and drops each.
fn apply_moved(
    alloc: Global,
    tree: &mut Tree,
    mut queue: VecDeque<Txn>,
    tally: &mut Tally,
) -> Result<()> {
    for _ in 0..queue.len() {
        let Some(txn) = queue.pop_front() else {
            break;
        };
        let outcome = tree.apply(alloc, &txn)?;
        tally.count(outcome.results.err);
    }
    Ok(())
}

/// Applies the transactions to a tree, this many times; they are borrowed.
pub fn each_lent(rt: &impl Clock, alloc: Global, txns: &[Txn], times: u32) -> Result<Tally> {
    let mut tally = Tally::new();
    let mut tree = tree(alloc)?;
    for _ in 0..times {
        let since = Instant::now(rt)?;
        apply_lent(alloc, &mut tree, txns, &mut tally)?;
        tally.end_work(rt, since)?;
    }
    Ok(tally)
}

/// Applies copies of the transactions to a tree, this many times; they are moved out of a queue, as a batch is.
pub fn each_moved(rt: &impl Clock, alloc: Global, txns: &[Txn], times: u32) -> Result<Tally> {
    let mut tally = Tally::new();
    let mut tree = tree(alloc)?;
    for _ in 0..times {
        let queue = queued(alloc, txns)?;
        let since = Instant::now(rt)?;
        apply_moved(alloc, &mut tree, queue, &mut tally)?;
        tally.end_work(rt, since)?;
    }
    Ok(tally)
}

// Applies as many of them as a batch has, and then drops these together with their outcomes.
fn apply_kept(
    alloc: Global,
    tree: &mut Tree,
    queue: &mut VecDeque<Txn>,
    tally: &mut Tally,
) -> Result<()> {
    let mut txns = Vec::with_capacity(alloc, LENGTH)?;
    let mut outcomes = Vec::with_capacity(alloc, LENGTH)?;
    for _ in 0..LENGTH {
        let Some(txn) = queue.pop_front() else {
            break;
        };
        outcomes.push(tree.apply(alloc, &txn)?)?;
        txns.push(txn)?;
    }
    tally.count_all(outcomes.as_slice());
    Ok(())
}

// Applies all of them once.
fn keep_once(
    rt: &impl Clock,
    alloc: Global,
    tree: &mut Tree,
    txns: &[Txn],
    tally: &mut Tally,
) -> Result<()> {
    let mut queue = queued(alloc, txns)?;
    let since = Instant::now(rt)?;
    for _ in txns.chunks(LENGTH) {
        apply_kept(alloc, tree, &mut queue, tally)?;
    }
    tally.end_work(rt, since)
}

/// Applies copies of the transactions to a tree, this many times; as many as a batch has are kept, with their outcomes.
pub fn each_kept(rt: &impl Clock, alloc: Global, txns: &[Txn], times: u32) -> Result<Tally> {
    let mut tally = Tally::new();
    let mut tree = tree(alloc)?;
    for _ in 0..times {
        keep_once(rt, alloc, &mut tree, txns, &mut tally)?;
    }
    Ok(tally)
}
