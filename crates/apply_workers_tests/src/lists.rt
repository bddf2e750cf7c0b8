//! Lists that are applied in batches.

use crate::words::{CLOSE_SESSION, TWO_GROUPS, ending, tree_behind};
use apply_workers::{Gate, OpenGate, apply_list, apply_list_inline};
use batcher::{Limits, SpreadThreshold};
use batcher_tests::read_txns;
use data_tree::Tree;
use std::alloc::Global;
use std::sync::atomic::{AtomicU64, Ordering};
use std::test::Fail;
use std::thread::Threads;

// The most workers, transactions and groups: a list of three is one batch or several, and is spread or isn't.
const LIMITS: [(usize, usize, usize); 5] = [
    (1, 1, 1),
    (2, 256, 64),
    (64, 4096, 256),
    (2, 1, 1),
    (3, 2, 1),
];

// Counts the groups that pass.
#[derive(Drop)]
struct Passing {
    passed: AtomicU64,
}

impl Gate for Passing {
    fn pass(&self, _worker: usize, _group: usize) {
        self.passed.fetch_add(1, Ordering::SeqCst);
    }
}

fn apply_in<R: Threads + Sync, G: Gate + Sync>(
    rt: &R,
    alloc: Global,
    tree: &mut Tree,
    words: &str,
    limits: &Limits,
    threshold: &SpreadThreshold,
    gate: &G,
) -> Result<String, Fail> {
    let txns = read_txns(alloc, words)?;
    let outcomes = apply_list(rt, alloc, tree, txns.as_slice(), limits, threshold, gate)?;
    ending(alloc, outcomes.as_slice(), tree)
}

// The outcomes and the state of the list of these words, after the words before.
fn in_batches<R: Threads + Sync, G: Gate + Sync>(
    rt: &R,
    alloc: Global,
    (before, words): (&str, &str),
    limits: &Limits,
    threshold: &SpreadThreshold,
    gate: &G,
) -> Result<String, Fail> {
    let mut tree = tree_behind(alloc, before)?;
    apply_in(rt, alloc, &mut tree, words, limits, threshold, gate)
}

fn inline_in(alloc: Global, tree: &mut Tree, words: &str) -> Result<String, Fail> {
    let txns = read_txns(alloc, words)?;
    let outcomes = apply_list_inline(alloc, tree, txns.as_slice())?;
    ending(alloc, outcomes.as_slice(), tree)
}

// The same without batches.
fn inline(alloc: Global, (before, words): (&str, &str)) -> Result<String, Fail> {
    let mut tree = tree_behind(alloc, before)?;
    inline_in(alloc, &mut tree, words)
}

// Whether the list has this ending, within all of the limits and without batches.
fn is_so<R: Threads + Sync>(
    rt: &R,
    alloc: Global,
    words: (&str, &str),
    wanted: &str,
) -> Result<bool, Fail> {
    for (workers, batch, groups) in LIMITS {
        let limits = Limits::new(workers, batch, groups)?;
        let ended = in_batches(
            rt,
            alloc,
            words,
            &limits,
            &SpreadThreshold::ALWAYS,
            &OpenGate,
        )?;
        if ended.as_str() != wanted {
            return Ok(false);
        }
    }
    Ok(inline(alloc, words)?.as_str() == wanted)
}

// The number of groups that pass of those in the first row, if it is done by two workers where it is this much work.
fn passed<R: Threads + Sync>(
    rt: &R,
    alloc: Global,
    transactions: usize,
    bytes: usize,
) -> Result<u64, Fail> {
    let gate = Passing {
        passed: AtomicU64::new(0),
    };
    let limits = Limits::new(2, 256, 64)?;
    let threshold = SpreadThreshold {
        transactions,
        bytes,
        reads: 0,
    };
    let (words, _) = TWO_GROUPS;
    let _ended = in_batches(rt, alloc, words, &limits, &threshold, &gate)?;
    Ok(gate.passed.load(Ordering::SeqCst))
}

#[test]
fn a_list_is_its_transactions_within_all_limits(rt: HostRuntime) -> Result<(), Fail> {
    let alloc = rt.alloc();
    let (words, wanted) = TWO_GROUPS;
    assert!(rt; is_so(&rt, alloc, words, wanted)?);
    let (words, wanted) = CLOSE_SESSION;
    assert!(rt; is_so(&rt, alloc, words, wanted)?);
    Ok(())
}

#[test]
fn work_below_the_threshold_passes_no_gate(rt: HostRuntime) -> Result<(), Fail> {
    let alloc = rt.alloc();
    assert!(rt; passed(&rt, alloc, 0, 0)? == 2);
    assert!(rt; passed(&rt, alloc, 3, 0)? == 2);
    assert!(rt; passed(&rt, alloc, 4, 0)? == 0);
    assert!(rt; passed(&rt, alloc, 0, 1)? == 0);
    Ok(())
}
