//! The largest batch, whose groups are delayed into an order.

use crate::words::{answers, tree_behind};
use apply_workers::{Gate, apply_batch};
use batcher::{Batch, HashKey, Limits, cut};
use batcher_tests::read_txn;
use data_tree::Tree;
use std::alloc::Global;
use std::sync::atomic::{AtomicU64, Ordering};
use std::test::Fail;
use std::thread::Threads;
use txn_codec::Txn;

const GROUPS: u64 = 256;

const OF_EACH: u64 = 16;

const WORKERS: usize = 8;

const MOST_TURNS: u64 = 1_000_000_000;

// Lets the groups pass in ascending order, or the greatest one first of each eight, which is the number of groups that
// the workers hold at a time. Notes whether a group waited in vain.
#[derive(Drop)]
struct InOrder {
    greater_first: bool,
    // The group that passed last.
    last: AtomicU64,
    missed: AtomicU64,
}

impl InOrder {
    // The group that has to pass before this one, if there is one.
    fn before(&self, group: u64) -> Option<u64> {
        if !self.greater_first {
            return group.checked_sub(1);
        }
        if group % 8 == 7 {
            return None;
        }
        group.checked_add(1)
    }

    // Whether the group has passed last, or does so while this waits. Once a group was missed none is waited for.
    fn has_passed(&self, group: u64) -> bool {
        for _ in 0..MOST_TURNS {
            if self.last.load(Ordering::SeqCst) == group {
                return true;
            }
            if self.missed.load(Ordering::SeqCst) != 0 {
                return false;
            }
        }
        false
    }
}

impl Gate for InOrder {
    fn pass(&self, _worker: usize, group: usize) {
        let group = group as u64;
        if let Some(before) = self.before(group) {
            if !self.has_passed(before) {
                self.missed.store(1, Ordering::SeqCst);
            }
        }
        self.last.store(group, Ordering::SeqCst);
    }
}

// Creates a node for each group.
fn make_parents(alloc: Global, tree: &mut Tree) -> Result<(), Fail> {
    for group in 0..GROUPS {
        let txn = read_txn(alloc, format!(in alloc; "/{group}")?.as_str())?;
        tree.apply(alloc, &txn)?;
    }
    Ok(())
}

// A tree of these nodes.
fn parents(alloc: Global) -> Result<Tree, Fail> {
    let mut tree = tree_behind(alloc, "")?;
    make_parents(alloc, &mut tree)?;
    Ok(tree)
}

// Transactions that create a child of each of these nodes, then another of each, and so on.
fn children(alloc: Global) -> Result<Vec<Txn>, Fail> {
    let mut txns = Vec::new(alloc);
    for child in 0..OF_EACH {
        for group in 0..GROUPS {
            txns.push(read_txn(alloc, format!(in alloc; "/{group}/{child}")?.as_str())?)?;
        }
    }
    Ok(txns)
}

// These transactions as one batch.
fn largest(alloc: Global) -> Result<Batch, Fail> {
    let txns = children(alloc)?;
    let limits = Limits::new(WORKERS, 4096, 256)?;
    Ok(cut(alloc, HashKey::default(), txns.as_slice(), &limits)?)
}

// Whether a group waited in vain while the workers applied the batch; the number of its groups and transactions; the
// number of nodes afterwards; and the outcomes.
fn held_in<R: Threads + Sync>(
    rt: &R,
    alloc: Global,
    tree: &mut Tree,
    greater_first: bool,
) -> Result<String, Fail> {
    let batch = largest(alloc)?;
    let (groups, size) = (batch.groups().len(), batch.len());
    let gate = InOrder {
        greater_first,
        last: AtomicU64::new(u64::MAX),
        missed: AtomicU64::new(0),
    };
    let outcomes = apply_batch(rt, alloc, tree, batch, WORKERS, &gate)?;
    let answered = answers(alloc, outcomes.as_slice())?;
    let missed = gate.missed.load(Ordering::SeqCst);
    let nodes = tree.paths();
    Ok(format!(in alloc; "{missed} {groups} {size} {nodes} {answered}")?)
}

fn held<R: Threads + Sync>(rt: &R, alloc: Global, greater_first: bool) -> Result<String, Fail> {
    let mut tree = parents(alloc)?;
    held_in(rt, alloc, &mut tree, greater_first)
}

// No group waited in vain, and each create has no error, creates its node and changes its parent's children.
fn wanted(alloc: Global) -> Result<String, Fail> {
    let mut text = String::from_str(alloc, "0 256 4096 4355 ")?;
    for child in 0..OF_EACH {
        for group in 0..GROUPS {
            text.push_str(format!(in alloc; "0+/{group}/{child}~/{group};")?.as_str())?;
        }
    }
    Ok(text)
}

#[test]
fn held_groups_change_no_answer(rt: HostRuntime) -> Result<(), Fail> {
    let alloc = rt.alloc();
    let wanted = wanted(alloc)?;
    assert!(rt; held(&rt, alloc, true)?.as_str() == wanted.as_str());
    assert!(rt; held(&rt, alloc, false)?.as_str() == wanted.as_str());
    Ok(())
}
