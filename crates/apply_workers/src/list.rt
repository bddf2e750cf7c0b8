//! A list of transactions, applied one after the other or in batches.
ghost use Rattle.std.specs.Prelude.{◌≡◌, ◌++◌, IfOk, OnOk};
ghost use Rattle.data_tree.specs.Meaning.{state_after, outcomes_of_txns};
ghost use Rattle.apply_workers.specs.Inner.{IsNextBatch};

use crate::batch::apply_lent;
use crate::gate::Gate;
use crate::starts::AllStart;
use crate::work_size::is_worth_spreading;
use batcher::{Front, LentBatch, Limits, SpreadThreshold, front_of};
use data_tree::{HashKey, Outcome, Tree};
use std::alloc::Global;
use std::thread::{Threads, join_mut};
use txn_codec::Txn;
use values::NoMemory;

// Applies the transactions to the tree, one after the other, and appends their outcomes.
fn apply_onto(
    alloc: Global,
    tree: &mut Tree,
    txns: &[Txn],
    outcomes: &mut Vec<Outcome>,
) -> Result<(), NoMemory>
    ensures tree { OnOk result (tree.new ≡ state_after tree.old txns.now) }
    ensures outcomes { OnOk result
        (outcomes.new.items ≡ outcomes.old.items ++ outcomes_of_txns tree.old txns.now) }
{
    for txn in txns {
        outcomes.push(tree.apply(alloc, txn)?)?;
    }
    Ok(())
}

/// Applies the transactions to the tree, one after the other, and returns their outcomes. A refused allocation leaves
/// the tree unspecified, and the caller drops it.
pub fn apply_list_inline(
    alloc: Global,
    tree: &mut Tree,
    txns: &[Txn],
) -> Result<Vec<Outcome>, NoMemory>
    ensures tree { OnOk result (tree.new ≡ state_after tree.old txns.now) }
    ensures outcomes { IfOk result (λ v. v.items ≡ outcomes_of_txns tree.old txns.now) }
{
    let mut outcomes = Vec::with_capacity(alloc, txns.len())?;
    apply_onto(alloc, tree, txns, &mut outcomes)?;
    Ok(outcomes)
}

// The batch at the front of the list, or none where its next transactions aren't worth threads. Paths are found by a
// hash with this key.
fn next_batch(
    alloc: Global,
    key: HashKey,
    txns: &[Txn],
    limits: &Limits,
    threshold: &SpreadThreshold,
) -> Result<Option<Front>, NoMemory>
    ensures { IfOk result (λ next. IsNextBatch limits.now next txns.now) }
{
    let (next, _) = txns.split_at(limits.batch().min(txns.len()));
    if next.is_empty() || limits.workers() <= 1 || !is_worth_spreading(next, threshold) {
        return Ok(None);
    }
    Ok(Some(front_of(alloc, key, txns, limits)?))
}

// Applies the batch by workers and appends its outcomes. Meanwhile one more thread cuts the batch after it.
fn spread_onto<G: Gate + Sync, R: Threads + Sync>(
    rt: &R,
    alloc: Global,
    tree: &mut Tree,
    batch: &LentBatch<'_>,
    later: &[Txn],
    limits: &Limits,
    threshold: &SpreadThreshold,
    gate: &G,
    outcomes: &mut Vec<Outcome>,
) -> Result<Option<Front>, NoMemory>
    ensures tree { OnOk result (tree.new ≡ state_after tree.old batch.now) }
    ensures outcomes { OnOk result
        (outcomes.new.items ≡ outcomes.old.items ++ outcomes_of_txns tree.old batch.now) }
    ensures next { IfOk result (λ next. IsNextBatch limits.now next later.now) }
{
    let key = tree.hash_key();
    let mut cut = || next_batch(alloc, key, later, limits, threshold);
    let mut apply = || apply_lent(rt, alloc, tree, batch, limits.workers(), gate, &AllStart);
    let (next, answered) = if later.is_empty() {
        (Ok(None), apply())
    } else {
        join_mut(rt, &mut cut, &mut apply)
    };
    outcomes.append(&mut answered?)?;
    next
}

/// Applies the transactions in batches within the limits, each as [`apply_batch`](crate::apply_batch) does, and returns
/// the outcomes in their order. Tree and outcomes are those of applying the transactions one after the other. While
/// the workers apply a batch, one more thread cuts the one after it. Where the next `limits.batch()` transactions are
/// less work than the threshold, and everywhere if there is one worker, no batch is made of them: they are applied to
/// the tree itself, and pass no gate. A refused allocation leaves the tree unspecified, and the caller drops it.
pub fn apply_list<G: Gate + Sync, R: Threads + Sync>(
    rt: &R,
    alloc: Global,
    tree: &mut Tree,
    txns: &[Txn],
    limits: &Limits,
    threshold: &SpreadThreshold,
    gate: &G,
) -> Result<Vec<Outcome>, NoMemory>
    ensures tree { OnOk result (tree.new ≡ state_after tree.old txns.now) }
    ensures outcomes { IfOk result (λ v. v.items ≡ outcomes_of_txns tree.old txns.now) }
{
    let mut outcomes = Vec::with_capacity(alloc, txns.len())?;
    let mut rest = txns;
    let key = tree.hash_key();
    let mut next = next_batch(alloc, key, rest, limits, threshold)?;
    while !rest.is_empty() {
        match next {
            None => {
                let (front, later) = rest.split_at(limits.batch().min(rest.len()));
                apply_onto(alloc, tree, front, &mut outcomes)?;
                next = next_batch(alloc, key, later, limits, threshold)?;
                rest = later;
            }
            Some(front) => {
                let (_, later) = rest.split_at(front.len());
                let batch = front.lend(rest);
                next = spread_onto(
                    rt,
                    alloc,
                    tree,
                    &batch,
                    later,
                    limits,
                    threshold,
                    gate,
                    &mut outcomes,
                )?;
                rest = later;
            }
        }
    }
    Ok(outcomes)
}
