//! A batch that is applied on threads, or to the tree itself.
ghost use Rattle.std.specs.Prelude.{◌≡◌, ◌↔◌, ◌<◌, ◌≤◌, IfOk, OnOk, IsTrue, Some, slice_get};
ghost use Rattle.data_tree.specs.Meaning.{state_after, outcomes_of_txns};

use crate::crew::run_on;
use crate::gate::Gate;
use crate::home::{all_done, home};
use crate::home_law::groups_come_home;
use crate::starts::{AllStart, Starts};
use crate::taking::{take_each, works};
use batcher::{Batch, Group, LentBatch};
use data_tree::{Outcome, Tree};
use std::alloc::Global;
use std::thread::Threads;
use values::NoMemory;

// Whether the group's first transaction is at the place.
fn begins_at(group: &Group, place: usize) -> bool
    ensures { IsTrue result ↔ (slice_get group.now.members 0 ≡ Some place) }
{
    match group.members().first() {
        None => false,
        Some(first) => *first == place,
    }
}

// Applies a batch to the tree itself. The only worker passes the gate for each group at the group's first transaction,
// so in the order of the groups.
fn apply_alone<G: Gate>(
    alloc: Global,
    tree: &mut Tree,
    batch: &LentBatch<'_>,
    gate: &G,
) -> Result<Vec<Outcome>, NoMemory>
    ensures tree { OnOk result (tree.new ≡ state_after tree.old batch.now) }
    ensures outcomes { IfOk result (λ v. v.items ≡ outcomes_of_txns tree.old batch.now) }
{
    let groups = batch.groups();
    let txns = batch.txns();
    let mut outcomes = Vec::with_capacity(alloc, txns.len())?;
    let mut next = 0;
    for txn in txns {
        if let Some(group) = groups.get(next) {
            if begins_at(group, outcomes.len()) {
                gate.pass(0, next);
                next += 1;
            }
        }
        outcomes.push(tree.apply(alloc, txn)?)?;
    }
    Ok(outcomes)
}

/// Applies a batch as [`apply_batch_on`] does.
pub fn apply_lent<G: Gate + Sync, R: Threads + Sync, S: Starts>(
    rt: &R,
    alloc: Global,
    tree: &mut Tree,
    batch: &LentBatch<'_>,
    workers: usize,
    gate: &G,
    starts: &S,
) -> Result<Vec<Outcome>, NoMemory>
    requires { (1 ≤ workers) × (workers ≤ 64) }
    ensures tree { OnOk result (tree.new ≡ state_after tree.old batch.now) }
    ensures outcomes { IfOk result (λ v. v.items ≡ outcomes_of_txns tree.old batch.now) }
{
    // More workers than groups would have nothing to do.
    let most = workers.min(batch.groups().len());
    if most <= 1 || batch.is_barrier() {
        return apply_alone(alloc, tree, batch, gate);
    }
    groups_come_home();
    let cells = take_each(alloc, tree, batch.groups())?;
    let works = works(alloc, batch, cells)?;
    let groups = run_on(rt, alloc, works, most, gate, starts)?;
    let done = all_done(alloc, groups)?;
    home(alloc, tree, batch, done)
}

/// Applies a batch by up to `workers` workers (1 to 64), each group on its own cells, and returns the outcomes in the
/// order of the transactions. Tree and outcomes are those of applying the transactions one after the other, however
/// many workers there are. It waits for the workers; the first one is the calling thread. With one worker, or one
/// group, the batch is applied to the tree itself. A refused allocation leaves the tree unspecified, and the caller
/// drops it.
pub fn apply_batch<G: Gate + Sync, R: Threads + Sync>(
    rt: &R,
    alloc: Global,
    tree: &mut Tree,
    batch: Batch,
    workers: usize,
    gate: &G,
) -> Result<Vec<Outcome>, NoMemory>
    requires { (1 ≤ workers) × (workers ≤ 64) }
    ensures tree { OnOk result (tree.new ≡ state_after tree.old batch) }
    ensures outcomes { IfOk result (λ v. v.items ≡ outcomes_of_txns tree.old batch) }
{
    apply_batch_on(rt, alloc, tree, batch, workers, gate, &AllStart)
}

/// The same, with only those of the workers' threads started that may be. Whichever these are, tree and outcomes are
/// the same.
pub fn apply_batch_on<G: Gate + Sync, R: Threads + Sync, S: Starts>(
    rt: &R,
    alloc: Global,
    tree: &mut Tree,
    batch: Batch,
    workers: usize,
    gate: &G,
    starts: &S,
) -> Result<Vec<Outcome>, NoMemory>
    requires { (1 ≤ workers) × (workers ≤ 64) }
    ensures tree { OnOk result (tree.new ≡ state_after tree.old batch) }
    ensures outcomes { IfOk result (λ v. v.items ≡ outcomes_of_txns tree.old batch) }
{
    apply_lent(rt, alloc, tree, &batch.lend(), workers, gate, starts)
}
