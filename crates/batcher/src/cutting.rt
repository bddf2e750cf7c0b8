//! Cutting a batch from the front of a list.

ghost use Rattle.std.specs.Prelude.{◌≡◌, ◌≤◌, IfOk, OnOk, OnErr, take, drop, length};
ghost use Rattle.batcher.specs.Cut.{cut};

use crate::batch::Batch;
use crate::front::front_of;
use crate::limits::Limits;
use data_tree::HashKey;
use std::alloc::Global;
use std::collections::VecDeque;
use txn_codec::Txn;
use values::NoMemory;

fn copied(alloc: Global, txns: &[Txn]) -> Result<Vec<Txn>, NoMemory>
    ensures { IfOk result (λ copies. copies.items ≡ txns.now) }
{
    let mut copies = Vec::with_capacity(alloc, txns.len())?;
    for txn in txns {
        copies.push(txn.clone()?)?;
    }
    Ok(copies)
}

// Moves this many transactions out of the front.
fn moved(alloc: Global, txns: &mut VecDeque<Txn>, count: usize) -> Result<Vec<Txn>, NoMemory>
    requires { count ≤ length txns.old.items }
    ensures front { IfOk result (λ front. front.items ≡ take count txns.old.items) }
    ensures rest { OnOk result (txns.new.items ≡ drop count txns.old.items) }
    ensures refused { OnErr result (txns.new.items ≡ txns.old.items) }
{
    let mut front = Vec::with_capacity(alloc, count)?;
    for _ in 0..count {
        let Some(txn) = txns.pop_front() else {
            return Ok(front);
        };
        front.push_reserved(txn);
    }
    Ok(front)
}

/// The batch at the front of the list: the longest prefix that the limits and the groups allow, or a single barrier
/// that begins the list; the empty batch for the empty list. It owns copies of its transactions. The cost of each
/// transaction is its number of paths, however many come before it, unless they collide: the key of the hash by which
/// paths are found is to be one that nobody knows who chooses them. No result depends on it. Fails only if an
/// allocation is refused.
pub fn cut(alloc: Global, key: HashKey, txns: &[Txn], limits: &Limits) -> Result<Batch, NoMemory>
    ensures { IfOk result (λ batch. batch ≡ cut limits.now txns.now) }
{
    let front = front_of(alloc, key, txns, limits)?;
    let copies = copied(alloc, &txns[..front.len()])?;
    Ok(Batch::new(copies, front.into_groups()))
}

/// The same, with the transactions moved out of the front of a queue and not copied. A refused allocation leaves the
/// queue as it was.
pub fn cut_front(
    alloc: Global,
    key: HashKey,
    txns: &mut VecDeque<Txn>,
    limits: &Limits,
) -> Result<Batch, NoMemory>
    ensures batch { IfOk result (λ batch. batch ≡ cut limits.now txns.old.items) }
    ensures rest { IfOk result (λ batch. txns.new.items ≡ drop (length batch) txns.old.items) }
    ensures refused { OnErr result (txns.new.items ≡ txns.old.items) }
{
    let front = front_of(alloc, key, txns.make_contiguous(), limits)?;
    let taken = moved(alloc, txns, front.len())?;
    Ok(Batch::new(taken, front.into_groups()))
}
