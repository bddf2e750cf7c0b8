//! A log's transactions, each counted as it is applied.

ghost use Rattle.std.specs.Prelude.{◌≡◌, pos, IfOk, IsTrue};
ghost use Rattle.std.specs.Ordering.{int_eq};
ghost use Rattle.data_tree.specs.Meaning.{of_operation, of_parts, effect_of_txn};
ghost use Rattle.audit.specs.Clean.{is_clean_operation, are_clean_parts, is_clean_body, is_clean};
ghost use Rattle.audit.specs.Count.{count_after_triggers};

use crate::clean::{closes_clean, counts_all, is_orderly};
use crate::count::Count;
use data_tree::Tree;
use std::alloc::Global;
use txn_codec::{Body, Operation, Txn, TxnHeader};
use values::NoMemory;

// Applies a transaction and counts its triggers. Returns whether its error is 0; if it isn't, nothing is counted.
fn apply(
    alloc: Global,
    tree: &mut Tree,
    txn: &Txn,
    path: &str,
    count: &mut Count,
) -> Result<bool, NoMemory>
    ensures clean { IfOk result (λ clean. clean ≡ int_eq (effect_of_txn tree.old txn.now).err (pos 0)) }
    ensures state { IfOk result (λ clean. IsTrue clean → tree.new ≡ (effect_of_txn tree.old txn.now).state) }
    ensures count { IfOk result
        (λ clean. IsTrue clean → count.new
        ≡ count_after_triggers path.now count.old txn.now.header.zxid (effect_of_txn tree.old txn.now).triggers) }
{
    let outcome = tree.apply(alloc, txn)?;
    if outcome.results.err != 0 {
        return Ok(false);
    }
    count.add(path, &txn.header, outcome.triggers.as_slice());
    Ok(true)
}

// Applies an operation as a transaction of its own, if it is clean.
fn take_operation(
    alloc: Global,
    tree: &mut Tree,
    header: &TxnHeader,
    operation: &Operation,
    path: &str,
    count: &mut Count,
) -> Result<bool, NoMemory>
    ensures clean { IfOk result (λ clean. clean ≡ is_clean_operation header.now operation.now tree.old) }
    ensures state { IfOk result (λ clean. IsTrue clean
        → tree.new ≡ (of_operation header.now operation.now tree.old).state) }
    ensures count { IfOk result
        (λ clean. IsTrue clean → count.new
        ≡ count_after_triggers path.now count.old header.now.zxid
        (of_operation header.now operation.now tree.old).triggers) }
{
    if !is_orderly(operation, tree) {
        return Ok(false);
    }
    let txn = Txn {
        header: *header,
        body: Body::Single(operation.clone()?),
    };
    apply(alloc, tree, &txn, path, count)
}

// Applies the parts of a multi one after the other, as long as they are clean.
fn take_parts(
    alloc: Global,
    tree: &mut Tree,
    header: &TxnHeader,
    parts: &[Operation],
    path: &str,
    count: &mut Count,
) -> Result<bool, NoMemory>
    ensures clean { IfOk result (λ clean. clean ≡ are_clean_parts header.now parts.now tree.old) }
    ensures state { IfOk result (λ clean. IsTrue clean → tree.new ≡ (of_parts header.now parts.now tree.old).state) }
    ensures count { IfOk result
        (λ clean. IsTrue clean → count.new
        ≡ count_after_triggers path.now count.old header.now.zxid
        (of_parts header.now parts.now tree.old).triggers) }
{
    for part in parts {
        if part.error().is_some() {
            return Ok(false);
        }
        if !take_operation(alloc, tree, header, part, path, count)? {
            return Ok(false);
        }
    }
    Ok(true)
}

// Applies a transaction and counts its triggers, if its body is clean.
fn take_body(
    alloc: Global,
    tree: &mut Tree,
    txn: &Txn,
    path: &str,
    count: &mut Count,
) -> Result<bool, NoMemory>
    ensures clean { IfOk result (λ clean. clean ≡ is_clean_body txn.now.header txn.now.body tree.old) }
    ensures state { IfOk result (λ clean. IsTrue clean → tree.new ≡ (effect_of_txn tree.old txn.now).state) }
    ensures count { IfOk result
        (λ clean. IsTrue clean → count.new
        ≡ count_after_triggers path.now count.old txn.now.header.zxid (effect_of_txn tree.old txn.now).triggers) }
{
    match &txn.body {
        Body::Single(operation) => take_operation(alloc, tree, &txn.header, operation, path, count),
        Body::Multi(parts) => take_parts(alloc, tree, &txn.header, parts.as_slice(), path, count),
        Body::SetAcl(_) | Body::CreateSession(_) => apply(alloc, tree, txn, path, count),
        Body::CloseSession(listed) => {
            if !listed.as_slice().is_empty() || !closes_clean(&txn.header, tree) {
                return Ok(false);
            }
            apply(alloc, tree, txn, path, count)
        }
    }
}

/// Applies a transaction and counts its triggers, if it is clean, and returns whether it is. If it isn't, or an
/// allocation is refused, tree and count are unspecified, and the caller drops them.
pub fn take(
    alloc: Global,
    tree: &mut Tree,
    txn: &Txn,
    path: &str,
    count: &mut Count,
) -> Result<bool, NoMemory>
    ensures clean { IfOk result (λ clean. clean ≡ is_clean tree.old txn.now) }
    ensures state { IfOk result (λ clean. IsTrue clean → tree.new ≡ (effect_of_txn tree.old txn.now).state) }
    ensures count { IfOk result
        (λ clean. IsTrue clean → count.new
        ≡ count_after_triggers path.now count.old txn.now.header.zxid (effect_of_txn tree.old txn.now).triggers) }
{
    if !counts_all(&txn.header) {
        return Ok(false);
    }
    take_body(alloc, tree, txn, path, count)
}
