//! The audit of a log.

ghost use Rattle.std.specs.Prelude.{◌≡◌};
ghost use Rattle.data_tree.specs.Meaning.{fresh_state};
ghost use Rattle.audit.specs.Audit.{IsAudited};
ghost use Rattle.audit.specs.declared.audit.AuditError.TheVariants as audit_errors;

use crate::count::first_count;
use crate::taking::take;
use data_tree::Tree;
use std::alloc::Global;
use txn_codec::Txn;
use values::NoMemory;

/// The reason why a log has no count.
#[derive(Clone, Copy, Debug, PartialEq, Eq)]
pub enum AuditError {
    /// The index of the first transaction that isn't clean, counted from 0.
    NotClean(usize),
    /// An allocation was refused.
    NoMemory,
}

impl From<NoMemory> for AuditError {
    ghost from_gives = { λ _ e. e ≡ audit_errors.NoMemory };

    fn from(_e: NoMemory) -> AuditError {
        AuditError::NoMemory
    }
}

// Counts in a fresh tree. The caller drops it, at its single end.
fn count_in(
    alloc: Global,
    tree: &mut Tree,
    log: &[Txn],
    path: &str,
) -> Result<Option<(i32, i64)>, AuditError>
    requires { tree.old ≡ fresh_state }
    ensures { IsAudited log.now path.now result }
{
    let mut count = first_count(path);
    for (i, txn) in log.iter().enumerate() {
        if !take(alloc, tree, txn, path, &mut count)? {
            return Err(AuditError::NotClean(i));
        }
    }
    match tree.node(path) {
        None => Ok(None),
        Some(_) => Ok(Some((count.cversion, count.pzxid))),
    }
}

/// Counts the children of the node at the path that a clean log created and deleted since the node was created, as a
/// Java int, and returns the count with the zxid of the last of these transactions, or of the one that created the
/// node. Returns None if the log leaves no node at the path, or the text isn't a path.
///
/// Fails with [`AuditError::NotClean`] if the log isn't clean, and with [`AuditError::NoMemory`] if an allocation is
/// refused.
pub fn audit_stat(alloc: Global, log: &[Txn], path: &str) -> Result<Option<(i32, i64)>, AuditError>
    ensures { IsAudited log.now path.now result }
{
    let mut tree = Tree::fresh(alloc)?;
    count_in(alloc, &mut tree, log, path)
}
