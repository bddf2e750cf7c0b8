//! The front of a list that is cut as a batch.

ghost use Rattle.std.specs.Prelude.{◌≡◌, ◌≢◌, ◌<◌, ◌==◌, [], IfOk, take};
ghost use Rattle.batcher.specs.Cut.{cut};
ghost use Rattle.batcher.specs.Front.{IsFrontOf};

use crate::draft::Draft;
use crate::group::Group;
use crate::lent::LentBatch;
use crate::limits::Limits;
use data_tree::HashKey;
use std::alloc::Global;
use std::marker::Model;
use txn_codec::Txn;
use values::NoMemory;

/// The batch at the front of a list: the number of its transactions, and their groups. The transactions stay in the
/// list.
#[derive(Drop)]
pub struct Front {
    count: usize,
    groups: Vec<Group>,
}

impl Model for Front {
    ghost use Rattle.batcher.specs.Front.{TxnFront, txn_front_code};

    ghost Value = { TxnFront };

    ghost coded = { txn_front_code };

    ghost view = { λ f. record { count = f.count; groups = f.groups.items } };
}

impl Front {
    /// The number of transactions.
    pub fn len(&self) -> usize
        ensures { result ≡ self.now.count }
    {
        self.count
    }

    /// Whether there is no transaction.
    pub fn is_empty(&self) -> bool
        ensures { result ≡ (self.now.count == 0) }
    {
        self.count == 0
    }

    /// The batch at the front of the list.
    pub fn lend<'a>(&'a self, txns: &'a [Txn]) -> LentBatch<'a>
        requires { IsFrontOf self.now txns.now }
        ensures { result ≡ take self.now.count txns.now }
    {
        LentBatch::new(&txns[..self.count], self.groups.as_slice())
    }

    /// The groups, in the order in which they were opened.
    pub(crate) fn into_groups(self) -> Vec<Group>
        ensures { result.items ≡ self.groups }
    {
        self.groups
    }
}

/// The batch at the front of the list, as `cut` cuts it; no transaction is copied. Fails only if an allocation is
/// refused.
pub fn front_of(
    alloc: Global,
    key: HashKey,
    txns: &[Txn],
    limits: &Limits,
) -> Result<Front, NoMemory>
    ensures front { IfOk result (λ front. IsFrontOf front txns.now) }
    ensures cut { IfOk result (λ front. take front.count txns.now ≡ cut limits.now txns.now) }
    ensures some { IfOk result (λ front. txns.now ≢ [] → 0 < front.count) }
{
    let draft = Draft::of_front(alloc, key, txns, limits)?;
    let count = draft.txns.len();
    // With no other before it only a barrier can't be taken, and it is cut alone.
    if count == 0 {
        return Ok(Front {
            count: txns.len().min(1),
            groups: Vec::new(alloc),
        });
    }
    Ok(Front {
        count,
        groups: draft.groups,
    })
}
