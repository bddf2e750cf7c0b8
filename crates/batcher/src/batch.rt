//! A batch of transactions.

ghost use Rattle.std.specs.Prelude.{◌≡◌, ◌↔◌, [], IsTrue, length};
ghost use Rattle.batcher.specs.Cut.{is_barrier_alone, is_batch, groups_of};

use crate::group::Group;
use crate::lent::LentBatch;
use std::marker::Model;
use txn_codec::Txn;

/// Transactions that may be applied together, in groups that have no path in common; or a single barrier, which has no
/// group. Its model is the list of its transactions, which determines the groups.
pub struct Batch {
    txns: Vec<Txn>,
    groups: Vec<Group>,
}

impl Model for Batch {
    ghost use Rattle.std.specs.Prelude.{◌≡◌, List, IsTrue};
    ghost use Rattle.txn_codec.specs.declared.txn.Txn.{Txn};
    ghost use Rattle.batcher.specs.Cut.{is_batch, groups_of};

    ghost Value = { List Txn };

    ghost view = { λ b. b.txns.items };

    ghost invariant = { λ b. (b.groups.items ≡ groups_of b.txns.items)
        × IsTrue (is_batch b.txns.items) };
}

impl Drop for Batch {
    fn drop(self) {
        let Batch { txns, groups } = self;
        drop(txns);
        drop(groups);
    }
}

impl Batch {
    pub(crate) fn new(txns: Vec<Txn>, groups: Vec<Group>) -> Batch
        requires groups { groups.items ≡ groups_of txns.items }
        requires batch { IsTrue (is_batch txns.items) }
        ensures { result ≡ txns.items }
    {
        Batch { txns, groups }
    }

    /// The batch, with its transactions and groups borrowed.
    pub fn lend(&self) -> LentBatch<'_>
        ensures { result ≡ self.now }
    {
        LentBatch::new(self.txns.as_slice(), self.groups.as_slice())
    }

    /// Whether it is a single barrier.
    pub fn is_barrier(&self) -> bool
        ensures { result ≡ is_barrier_alone self.now }
    {
        self.lend().is_barrier()
    }

    /// The transactions, in their order.
    pub fn txns(&self) -> &[Txn]
        ensures txns { result.now ≡ self.now }
        ensures batch { IsTrue (is_batch result.now) }
    {
        self.txns.as_slice()
    }

    /// The groups, in the order in which they were opened.
    pub fn groups(&self) -> &[Group]
        ensures { result.now ≡ groups_of self.now }
    {
        self.groups.as_slice()
    }

    /// The number of transactions.
    pub fn len(&self) -> usize
        ensures { result ≡ length self.now }
    {
        self.txns.len()
    }

    /// Whether there is no transaction.
    pub fn is_empty(&self) -> bool
        ensures { IsTrue result ↔ (self.now ≡ []) }
    {
        self.txns.is_empty()
    }
}
