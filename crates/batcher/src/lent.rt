//! A batch that is lent.

ghost use Rattle.std.specs.Prelude.{◌≡◌, ◌↔◌, [], IsTrue, length};
ghost use Rattle.batcher.specs.Cut.{is_barrier_alone, is_batch, groups_of};

use crate::group::Group;
use std::marker::Model;
use txn_codec::Txn;

/// A batch whose transactions and groups are owned elsewhere. Its model is the list of its transactions, as a
/// [`Batch`](crate::Batch)'s is.
#[derive(Drop)]
pub struct LentBatch<'a> {
    txns: &'a [Txn],
    groups: &'a [Group],
}

impl<'a> Model for LentBatch<'a> {
    ghost use Rattle.std.specs.Prelude.{◌≡◌, List, IsTrue};
    ghost use Rattle.txn_codec.specs.declared.txn.Txn.{Txn};
    ghost use Rattle.batcher.specs.Cut.{is_batch, groups_of};

    ghost Value = { List Txn };

    ghost view = { λ b. b.txns.now };

    ghost invariant = { λ b. (b.groups.now ≡ groups_of b.txns.now)
        × IsTrue (is_batch b.txns.now) };
}

impl<'a> LentBatch<'a> {
    pub(crate) fn new(txns: &'a [Txn], groups: &'a [Group]) -> LentBatch<'a>
        requires groups { groups.now ≡ groups_of txns.now }
        requires batch { IsTrue (is_batch txns.now) }
        ensures { result ≡ txns.now }
    {
        LentBatch { txns, groups }
    }

    /// The transactions, in their order.
    pub fn txns(&self) -> &'a [Txn]
        ensures txns { result.now ≡ self.now }
        ensures batch { IsTrue (is_batch result.now) }
    {
        self.txns
    }

    /// Whether it is a single barrier.
    pub fn is_barrier(&self) -> bool
        ensures { result ≡ is_barrier_alone self.now }
    {
        self.groups.is_empty() && !self.txns.is_empty()
    }

    /// The groups, in the order in which they were opened.
    pub fn groups(&self) -> &'a [Group]
        ensures groups { result.now ≡ groups_of self.now }
        ensures batch { IsTrue (is_batch self.now) }
    {
        self.groups
    }
}
