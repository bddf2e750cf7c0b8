//! Transactions that are gathered in the log and applied later, as one list.
//!
//! The law that goes over this: `OneTransaction`.

ghost use Rattle.std.specs.Prelude.{◌≡◌, ◌≤◌, true, length, drop, OnOk, OnErr, IfOk};
ghost use Rattle.data_tree.specs.Meaning.{state_after, outcomes_of_txns};
ghost use Rattle.quorum_packet.specs.Lending.{owned_item};
ghost use Rattle.replica.specs.Gathering.{brings_txns, Gathers, AppliesTxns};

use crate::replica::Replica;
use data_tree::{Outcome, Tree};
use quorum_packet::{LentItem, PacketKind};
use std::alloc::Global;
use txn_codec::Txn;
use values::{NoMemory, ReadError};

/// Whether the item is a packet that may append a transaction to the log and does nothing else: an INFORM, a PROPOSAL
/// or a COMMIT.
pub fn brings_txns(item: &LentItem<'_>) -> bool
    ensures { result ≡ brings_txns (owned_item item.now) }
{
    let LentItem::Packet(packet) = item else {
        return false;
    };
    match PacketKind::from_code(packet.kind()) {
        Some(PacketKind::Inform | PacketKind::Proposal | PacketKind::Commit) => return true,
        _ => return false,
    }
}

impl Replica {
    /// Takes an item that brings transactions, and leaves the tree. What the log gains has to be applied before anybody
    /// looks at the tree, and before another item is taken, see [`Replica::apply_gathered`].
    ///
    /// The faults are those of `Learner::step`. A refused item or a refused allocation leaves the replica as it was.
    pub fn gather(&mut self, alloc: Global, item: LentItem<'_>) -> Result<(), ReadError>
        requires { brings_txns (owned_item item) ≡ true }
        ensures { Gathers result (owned_item item.entry) self.old self.new }
    {
        self.learn(alloc, item)?;
        Ok(())
    }

    /// Applies the log's transactions after the first `done` by the closure, and returns their outcomes. Each outcome
    /// has what taking the transaction's item would have brought: its triggers, and the results of `LeaderNews::Applied`.
    ///
    /// Fails if the closure does, or if an allocation is refused. Then the tree and the base are unspecified, and the
    /// caller drops the replica.
    pub fn apply_gathered<D: Fn(&mut Tree, &[Txn]) -> Result<Vec<Outcome>, NoMemory>>(
        &mut self,
        alloc: Global,
        done: usize,
        doer: &D,
    ) -> Result<Vec<Outcome>, NoMemory>
        requires within { done ≤ length self.old.learner.log }
        requires applies { AppliesTxns (D.pre doer.now) (D.post doer.now) }
        ensures tree { OnOk result
            (self.new ≡ record self.old { tree = state_after self.old.tree (drop done self.old.learner.log) }) }
        ensures outcomes { IfOk result (λ v. v.items
            ≡ outcomes_of_txns self.old.tree (drop done self.old.learner.log)) }
        ensures err { OnErr result (self.new.learner ≡ self.old.learner) }
    {
        self.based
            .apply_all(alloc, &self.learner.since_base()[done..], doer)
    }
}
