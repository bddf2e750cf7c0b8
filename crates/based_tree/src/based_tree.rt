//! A tree with its base.

ghost use Rattle.std.specs.Prelude.{◌≡◌, OnOk, IfOk};
ghost use Rattle.std.specs.List.{list_any};
ghost use Rattle.std.specs.Option.{unwrap_or};
ghost use Rattle.txn_codec.specs.Row.{ends_session};
ghost use Rattle.txn_codec.specs.declared.txn.Txn.{Txn as TheTxn};
ghost use Rattle.data_tree.specs.Meaning.{effect_of_txn, answer_of, state_after, outcomes_of_txns};
ghost use Rattle.based_tree.specs.Based.{at_base, AppliesTxns};

use crate::newer::{newest_zxid, remove_newer};
use crate::saved::SavedCells;
use data_tree::{Outcome, Timeouts, Tree};
use std::alloc::Global;
use std::marker::Model;
use txn_codec::Txn;
use values::NoMemory;

/// A tree, and what tells the base that it came from.
pub struct BasedTree {
    tree: Tree,
    saved: SavedCells,
}

impl Model for BasedTree {
    ghost use Rattle.data_tree.specs.contracts.tree.Tree as of_tree;
    ghost use Rattle.based_tree.specs.Based.{BasedTree as TheBasedTree, based_code};
    ghost use Rattle.based_tree.specs.Inner.{base_of};

    ghost Value = { TheBasedTree };

    ghost coded = { based_code of_tree.the_row.coded };

    ghost view = { λ b. record { base = base_of b.saved b.tree; tree = b.tree } };
}

impl Drop for BasedTree {
    fn drop(self) {
        let BasedTree { tree, saved } = self;
        drop(tree);
        drop(saved);
    }
}

// Whether one of the transactions ends a session.
fn ends_a_session(txns: &[Txn]) -> bool
    ensures { result ≡ list_any (λ (t : TheTxn). ends_session t.body) txns.now }
{
    for txn in txns {
        if txn.body.ends_session() {
            return true;
        }
    }
    false
}

// Replaces the sessions of the tree, if there are others.
fn set_sessions_if(tree: &mut Tree, sessions: Option<Timeouts>)
    ensures { tree.new ≡ record tree.old { sessions = unwrap_or sessions tree.old.sessions } }
{
    match sessions {
        None => return,
        Some(sessions) => tree.set_sessions(sessions),
    }
}

impl BasedTree {
    /// The tree is the base. Looks at each node, and allocates nothing.
    pub fn new(alloc: Global, tree: Tree) -> BasedTree
        ensures { result ≡ at_base tree }
    {
        let saved = SavedCells::none(alloc, tree.hash_key(), newest_zxid(&tree));
        BasedTree { tree, saved }
    }

    /// The tree that reads show.
    pub fn tree(&self) -> &Tree
        ensures { result.now ≡ self.now.tree }
    {
        &self.tree
    }

    /// Applies a transaction to the tree and returns its outcome. After a refused allocation the tree and the base are
    /// unspecified, and the caller drops both.
    pub fn apply(&mut self, alloc: Global, txn: &Txn) -> Result<Outcome, NoMemory>
        ensures tree { OnOk result
            (self.new ≡ record self.old { tree = (effect_of_txn self.old.tree txn.now).state }) }
        ensures answer { IfOk result (λ o. o ≡ answer_of (effect_of_txn self.old.tree txn.now)) }
    {
        self.saved.save_for(alloc, &self.tree, txn)?;
        self.tree.apply(alloc, txn)
    }

    // Applies the transactions one after the other.
    fn apply_each(&mut self, alloc: Global, txns: &[Txn]) -> Result<Vec<Outcome>, NoMemory>
        ensures tree { OnOk result
            (self.new ≡ record self.old { tree = state_after self.old.tree txns.now }) }
        ensures outcomes { IfOk result (λ v. v.items ≡ outcomes_of_txns self.old.tree txns.now) }
    {
        let mut outcomes = Vec::with_capacity(alloc, txns.len())?;
        for txn in txns {
            outcomes.push(self.apply(alloc, txn)?)?;
        }
        Ok(outcomes)
    }

    /// Applies transactions to the tree by the closure, and returns their outcomes. If one of them ends a session, they
    /// are applied one after the other, since what it touches depends on those before it.
    ///
    /// Fails if the closure does or if an allocation is refused. Then the tree and the base are unspecified, and the
    /// caller drops both.
    pub fn apply_all<D: Fn(&mut Tree, &[Txn]) -> Result<Vec<Outcome>, NoMemory>>(
        &mut self,
        alloc: Global,
        txns: &[Txn],
        doer: &D,
    ) -> Result<Vec<Outcome>, NoMemory>
        requires { AppliesTxns (D.pre doer.now) (D.post doer.now) }
        ensures tree { OnOk result
            (self.new ≡ record self.old { tree = state_after self.old.tree txns.now }) }
        ensures outcomes { IfOk result (λ v. v.items ≡ outcomes_of_txns self.old.tree txns.now) }
    {
        if ends_a_session(txns) {
            return self.apply_each(alloc, txns);
        }
        self.saved.save_for_each(alloc, &self.tree, txns)?;
        doer(&mut self.tree, txns)
    }

    /// The tree becomes the base. Looks at each node, and allocates nothing.
    pub fn rebase(&mut self, alloc: Global)
        ensures { self.new ≡ at_base self.old.tree }
    {
        self.saved = SavedCells::none(alloc, self.tree.hash_key(), newest_zxid(&self.tree));
    }

    /// The tree becomes what the base is. After a refused allocation both are unspecified, and the caller drops them.
    pub fn go_back(&mut self, alloc: Global) -> Result<(), NoMemory>
        ensures { OnOk result (self.new ≡ at_base self.old.base) }
    {
        remove_newer(alloc, self.saved.newest, &mut self.tree)?;
        let paths = self.saved.ordered_paths(alloc)?;
        self.tree
            .replace_cells(alloc, &paths, &mut self.saved.cells)?;
        set_sessions_if(&mut self.tree, self.saved.sessions.take());
        self.rebase(alloc);
        Ok(())
    }
}
