//! The cells of a base where a tree may differ from it.

ghost use Rattle.std.specs.Prelude.{◌≡◌, true, is_some, IsTrue, IfOk, OnOk, None};
ghost use Rattle.std.specs.List.{AllByRecursion};
ghost use Rattle.std.specs.FinSet as set;
ghost use Rattle.paths_and_acls.specs.Paths.{parent_of};
ghost use Rattle.txn_codec.specs.Row.{footprint_of_operation};
ghost use Rattle.data_tree.specs.Cells.{CopiesCell};
ghost use Rattle.data_tree.specs.Footprint.{KeepsToCells};
ghost use Rattle.data_tree.specs.Meaning.{effect_of_txn, state_after, ended_paths};
ghost use Rattle.based_tree.specs.Inner.{base_of, is_saved, without_newer, SavesMore, AreSaved, IsCellReady, AreCellsReady, IsReadyFor, IsReadyForEach, IsSavedFrom, is_ephemeral_owner, is_quiet_operation, deleted_footprint, ended_footprint, listed_in};

use crate::newer::{has_newer, is_newer};
use data_tree::{Cells, Timeouts, Tree};
use ephemerals::TextSet;
use pairs::{HashKey, HashedTexts, TextKey};
use paths_and_acls::{Path, parent_of};
use std::alloc::Global;
use txn_codec::{Body, Operation, Owner, SessionChange, Txn, TxnHeader};
use values::{NoMemory, Str};

/// What a base has where a tree may differ from it, but for the tree's newer nodes.
#[derive(Drop)]
pub struct SavedCells {
    // The paths at which cells are saved.
    pub(crate) paths: HashedTexts,
    // The cells of the base at these paths.
    pub(crate) cells: Cells,
    // The sessions of the base; none while the tree has the same.
    pub(crate) sessions: Option<Timeouts>,
    // No node of the base is newer than this transaction. So the tree's newer nodes aren't those of the base.
    pub(crate) newest: i64,
}

// The paths of the session's ephemeral nodes, and those that are listed.
fn ended_paths(
    alloc: Global,
    tree: &Tree,
    header: &TxnHeader,
    listed: &[Path],
) -> Result<TextSet, NoMemory>
    ensures { IfOk result (λ paths. paths ≡ ended_paths header.now.client_id listed.now tree.now) }
{
    let mut paths = tree.ephemerals().of(alloc, header.client_id)?;
    for path in listed {
        paths.insert(alloc, path.as_str())?;
    }
    Ok(paths)
}

// The paths that the end of a session lists.
fn listed_in(body: &Body) -> &[Path]
    ensures { result.now ≡ listed_in body.now }
{
    match body {
        Body::CloseSession(listed) => listed.as_slice(),
        Body::CreateSession(_) | Body::Single(_) | Body::SetAcl(_) | Body::Multi(_) => &[],
    }
}

// Whether a session owns what is created.
fn is_ephemeral_owner(owner: Owner) -> bool
    ensures { result ≡ is_ephemeral_owner owner }
{
    match owner {
        Owner::Client => true,
        Owner::Nobody | Owner::Container | Owner::Ttl(_) => false,
    }
}

impl SavedCells {
    /// Nothing is saved: the base is the tree, in which no node is newer than this zxid. Allocates nothing.
    pub(crate) fn none(alloc: Global, key: HashKey, newest: i64) -> SavedCells
        ensures paths { result.paths ≡ set.empty }
        ensures sessions { result.sessions ≡ None }
        ensures newest { result.newest ≡ newest }
    {
        SavedCells {
            paths: HashedTexts::keyed(alloc, key),
            cells: Cells::none(alloc, key),
            sessions: None,
            newest,
        }
    }

    /// The paths in ascending order.
    pub(crate) fn ordered_paths(&self, alloc: Global) -> Result<TextSet, NoMemory>
        ensures { IfOk result (λ paths. paths ≡ self.now.paths) }
    {
        TextSet::from_keys(alloc, self.paths.as_slice())
    }

    // Adds a copy of what the base has at the path, which isn't saved yet.
    fn copy_cell(&mut self, alloc: Global, tree: &Tree, path: &str) -> Result<(), NoMemory>
        ensures paths { self.new.paths ≡ self.old.paths }
        ensures sessions { self.new.sessions ≡ self.old.sessions }
        ensures newest { self.new.newest ≡ self.old.newest }
        ensures copied { OnOk result
            (CopiesCell path.now (without_newer self.old.newest tree.now) self.old.cells self.new.cells) }
    {
        if has_newer(self.newest, tree, path) {
            return self.cells.copy_owners(alloc, tree, path);
        }
        self.cells.copy_cell(alloc, tree, path)
    }

    /// Saves the base's cell at the path, if it isn't saved yet.
    pub(crate) fn save(&mut self, alloc: Global, tree: &Tree, path: &str) -> Result<(), NoMemory>
        ensures more { OnOk result (SavesMore tree.now self.old self.new) }
        ensures here { OnOk result (is_saved self.new path.now ≡ true) }
    {
        if self.paths.contains(path) {
            return Ok(());
        }
        self.paths.insert(TextKey::new(alloc, path)?)?;
        self.copy_cell(alloc, tree, path)
    }

    // Whether a transaction may leave a node at the path, since the base has none there unless it is saved.
    fn is_ready(&self, tree: &Tree, zxid: i64, path: &str) -> bool
        ensures { IsTrue result → IsCellReady true zxid self.now tree.now path.now }
    {
        if zxid <= self.newest {
            return false;
        }
        match tree.node(path) {
            None => true,
            Some(node) => is_newer(self.newest, node),
        }
    }

    // Saves the base's cell at the path, unless a create without a session, or a setData, leaves the base as it is.
    fn make_ready(
        &mut self,
        alloc: Global,
        tree: &Tree,
        zxid: i64,
        path: &str,
    ) -> Result<(), NoMemory>
        ensures more { OnOk result (SavesMore tree.now self.old self.new) }
        ensures here { OnOk result (IsCellReady true zxid self.new tree.now path.now) }
    {
        if self.is_ready(tree, zxid, path) {
            return Ok(());
        }
        self.save(alloc, tree, path)
    }

    // The same at the path and at its parent.
    fn make_ready_with_parent(
        &mut self,
        alloc: Global,
        tree: &Tree,
        zxid: i64,
        path: &str,
    ) -> Result<(), NoMemory>
        ensures more { OnOk result (SavesMore tree.now self.old self.new) }
        ensures path { OnOk result (IsCellReady true zxid self.new tree.now path.now) }
        ensures parent { OnOk result (IsCellReady true zxid self.new tree.now (parent_of path.now)) }
    {
        self.make_ready(alloc, tree, zxid, path)?;
        self.make_ready(alloc, tree, zxid, parent_of(path))
    }

    /// Saves the base's cells at these paths.
    pub(crate) fn save_all(
        &mut self,
        alloc: Global,
        tree: &Tree,
        paths: &[Str<'_>],
    ) -> Result<(), NoMemory>
        ensures more { OnOk result (SavesMore tree.now self.old self.new) }
        ensures here { OnOk result (AreSaved paths.now self.new) }
    {
        for path in paths {
            self.save(alloc, tree, path.as_str())?;
        }
        Ok(())
    }

    // Saves the base's cells at the path and at its parent.
    fn save_with_parent(&mut self, alloc: Global, tree: &Tree, path: &str) -> Result<(), NoMemory>
        ensures more { OnOk result (SavesMore tree.now self.old self.new) }
        ensures path { OnOk result (is_saved self.new path.now ≡ true) }
        ensures parent { OnOk result (is_saved self.new (parent_of path.now) ≡ true) }
    {
        self.save(alloc, tree, path)?;
        self.save(alloc, tree, parent_of(path))
    }

    /// Saves the base's cells at each path and at its parent.
    pub(crate) fn save_with_parents(
        &mut self,
        alloc: Global,
        tree: &Tree,
        paths: &TextSet,
    ) -> Result<(), NoMemory>
        ensures more { OnOk result (SavesMore tree.now self.old self.new) }
        ensures here { OnOk result (AreSaved (deleted_footprint paths.now) self.new) }
    {
        for path in paths.iter() {
            self.save_with_parent(alloc, tree, path.as_str())?;
        }
        Ok(())
    }

    /// Saves what the end of the session touches of the base.
    pub(crate) fn save_ended(
        &mut self,
        alloc: Global,
        tree: &Tree,
        header: &TxnHeader,
        listed: &[Path],
    ) -> Result<(), NoMemory>
        ensures more { OnOk result (SavesMore tree.now self.old self.new) }
        ensures here { OnOk result
            (AreSaved (ended_footprint header.now.client_id listed.now tree.now) self.new) }
    {
        let paths = ended_paths(alloc, tree, header, listed)?;
        self.save_with_parents(alloc, tree, &paths)
    }

    /// Saves the tree's sessions, if none are saved. A refused allocation changes nothing.
    pub(crate) fn save_sessions(&mut self, tree: &Tree) -> Result<(), NoMemory>
        ensures base { OnOk result (base_of self.new tree.now ≡ base_of self.old tree.now) }
        ensures saved { OnOk result (is_some self.new.sessions ≡ true) }
    {
        if self.sessions.is_some() {
            return Ok(());
        }
        self.sessions = Some(tree.sessions().clone()?);
        Ok(())
    }

    /// Saves what the transaction changes of the base.
    pub(crate) fn save_for(&mut self, alloc: Global, tree: &Tree, txn: &Txn) -> Result<(), NoMemory>
        ensures base { OnOk result (base_of self.new tree.now ≡ base_of self.old tree.now) }
        ensures step { OnOk result
            (IsSavedFrom self.new tree.now (effect_of_txn tree.now txn.now).state) }
    {
        match txn.body.session_change() {
            SessionChange::Nothing => self.ready_footprint(alloc, tree, txn),
            SessionChange::Begins(_) => {
                self.save_sessions(tree)?;
                self.ready_footprint(alloc, tree, txn)
            }
            SessionChange::Ends => {
                self.save_sessions(tree)?;
                self.save_ended(alloc, tree, &txn.header, listed_in(&txn.body))
            }
        }
    }

    // Makes the cells ready for a transaction's only operation.
    fn ready_operation(
        &mut self,
        alloc: Global,
        tree: &Tree,
        zxid: i64,
        operation: &Operation,
    ) -> Result<(), NoMemory>
        ensures more { OnOk result (SavesMore tree.now self.old self.new) }
        ensures here { OnOk result
            (AreCellsReady (footprint_of_operation operation.now) (is_quiet_operation operation.now) zxid
            self.new tree.now) }
    {
        match operation {
            Operation::Create(create) => {
                let path = create.path.as_str();
                if is_ephemeral_owner(create.owner) {
                    return self.save_with_parent(alloc, tree, path);
                }
                self.make_ready_with_parent(alloc, tree, zxid, path)
            }
            Operation::Delete(delete) => self.save_with_parent(alloc, tree, delete.path.as_str()),
            Operation::SetData(set_data) => {
                self.make_ready(alloc, tree, zxid, set_data.path.as_str())
            }
            Operation::Check(_) | Operation::Error(_) => Ok(()),
        }
    }

    // Makes the cells ready for the transaction.
    fn ready_footprint(&mut self, alloc: Global, tree: &Tree, txn: &Txn) -> Result<(), NoMemory>
        ensures more { OnOk result (SavesMore tree.now self.old self.new) }
        ensures here { OnOk result (IsReadyFor txn.now self.new tree.now) }
    {
        // Most transactions come here, and need no list.
        if let Body::Single(operation) = &txn.body {
            return self.ready_operation(alloc, tree, txn.header.zxid, operation);
        }
        let mut paths = Vec::new(alloc);
        txn.body.borrow_paths(&mut paths)?;
        self.save_all(alloc, tree, paths.as_slice())
    }

    // Makes the cells ready for each of these transactions.
    fn ready_footprints(&mut self, alloc: Global, tree: &Tree, txns: &[Txn]) -> Result<(), NoMemory>
        ensures more { OnOk result (SavesMore tree.now self.old self.new) }
        ensures here { OnOk result (IsReadyForEach txns.now self.new tree.now) }
    {
        for txn in txns {
            self.ready_footprint(alloc, tree, txn)?;
        }
        Ok(())
    }

    /// Saves what the transactions change of the base, none of which ends a session.
    pub(crate) fn save_for_each(
        &mut self,
        alloc: Global,
        tree: &Tree,
        txns: &[Txn],
    ) -> Result<(), NoMemory>
        ensures base { OnOk result (base_of self.new tree.now ≡ base_of self.old tree.now) }
        ensures step { AllByRecursion KeepsToCells txns.now
            → OnOk result (IsSavedFrom self.new tree.now (state_after tree.now txns.now)) }
    {
        self.save_sessions(tree)?;
        self.ready_footprints(alloc, tree, txns)
    }
}
