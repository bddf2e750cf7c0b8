//! The data tree.

ghost use Rattle.std.specs.Prelude.{◌≡◌, ◌++◌, [], ◌↔◌, OnOk, OnErr, IfOk, IsTrue, not, codes};
ghost use Rattle.std.specs.Option.{option_copied, option_map};
ghost use Rattle.std.specs.FinMap as finmap;
ghost use Rattle.std.specs.List.{IsDistinct};
ghost use Rattle.std.specs.List.Sorted.{IsPermutation};
ghost use Rattle.std.specs.Map.{keys_of};
ghost use Rattle.std.specs.Map.Iter.{ShowsInOrder, deref_pair};
ghost use Rattle.std.specs.Ordering.{eq_by_cmp};
ghost use Rattle.node_map.specs.declared.node.Node.{Node as TheNode};
ghost use Rattle.paths_and_acls.specs.Paths.{parent_of};
ghost use Rattle.node_map.specs.Agreement.{has_node};
ghost use Rattle.node_map.specs.Stats.{stat_of, children_of};
ghost use Rattle.data_tree.specs.Making.{with_placed_node};
ghost use Rattle.data_tree.specs.Making.{empty_state, with_session, with_node_in_place, has_place};
ghost use Rattle.data_tree.specs.Inner.Placing.{with_new_node_placed};
ghost use Rattle.data_tree.specs.Inner.Mending.{with_mended, with_missing};
ghost use Rattle.data_tree.specs.Whole.{IsWhole};
ghost use Rattle.txn_codec.specs.Row.{has_error};
ghost use Rattle.data_tree.specs.Meaning.{of_operation, of_set_acl, of_create_session, of_close_session, of_parts, stat_after, of_multi, with_names, delete_of, delete_operations, effect_of_txn, answer_of, fresh_state};
ghost use Rattle.data_tree.specs.Cells.{cells_at, without_cells, with_cells, HasPartOfCells, CopiesCell, without_node};
ghost use Rattle.data_tree.specs.Refused.{IsAfterFront};
ghost use Rattle.data_tree.specs.Refused.{IsPartlyDone, IsLeftByRefused};
ghost use Rattle.data_tree.specs.Inner.Doing.{DoesEffect, DoesChange, IsChangeDone};
ghost use Rattle.ephemerals.specs.Orders.{Bytes, path_cmp, sorted_names};

use crate::multi::{failed_outcome, first_error};
use crate::outcome::{
    Outcome, PartResult, Trigger, Triggers, TxnResults, fire_data_changed, fire_with_parent,
};
use crate::sessions::Timeouts;
use ephemerals::{Ephemerals, TextSet};
use indexmap::map::Iter;
use jute::Stat;
use jute::codes::{NO_NODE, NODE_EXISTS};
use node_map::{AddedChild, HashKey, Node, NodeMap, TextKey};
use paths_and_acls::{Path, name_of, parent_of};
use settings::Dialect;
use std::alloc::Global;
use std::marker::Model;
use txn_codec::{Body, Create, Operation, SetAcl, SetData, Txn, TxnHeader, has_error};
use values::{Listed, NoMemory, Text};

/// The nodes, the ephemeral nodes of each session, and the timeout of each session.
pub struct Tree {
    nodes: NodeMap,
    ephemerals: Ephemerals,
    timeouts: Timeouts,
}

impl Model for Tree {
    ghost use Rattle.data_tree.specs.State.{State, state_code};
    ghost use Rattle.node_map.specs.contracts.node.Node as node;

    ghost Value = { State };

    ghost coded = { state_code node.the_row.coded };

    ghost view = { λ t. record { nodes = t.nodes; pairs = t.ephemerals; sessions = t.timeouts } };
}

impl Drop for Tree {
    fn drop(self) {
        let Tree {
            nodes,
            ephemerals,
            timeouts,
        } = self;
        drop(nodes);
        drop(ephemerals);
        drop(timeouts);
    }
}

// The names, and these paths too.
fn with_names(alloc: Global, names: TextSet, paths: &[Path]) -> Result<TextSet, NoMemory>
    ensures { IfOk result (λ all. all ≡ with_names names paths.now) }
{
    let mut all = names;
    for path in paths {
        all.insert(alloc, path.as_str())?;
    }
    Ok(all)
}

impl Tree {
    /// The tree that every log starts from: /, /zookeeper and /zookeeper/quota, and no session. Its nodes are found by
    /// the default key. Fails only if an allocation is refused.
    pub fn fresh(alloc: Global) -> Result<Tree, NoMemory>
        ensures { IfOk result (λ tree. tree ≡ fresh_state) }
    {
        Tree::fresh_with_key(alloc, HashKey::default())
    }

    /// The same tree, whose nodes are found by this key.
    pub fn fresh_with_key(alloc: Global, key: HashKey) -> Result<Tree, NoMemory>
        ensures { IfOk result (λ tree. tree ≡ fresh_state) }
    {
        let mut nodes = NodeMap::with_key(alloc, key);
        nodes.insert(alloc, "/", Node::with_child(alloc, "zookeeper")?)?;
        nodes.insert(alloc, "/zookeeper", Node::with_child(alloc, "quota")?)?;
        nodes.insert(alloc, "/zookeeper/quota", Node::childless(alloc)?)?;
        Ok(Tree {
            nodes,
            ephemerals: Ephemerals::keyed(alloc, key),
            timeouts: Timeouts::new(alloc),
        })
    }

    /// A tree without a node and without a session, which an image is loaded into. Its nodes are found by the default
    /// key. Allocates nothing.
    pub fn empty(alloc: Global) -> Tree
        ensures { result ≡ empty_state }
    {
        Tree::empty_with_key(alloc, HashKey::default())
    }

    /// The same tree, whose nodes are found by this key.
    pub fn empty_with_key(alloc: Global, key: HashKey) -> Tree
        ensures { result ≡ empty_state }
    {
        Tree {
            nodes: NodeMap::with_key(alloc, key),
            ephemerals: Ephemerals::keyed(alloc, key),
            timeouts: Timeouts::new(alloc),
        }
    }

    /// A copy of this tree. Fails only if an allocation is refused.
    pub fn copy(&self) -> Result<Tree, NoMemory>
        ensures { IfOk result (λ tree. tree ≡ self.now) }
    {
        Ok(Tree {
            nodes: self.nodes.clone()?,
            ephemerals: self.ephemerals.clone()?,
            timeouts: self.timeouts.clone()?,
        })
    }

    /// Sets a session's timeout in milliseconds. A refused allocation leaves the tree as it was.
    pub fn put_session(&mut self, session: i64, timeout: i32) -> Result<(), NoMemory>
        ensures ok { OnOk result (self.new ≡ with_session self.old session timeout) }
        ensures err { OnErr result (self.new ≡ self.old) }
    {
        self.timeouts.set(session, timeout)
    }

    /// Adds a node at the path, its name in the parent, and its owner's pair. Returns whether the path has a place: "/"
    /// has one if there is no node at all, any other path if it is new and its parent exists. Without a place, and
    /// after a refused allocation, the tree is as it was.
    pub fn put_node(&mut self, alloc: Global, path: &Path, node: Node) -> Result<bool, NoMemory>
        ensures placed { IfOk result (λ placed. placed ≡ has_place self.old.nodes path.now) }
        ensures state { OnOk result (self.new ≡ with_node_in_place self.old path.now node) }
        ensures err { OnErr result (self.new ≡ self.old) }
    {
        if path.as_str() == "/" {
            return self.put_root(alloc, node);
        }
        match self.nodes.add_name(alloc, path.parent(), path.name())? {
            AddedChild::NoParent => Ok(false),
            AddedChild::Taken => self.place_new_node(alloc, path.as_str(), node),
            AddedChild::Added(_) => match self.place_new_node(alloc, path.as_str(), node) {
                Ok(true) => Ok(true),
                Ok(false) => {
                    self.nodes.remove_name(path.parent(), path.name());
                    Ok(false)
                }
                Err(error) => {
                    self.nodes.remove_name(path.parent(), path.name());
                    Err(error)
                }
            },
        }
    }

    // Inserts the root if there is no node at all, and returns whether there was none.
    fn put_root(&mut self, alloc: Global, node: Node) -> Result<bool, NoMemory>
        ensures placed { IfOk result (λ placed. placed ≡ has_place self.old.nodes (codes "/")) }
        ensures state { OnOk result (self.new ≡ with_node_in_place self.old (codes "/") node) }
        ensures err { OnErr result (self.new ≡ self.old) }
    {
        if self.paths() != 0 {
            return Ok(false);
        }
        self.place_node(alloc, "/", node)?;
        Ok(true)
    }

    // Inserts a node and its owner's pair if there is no node at the path yet, and returns whether there was none.
    fn place_new_node(&mut self, alloc: Global, path: &str, node: Node) -> Result<bool, NoMemory>
        ensures new { IfOk result (λ new. new ≡ not (has_node self.old.nodes path.now)) }
        ensures state { OnOk result (self.new ≡ with_new_node_placed self.old path.now node) }
        ensures err { OnErr result (self.new ≡ self.old) }
    {
        let session = node.stat.ephemeral_owner;
        if !self.nodes.insert_new(alloc, path, node)? {
            return Ok(false);
        }
        match self.ephemerals.add(alloc, session, path) {
            Ok(_) => Ok(true),
            Err(error) => {
                self.nodes.remove(path);
                Err(error)
            }
        }
    }

    // Inserts a node and its owner's pair. A refused allocation leaves the tree as it was.
    fn place_node(&mut self, alloc: Global, path: &str, node: Node) -> Result<(), NoMemory>
        ensures ok { OnOk result (self.new ≡ with_placed_node self.old path.now node) }
        ensures err { OnErr result (self.new ≡ self.old) }
    {
        let owner = node.stat.ephemeral_owner;
        let added = self.ephemerals.add(alloc, owner, path)?;
        match self.nodes.insert(alloc, path, node) {
            Ok(()) => Ok(()),
            Err(error) => {
                if added {
                    self.ephemerals.remove(owner, path);
                    return Err(error);
                }
                Err(error)
            }
        }
    }

    // Changes the nodes as a create does.
    fn create_node(
        &mut self,
        alloc: Global,
        header: &TxnHeader,
        create: &Create,
        parent: &str,
    ) -> Result<i32, NoMemory>
        requires { parent.now ≡ parent_of create.now.path }
        ensures { DoesChange (of_operation header.now (Operation.Create create.now) self.old) result
            self.old self.new }
    {
        let node = Node::created(alloc, header, create)?;
        match self
            .nodes
            .add_child(alloc, parent, create.path.name(), header, create)?
        {
            AddedChild::NoParent => Ok(NO_NODE),
            AddedChild::Taken => {
                self.mend(header, create.path.as_str(), node);
                Ok(NODE_EXISTS)
            }
            AddedChild::Added(stat) => match self.place_node(alloc, create.path.as_str(), node) {
                Ok(()) => Ok(0),
                Err(error) => {
                    self.nodes.undo_add_child(parent, create.path.name(), stat);
                    Err(error)
                }
            },
        }
    }

    #[tactic(auto, using(crate::proofs::Creates::create_fires))]
    fn create(
        &mut self,
        alloc: Global,
        header: &TxnHeader,
        create: &Create,
        triggers: &mut Vec<Trigger>,
    ) -> Result<i32, NoMemory>
        ensures { DoesEffect (of_operation header.now (Operation.Create create.now) self.old) result
            self.old self.new triggers.old.items triggers.new.items }
    {
        let before = triggers.len();
        let parent = create.path.parent();
        let created = Trigger::Created(Text::new(alloc, create.path.as_str())?);
        fire_with_parent(triggers, alloc, created, parent)?;
        let err = self.create_node(alloc, header, create, parent)?;
        if err != 0 {
            triggers.truncate(before);
            return Ok(err);
        }
        Ok(0)
    }

    // A node that came with an image, but without its access control list, gets that of this one, which a create made.
    fn mend(&mut self, header: &TxnHeader, path: &str, made: Node)
        ensures { self.new ≡ with_mended header.now.rules path.now made.acl self.old }
    {
        match header.rules {
            Dialect::Zk34 => return,
            Dialect::Zk38 => self.nodes.mend_acl(path, made.acl),
        }
    }

    // A node is to be deleted that isn't there: its parent changes all the same by the rules of later dialects.
    fn miss(&mut self, header: &TxnHeader, path: &str)
        ensures { self.new ≡ with_missing header.now.rules header.now path.now self.old }
    {
        match header.rules {
            Dialect::Zk34 => return,
            Dialect::Zk38 => self.nodes.miss_child(parent_of(path), header),
        }
    }

    // Changes the nodes as a delete does.
    fn delete_node(&mut self, header: &TxnHeader, path: &str, parent: &str) -> i32
        requires { parent.now ≡ parent_of path.now }
        ensures { IsChangeDone (of_operation header.now (delete_of path.now) self.old) result self.new }
    {
        let Some(node) = self.nodes.remove(path) else {
            self.miss(header, path);
            return NO_NODE;
        };
        if !self.nodes.remove_child(parent, name_of(path), header) {
            return NO_NODE;
        }
        self.ephemerals.remove(node.stat.ephemeral_owner, path);
        0
    }

    #[tactic(auto, using(crate::proofs::Deletes::delete_fires))]
    fn delete(
        &mut self,
        alloc: Global,
        header: &TxnHeader,
        path: &str,
        triggers: &mut Vec<Trigger>,
    ) -> Result<i32, NoMemory>
        ensures { DoesEffect (of_operation header.now (delete_of path.now) self.old) result
            self.old self.new triggers.old.items triggers.new.items }
    {
        let before = triggers.len();
        let parent = parent_of(path);
        let deleted = Trigger::Deleted(Text::new(alloc, path)?);
        fire_with_parent(triggers, alloc, deleted, parent)?;
        let err = self.delete_node(header, path, parent);
        if err != 0 {
            triggers.truncate(before);
            return Ok(err);
        }
        Ok(0)
    }

    fn set_data(
        &mut self,
        alloc: Global,
        header: &TxnHeader,
        body: &SetData,
        triggers: &mut Vec<Trigger>,
    ) -> Result<i32, NoMemory>
        ensures { DoesEffect (of_operation header.now (Operation.SetData body.now) self.old) result
            self.old self.new triggers.old.items triggers.new.items }
    {
        let before = triggers.len();
        fire_data_changed(triggers, alloc, body.path.as_str())?;
        if !self.nodes.set_data(body.path.as_str(), header, body)? {
            triggers.truncate(before);
            return Ok(NO_NODE);
        }
        Ok(0)
    }

    fn set_acl(&mut self, body: &SetAcl) -> Result<i32, NoMemory>
        ensures { DoesEffect (of_set_acl body.now self.old) result self.old self.new [] [] }
    {
        if !self.nodes.set_acl(body.path.as_str(), body)? {
            return Ok(NO_NODE);
        }
        Ok(0)
    }

    fn create_session(&mut self, header: &TxnHeader, timeout: i32) -> Result<(), NoMemory>
        ensures ok { OnOk result
            (self.new ≡ (of_create_session header.now timeout self.old).state) }
        ensures err { OnErr result (self.new ≡ self.old) }
    {
        self.put_session(header.client_id, timeout)
    }

    // Applies one operation and adds its triggers.
    fn operate(
        &mut self,
        alloc: Global,
        header: &TxnHeader,
        operation: &Operation,
        triggers: &mut Vec<Trigger>,
    ) -> Result<i32, NoMemory>
        ensures { DoesEffect (of_operation header.now operation.now self.old) result
            self.old self.new triggers.old.items triggers.new.items }
    {
        match operation {
            Operation::Create(create) => self.create(alloc, header, create, triggers),
            Operation::Delete(body) => self.delete(alloc, header, body.path.as_str(), triggers),
            Operation::SetData(body) => self.set_data(alloc, header, body, triggers),
            Operation::Check(_) => Ok(0),
            Operation::Error(error) => Ok(*error),
        }
    }

    // The Stat that the reply to a part shows, right after the part.
    fn stat_after(&self, part: &Operation) -> Option<Stat>
        ensures { result ≡ stat_after part.now self.now }
    {
        match part {
            Operation::Create(create) => {
                if create.asks_stat {
                    return self.stat(create.path.as_str());
                }
                return None;
            }
            Operation::SetData(body) => self.stat(body.path.as_str()),
            Operation::Delete(_) | Operation::Check(_) | Operation::Error(_) => return None,
        }
    }

    // Applies the parts of a multi in order.
    fn operate_all(
        &mut self,
        alloc: Global,
        header: &TxnHeader,
        parts: &[Operation],
    ) -> Result<Outcome, NoMemory>
        ensures state { OnOk result (self.new ≡ (of_parts header.now parts.now self.old).state) }
        ensures answer { IfOk result (λ o. o ≡ answer_of (of_parts header.now parts.now self.old)) }
        ensures err { OnErr result (IsAfterFront header.now parts.now self.old self.new) }
    {
        let mut results = Vec::new(alloc);
        let mut triggers = Vec::new(alloc);
        for part in parts {
            let err = self.operate(alloc, header, part, &mut triggers)?;
            let stat = self.stat_after(part);
            results.push(PartResult { err, stat })?;
        }
        Ok(Outcome {
            results: TxnResults {
                err: first_error(results.as_slice()),
                parts: Listed::from_vec(results),
            },
            triggers: Triggers::from_vec(triggers),
        })
    }

    // Deletes the paths in ascending order of their bytes, and adds the triggers.
    fn delete_all(
        &mut self,
        alloc: Global,
        header: &TxnHeader,
        paths: TextSet,
        triggers: &mut Vec<Trigger>,
    ) -> Result<(), NoMemory>
        ensures state { OnOk result
            (self.new ≡ (of_parts header.now (delete_operations (sorted_names paths)) self.old).state) }
        ensures fired { OnOk result
            (triggers.new.items ≡ triggers.old.items ++
            (of_parts header.now (delete_operations (sorted_names paths)) self.old).triggers) }
    {
        let mut left = paths;
        while let Some(path) = left.pop_first() {
            self.delete(alloc, header, path.as_str(), triggers)?;
        }
        Ok(())
    }

    fn close_session(
        &mut self,
        alloc: Global,
        header: &TxnHeader,
        listed: &[Path],
        triggers: &mut Vec<Trigger>,
    ) -> Result<(), NoMemory>
        ensures state { OnOk result (self.new ≡ (of_close_session header.now listed.now self.old).state) }
        ensures fired { OnOk result
            (triggers.new.items ≡ triggers.old.items ++
            (of_close_session header.now listed.now self.old).triggers) }
    {
        let own = self.ephemerals.take_session(alloc, header.client_id)?;
        self.timeouts.remove(header.client_id);
        let paths = with_names(alloc, own, listed)?;
        self.delete_all(alloc, header, paths, triggers)
    }

    // Applies a setData that isn't a part of a multi. A refused allocation leaves the tree as it was.
    fn apply_set_data(
        &mut self,
        alloc: Global,
        header: &TxnHeader,
        body: &SetData,
    ) -> Result<Outcome, NoMemory>
        ensures state { OnOk result
            (self.new ≡ (of_operation header.now (Operation.SetData body.now) self.old).state) }
        ensures answer { IfOk result (λ o.
            o ≡ answer_of (of_operation header.now (Operation.SetData body.now) self.old)) }
        ensures err { OnErr result (self.new ≡ self.old) }
    {
        let changed = Trigger::DataChanged(Text::new(alloc, body.path.as_str())?);
        if !self.nodes.set_data(body.path.as_str(), header, body)? {
            return Ok(Outcome::without_parts(alloc, NO_NODE, Triggers::from_vec(Vec::new(alloc))));
        }
        Ok(Outcome::without_parts(alloc, 0, Triggers::one(changed)))
    }

    // Applies a create that isn't a part of a multi. A refused allocation leaves the tree as it was.
    #[tactic(auto, using(crate::proofs::Creates::create_fires))]
    fn apply_create(
        &mut self,
        alloc: Global,
        header: &TxnHeader,
        create: &Create,
    ) -> Result<Outcome, NoMemory>
        ensures state { OnOk result
            (self.new ≡ (of_operation header.now (Operation.Create create.now) self.old).state) }
        ensures answer { IfOk result (λ o.
            o ≡ answer_of (of_operation header.now (Operation.Create create.now) self.old)) }
        ensures err { OnErr result (self.new ≡ self.old) }
    {
        let parent = create.path.parent();
        let created = Trigger::Created(Text::new(alloc, create.path.as_str())?);
        let changed = Trigger::ChildrenChanged(Text::new(alloc, parent)?);
        let err = self.create_node(alloc, header, create, parent)?;
        Ok(Outcome::of_create_or_delete(alloc, err, created, changed))
    }

    // Applies a delete that isn't a part of a multi. A refused allocation leaves the tree as it was.
    #[tactic(auto, using(crate::proofs::Deletes::delete_fires))]
    fn apply_delete(
        &mut self,
        alloc: Global,
        header: &TxnHeader,
        path: &str,
    ) -> Result<Outcome, NoMemory>
        ensures state { OnOk result
            (self.new ≡ (of_operation header.now (delete_of path.now) self.old).state) }
        ensures answer { IfOk result (λ o.
            o ≡ answer_of (of_operation header.now (delete_of path.now) self.old)) }
        ensures err { OnErr result (self.new ≡ self.old) }
    {
        let parent = parent_of(path);
        let deleted = Trigger::Deleted(Text::new(alloc, path)?);
        let changed = Trigger::ChildrenChanged(Text::new(alloc, parent)?);
        let err = self.delete_node(header, path, parent);
        Ok(Outcome::of_create_or_delete(alloc, err, deleted, changed))
    }

    /// Applies a transaction and returns its outcome.
    ///
    /// A refused allocation leaves a prefix of a multi's parts applied; after a closeSession it leaves the tree
    /// unspecified, and the caller drops it; with any other transaction it leaves the tree as it was.
    pub fn apply(&mut self, alloc: Global, txn: &Txn) -> Result<Outcome, NoMemory>
        ensures state { OnOk result (self.new ≡ (effect_of_txn self.old txn.now).state) }
        ensures answer { IfOk result (λ o. o ≡ answer_of (effect_of_txn self.old txn.now)) }
        ensures err { OnErr result (IsLeftByRefused txn.now.header txn.now.body self.old self.new) }
    {
        let mut triggers = Vec::new(alloc);
        let err = match &txn.body {
            Body::Single(Operation::SetData(body)) => {
                return self.apply_set_data(alloc, &txn.header, body);
            }
            Body::Single(Operation::Create(body)) => {
                return self.apply_create(alloc, &txn.header, body);
            }
            Body::Single(Operation::Delete(body)) => {
                return self.apply_delete(alloc, &txn.header, body.path.as_str());
            }
            Body::Single(operation) => self.operate(alloc, &txn.header, operation, &mut triggers)?,
            Body::SetAcl(body) => self.set_acl(body)?,
            Body::Multi(parts) => return self.apply_multi(alloc, &txn.header, parts.as_slice()),
            Body::CreateSession(timeout) => {
                self.create_session(&txn.header, *timeout)?;
                0
            }
            Body::CloseSession(listed) => {
                self.close_session(alloc, &txn.header, listed.as_slice(), &mut triggers)?;
                0
            }
        };
        Ok(Outcome::without_parts(alloc, err, Triggers::from_vec(triggers)))
    }

    fn apply_multi(
        &mut self,
        alloc: Global,
        header: &TxnHeader,
        parts: &[Operation],
    ) -> Result<Outcome, NoMemory>
        ensures state { OnOk result (self.new ≡ (of_multi header.now parts.now self.old).state) }
        ensures answer { IfOk result (λ o. o ≡ answer_of (of_multi header.now parts.now self.old)) }
        ensures err { OnErr result
            (IsPartlyDone (has_error parts.now) header.now parts.now self.old self.new) }
    {
        if has_error(parts) {
            return failed_outcome(alloc, parts);
        }
        self.operate_all(alloc, header, parts)
    }

    // Moves the nodes and the pairs at these paths out of the tree.
    pub(crate) fn take_tree(&mut self, alloc: Global, paths: &TextSet) -> Result<Tree, NoMemory>
        ensures cells { IfOk result (λ cells. cells ≡ cells_at paths.now self.old) }
        ensures rest { OnOk result (self.new ≡ without_cells paths.now self.old) }
        ensures err { OnErr result (self.new ≡ self.old) }
    {
        let ephemerals = self.ephemerals.at(alloc, paths)?;
        let nodes = self.nodes.take(alloc, paths)?;
        self.ephemerals.drop_at(paths);
        Ok(Tree {
            nodes,
            ephemerals,
            timeouts: Timeouts::new(alloc),
        })
    }

    // Moves the nodes and the pairs of another tree into this one.
    pub(crate) fn put_tree(&mut self, alloc: Global, cells: Tree) -> Result<(), NoMemory>
        ensures ok { OnOk result (self.new ≡ with_cells cells self.old) }
        ensures err { OnErr result (HasPartOfCells cells self.old self.new) }
    {
        let Tree {
            nodes,
            ephemerals,
            timeouts,
        } = cells;
        drop(timeouts);
        self.ephemerals.add_all(alloc, &ephemerals)?;
        self.nodes.append(nodes)
    }

    // Replaces the cell at the path by a copy of the other tree's.
    pub(crate) fn copy_cell(
        &mut self,
        alloc: Global,
        from: &Tree,
        path: &str,
    ) -> Result<(), NoMemory>
        ensures { OnOk result (CopiesCell path.now from.now self.old self.new) }
    {
        self.nodes.copy_node(alloc, &from.nodes, path)?;
        self.ephemerals.copy_path(alloc, path, &from.ephemerals)
    }

    // Replaces the cell at the path by a copy of the other tree's without its node.
    pub(crate) fn copy_owners(
        &mut self,
        alloc: Global,
        from: &Tree,
        path: &str,
    ) -> Result<(), NoMemory>
        ensures { OnOk result
            (CopiesCell path.now (without_node path.now from.now) self.old self.new) }
    {
        self.nodes.remove(path);
        self.ephemerals.copy_path(alloc, path, &from.ephemerals)
    }

    /// Removes the node at the path, if there is one. The name that its parent lists stays, and so do the sessions that
    /// list the path.
    pub fn remove_node(&mut self, path: &str)
        ensures { self.new ≡ without_node path.now self.old }
    {
        self.nodes.remove(path);
    }

    /// Replaces the timeouts of all sessions.
    pub fn set_sessions(&mut self, sessions: Timeouts)
        ensures { self.new ≡ record self.old { sessions = sessions } }
    {
        self.timeouts = sessions;
    }

    /// The node at the path.
    pub fn node(&self, path: &str) -> Option<&Node>
        ensures { option_copied result ≡ finmap.get self.now.nodes path.now }
    {
        self.nodes.get(path)
    }

    /// The Stat of the node at the path, as clients see it.
    pub fn stat(&self, path: &str) -> Option<Stat>
        ensures { result ≡ option_map stat_of (finmap.get self.now.nodes path.now) }
    {
        Some(self.node(path)?.shown())
    }

    /// The number of nodes.
    pub fn paths(&self) -> usize
        ensures { result ≡ finmap.len self.now.nodes }
    {
        self.nodes.len()
    }

    /// The key by which the nodes are found.
    pub fn hash_key(&self) -> HashKey {
        self.nodes.hash_key()
    }

    /// The nodes with their paths, each once, in no order that a caller may rely on.
    pub fn nodes(&self) -> Iter<'_, TextKey, Node>
        ensures nodes { finmap.from_entries result ≡ self.now.nodes }
        ensures once { IsDistinct (eq_by_cmp path_cmp) (keys_of result) }
        ensures entries { IsPermutation (finmap.entries self.now.nodes) result }
        ensures runs { ShowsInOrder (deref_pair {K = Bytes} {X = TheNode}) }
    {
        self.nodes.iter()
    }

    /// The names of the children of the node at the path, in ascending order of their bytes.
    pub fn children(&self, path: &str) -> Option<&TextSet>
        ensures { option_copied result ≡
            option_map children_of (finmap.get self.now.nodes path.now) }
    {
        Some(&self.node(path)?.children)
    }

    /// The timeout of each session.
    pub fn sessions(&self) -> &Timeouts
        ensures { result.now ≡ self.now.sessions }
    {
        &self.timeouts
    }

    /// The ephemeral nodes of each session.
    pub fn ephemerals(&self) -> &Ephemerals
        ensures { result.now ≡ self.now.pairs }
    {
        &self.ephemerals
    }

    /// Whether the tree is whole: there is a root; each node is at a path and lists names of children; each node but
    /// the root has a parent that lists its name; each name that a node lists has a node; and the ephemerals are the
    /// paths of the owned nodes, each with its owner. Fails only if an allocation is refused.
    pub fn is_whole(&self, alloc: Global) -> Result<bool, NoMemory>
        ensures { IfOk result (λ whole. IsTrue whole ↔ IsWhole self.now) }
    {
        if self.node("/").is_none() || !self.nodes.are_owned(&self.ephemerals) {
            return Ok(false);
        }
        if !self.nodes.are_named() {
            return Ok(false);
        }
        self.nodes.are_linked(alloc)
    }
}
