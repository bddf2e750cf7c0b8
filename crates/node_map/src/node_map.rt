//! The nodes by path, modelled as a finite map.

ghost use Rattle.std.specs.Prelude.{◌≡◌, ◌↔◌, ℤ, OnOk, OnErr, IfOk, IsTrue, Option, None, Some, is_some, not, true};
ghost use Rattle.std.specs.Option.{option_copied, option_copied_mut};
ghost use Rattle.std.specs.Borrow.{sem};
ghost use Rattle.std.specs.FinMap as finmap;
ghost use Rattle.std.specs.List.{IsDistinct};
ghost use Rattle.std.specs.List.Sorted.{IsPermutation};
ghost use Rattle.std.specs.Map.{keys_of};
ghost use Rattle.std.specs.Ordering.{eq_by_cmp};
ghost use Rattle.ephemerals.specs.Orders.{Bytes, path_cmp};
ghost use Rattle.std.specs.Map.Iter.{ShowsInOrder, deref_pair};
ghost use Rattle.node_map.specs.declared.node.Node.{Node as TheNode};
ghost use Rattle.node_map.specs.Inner.NodeMapLends.{LendsNode};
ghost use Rattle.node_map.specs.Updates.{with_entries, IsBetween, update_node, with_data, with_acl, with_missing_acl, with_name, with_node_at};
ghost use Rattle.node_map.specs.Children.{with_added_child, added_child, without_added_child, without_child, without_missing_child, without_name, with_new_node, HasItsChildren};
ghost use Rattle.node_map.specs.Agreement.{has_node, has_parent, AreLinked, AreNamed, AreChildNames, AreOwned, is_child_name, is_listed_at};

use crate::added_child::AddedChild;
use crate::node::{Node, stat_after_delete};
use ephemerals::{Ephemerals, TextSet};
use indexmap::IndexMap;
use indexmap::map::Iter;
use jute::StatPersisted;
use pairs::{HashKey, KeyQuery, TextKey};
use paths_and_acls::{AclList, child_of, is_path, name_of, parent_of};
use std::alloc::{AllocError, Global};
use std::marker::Model;
use txn_codec::{Create, SetAcl, SetData, TxnHeader};
use values::NoMemory;

/// Nodes by path.
///
/// A node is found by the hash of its path, of which up to 30 bytes lie beside the node. The nodes lie one after the
/// other, in an order that depends on what was inserted and removed, and not on the key: a new one comes last, and the
/// last one takes the place of one that is removed. So nothing is left of a path without a node.
#[derive(Drop)]
pub struct NodeMap {
    map: IndexMap<TextKey, Node, HashKey>,
}

impl Model for NodeMap {
    ghost use Rattle.node_map.specs.Nodes.{Nodes};

    ghost Value = { Nodes };

    ghost use Rattle.std.specs.Coded.{coded_ℕ, coded_list};
    ghost use Rattle.std.specs.FinMap as finmap;
    ghost use Rattle.node_map.specs.contracts.node.Node as node;

    ghost coded = { finmap.code (coded_list coded_ℕ) node.the_row.coded };

    ghost view = { λ m. finmap.from_entries m.map.entries };
}

impl Clone for NodeMap {
    ghost is_clone = { λ x y. y ≡ x };

    fn clone(&self) -> Result<NodeMap, AllocError> {
        Ok(NodeMap {
            map: self.map.clone()?,
        })
    }
}

// Whether a text may follow the last slash of a path.
fn is_child_name(name: &[u8]) -> bool
    ensures { result ≡ is_child_name name.now }
{
    !name.is_empty() && !name.contains(&0) && !name.contains(&b'/')
}

// Whether each of the names may follow the last slash of a path.
fn are_child_names(names: &TextSet) -> bool
    ensures { IsTrue result ↔ AreChildNames names.now }
{
    for name in names.iter() {
        if !is_child_name(name.as_str().as_bytes()) {
            return false;
        }
    }
    true
}

impl NodeMap {
    /// No node, and the default key. Allocates nothing.
    pub fn new(alloc: Global) -> NodeMap
        ensures { result ≡ finmap.empty }
    {
        NodeMap::with_key(alloc, HashKey::default())
    }

    /// No node, and this key of the hash. Allocates nothing.
    pub fn with_key(alloc: Global, key: HashKey) -> NodeMap
        ensures { result ≡ finmap.empty }
    {
        NodeMap {
            map: IndexMap::with_hasher(alloc, key),
        }
    }

    /// The key of the hash.
    pub fn hash_key(&self) -> HashKey {
        *self.map.hasher()
    }

    /// The node at the path.
    pub fn get(&self, path: &str) -> Option<&Node>
        ensures { option_copied result ≡ finmap.get self.now path.now }
    {
        self.map.get(KeyQuery(path))
    }

    /// The number of nodes.
    pub fn len(&self) -> usize
        ensures { result ≡ finmap.len self.now }
    {
        self.map.len()
    }

    /// The nodes with their paths, each once, in no order that a caller may rely on.
    pub fn iter(&self) -> Iter<'_, TextKey, Node>
        ensures nodes { finmap.from_entries result ≡ self.now }
        ensures once { IsDistinct (eq_by_cmp path_cmp) (keys_of result) }
        ensures entries { IsPermutation (finmap.entries self.now) result }
        ensures runs { ShowsInOrder (deref_pair {K = Bytes} {X = TheNode}) }
    {
        self.map.iter()
    }

    /// Inserts a node at the path; it replaces another one there. A refused allocation changes nothing.
    pub fn insert(&mut self, alloc: Global, path: &str, node: Node) -> Result<(), NoMemory>
        ensures ok { OnOk result (self.new ≡ finmap.insert self.old path.now node) }
        ensures err { OnErr result (self.new ≡ self.old) }
    {
        self.put(TextKey::new(alloc, path)?, node)
    }

    // Inserts a node at the path of the key; it replaces another one there. A refused allocation changes nothing.
    fn put(&mut self, key: TextKey, node: Node) -> Result<(), NoMemory>
        ensures ok { OnOk result (self.new ≡ finmap.insert self.old key node) }
        ensures err { OnErr result (self.new ≡ self.old) }
    {
        self.map.insert(key, node)?;
        Ok(())
    }

    /// Inserts all of the others' nodes; they replace those at the same paths. After a refused allocation some are
    /// inserted, and the other paths are as they were.
    pub fn append(&mut self, others: NodeMap) -> Result<(), NoMemory>
        ensures ok { OnOk result (self.new ≡ with_entries self.old (finmap.entries others)) }
        ensures err { OnErr result
            (IsBetween self.old (with_entries self.old (finmap.entries others)) self.new) }
    {
        for (key, node) in others.map {
            self.put(key, node)?;
        }
        Ok(())
    }

    /// Removes the node at the path and returns it.
    pub fn remove(&mut self, path: &str) -> Option<Node>
        ensures value { result ≡ finmap.get self.old path.now }
        ensures removed { self.new ≡ finmap.remove self.old path.now }
    {
        self.map.swap_remove(KeyQuery(path))
    }

    /// Replaces the node at the path by a copy of the others' there; there is none afterwards if they have none. A
    /// refused allocation changes nothing.
    pub fn copy_node(&mut self, alloc: Global, others: &NodeMap, path: &str) -> Result<(), NoMemory>
        ensures ok { OnOk result
            (self.new ≡ with_node_at path.now (finmap.get others.now path.now) self.old) }
        ensures err { OnErr result (self.new ≡ self.old) }
    {
        match others.get(path) {
            None => {
                self.remove(path);
                Ok(())
            }
            Some(node) => self.insert(alloc, path, node.clone()?),
        }
    }

    pub(crate) fn get_mut(&mut self, path: &str) -> Option<&mut Node>
        ensures* writes_back { sem 𝓛 (LendsNode self.entry path.now result) }
        ensures value { option_copied_mut result ≡ finmap.get self.old path.now }
    {
        self.map.get_mut(KeyQuery(path))
    }

    // Replaces the node at the path, if there is one.
    pub(crate) fn replace(&mut self, path: &str, node: Node)
        ensures { self.new ≡ update_node self.old path.now (λ _. node) }
    {
        match self.get_mut(path) {
            None => return,
            Some(place) => *place = node,
        }
    }

    /// Inserts a node at the path if there is none yet, and returns whether there was none.
    pub fn insert_new(&mut self, alloc: Global, path: &str, node: Node) -> Result<bool, NoMemory>
        ensures new { IfOk result (λ new. new ≡ not (has_node self.old path.now)) }
        ensures state { OnOk result (self.new ≡ with_new_node self.old path.now node) }
        ensures err { OnErr result (self.new ≡ self.old) }
    {
        let key = TextKey::new(alloc, path)?;
        match self.map.insert(key, node)? {
            None => Ok(true),
            Some(old) => {
                self.replace(path, old);
                Ok(false)
            }
        }
    }

    /// Adds a name to the children of the node at the path, if there is one. A refused allocation changes nothing.
    pub fn add_name(
        &mut self,
        alloc: Global,
        path: &str,
        name: &str,
    ) -> Result<AddedChild, NoMemory>
        ensures state { OnOk result
            (self.new ≡ update_node self.old path.now (with_name name.now)) }
        ensures outcome { IfOk result
            (λ is. is ≡ added_child (finmap.get self.old path.now) name.now) }
        ensures err { OnErr result (self.new ≡ self.old) }
    {
        match self.get_mut(path) {
            None => return Ok(AddedChild::NoParent),
            Some(node) => {
                if node.children.insert(alloc, name)? {
                    return Ok(AddedChild::Added(node.stat));
                }
                Ok(AddedChild::Taken)
            }
        }
    }

    /// Removes a name from the children of the node at the path, if there is one.
    pub fn remove_name(&mut self, path: &str, name: &str)
        ensures { self.new ≡ update_node self.old path.now (without_name name.now) }
    {
        match self.get_mut(path) {
            None => return,
            Some(node) => {
                node.children.remove(name);
            }
        }
    }

    /// Adds a child's name to the node at the path, or raises that node's stat if it has the name.
    pub fn add_child(
        &mut self,
        alloc: Global,
        path: &str,
        name: &str,
        header: &TxnHeader,
        create: &Create,
    ) -> Result<AddedChild, NoMemory>
        ensures state { OnOk result
            (self.new ≡ update_node self.old path.now
            (with_added_child header.now create.now name.now)) }
        ensures outcome { IfOk result
            (λ is. is ≡ added_child (finmap.get self.old path.now) name.now) }
        ensures err { OnErr result (self.new ≡ self.old) }
    {
        match self.get_mut(path) {
            None => return Ok(AddedChild::NoParent),
            Some(node) => {
                let before = node.stat;
                if node.add_child(alloc, name, header, create)? {
                    return Ok(AddedChild::Added(before));
                }
                Ok(AddedChild::Taken)
            }
        }
    }

    /// Removes a child's name from the node at the path, if there is one, and restores that node's stat.
    pub fn undo_add_child(&mut self, path: &str, name: &str, before: StatPersisted)
        ensures { self.new ≡ update_node self.old path.now (without_added_child name.now before) }
    {
        match self.get_mut(path) {
            None => return,
            Some(node) => {
                node.children.remove(name);
                node.stat = before;
            }
        }
    }

    /// Removes the name of a deleted child from the node at the path, and returns whether there is such a node.
    pub fn remove_child(&mut self, path: &str, name: &str, header: &TxnHeader) -> bool
        ensures state { self.new ≡
            update_node self.old path.now (without_child name.now header.now) }
        ensures found { result ≡ is_some (finmap.get self.old path.now) }
    {
        match self.get_mut(path) {
            None => return false,
            Some(node) => {
                node.children.remove(name);
                node.stat = stat_after_delete(node.stat, header);
                true
            }
        }
    }

    /// Changes the stat of the node at the path, if there is one, as the delete of a child does that is there no more.
    pub fn miss_child(&mut self, path: &str, header: &TxnHeader)
        ensures { self.new ≡ update_node self.old path.now (without_missing_child header.now) }
    {
        match self.get_mut(path) {
            None => return,
            Some(node) => node.stat = stat_after_delete(node.stat, header),
        }
    }

    /// Gives this access control list to the node at the path, if there is one and it came without a list.
    pub fn mend_acl(&mut self, path: &str, acl: AclList)
        ensures { self.new ≡ update_node self.old path.now (with_missing_acl acl) }
    {
        match self.get_mut(path) {
            None => return,
            Some(node) => node.mend_acl(acl),
        }
    }

    /// Replaces the data of the node at the path, and returns whether there is such a node.
    pub fn set_data(
        &mut self,
        path: &str,
        header: &TxnHeader,
        body: &SetData,
    ) -> Result<bool, NoMemory>
        ensures state { OnOk result
            (self.new ≡ update_node self.old path.now (with_data header.now body.now)) }
        ensures found { IfOk result (λ found. found ≡ is_some (finmap.get self.old path.now)) }
        ensures err { OnErr result (self.new ≡ self.old) }
    {
        match self.get_mut(path) {
            None => return Ok(false),
            Some(node) => {
                node.set_data(header, body)?;
                Ok(true)
            }
        }
    }

    /// Replaces the access control list of the node at the path, and returns whether there is such a node.
    pub fn set_acl(&mut self, path: &str, body: &SetAcl) -> Result<bool, NoMemory>
        ensures state { OnOk result (self.new ≡ update_node self.old path.now (with_acl body.now)) }
        ensures found { IfOk result (λ found. found ≡ is_some (finmap.get self.old path.now)) }
        ensures err { OnErr result (self.new ≡ self.old) }
    {
        match self.get_mut(path) {
            None => return Ok(false),
            Some(node) => {
                node.set_acl(body)?;
                Ok(true)
            }
        }
    }

    fn lists(&self, path: &str, name: &str) -> bool
        ensures { result ≡ is_listed_at self.now path.now name.now }
    {
        match self.get(path) {
            None => false,
            Some(node) => node.children.contains(name),
        }
    }

    // Whether the path is "/", or has a parent that lists its name.
    fn has_parent(&self, path: &str) -> bool
        ensures { result ≡ has_parent self.now path.now }
    {
        path == "/" || self.lists(parent_of(path), name_of(path))
    }

    // Whether each of the names at the path has a node.
    fn has_all(&self, alloc: Global, path: &str, names: &TextSet) -> Result<bool, NoMemory>
        ensures { IfOk result (λ has. IsTrue has ↔ HasItsChildren self.now path.now names.now) }
    {
        for name in names.iter() {
            let path = child_of(alloc, path, name.as_str())?;
            if self.get(path.as_str()).is_none() {
                return Ok(false);
            }
        }
        Ok(true)
    }

    /// Whether each node is at a path, and lists names that may follow the last slash of a path.
    pub fn are_named(&self) -> bool
        ensures { IsTrue result ↔ AreNamed self.now }
    {
        for (path, node) in self.map.iter() {
            if !is_path(path.as_str().as_bytes()) {
                return false;
            }
            if !are_child_names(&node.children) {
                return false;
            }
        }
        true
    }

    /// Whether each node but the root has a parent that lists its name, and each name that a node lists has a node.
    pub fn are_linked(&self, alloc: Global) -> Result<bool, NoMemory>
        ensures { IfOk result (λ linked. IsTrue linked ↔ AreLinked self.now) }
    {
        for (path, node) in self.map.iter() {
            let path = path.as_str();
            if !self.has_parent(path) {
                return Ok(false);
            }
            if !self.has_all(alloc, path, &node.children)? {
                return Ok(false);
            }
        }
        Ok(true)
    }

    /// Whether the pairs are the owners and paths of the owned nodes. It checks that each of these is a pair and that
    /// there are as many of them as pairs, so there is no other pair.
    pub fn are_owned(&self, pairs: &Ephemerals) -> bool
        ensures { IsTrue result ↔ AreOwned self.now pairs.now }
    {
        let mut owned = 0;
        for (path, node) in self.map.iter() {
            if node.stat.ephemeral_owner != 0 {
                if !pairs.contains(node.stat.ephemeral_owner, path.as_str()) {
                    return false;
                }
                owned += 1;
            }
        }
        owned == pairs.count()
    }
}
