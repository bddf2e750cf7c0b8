//! A tree that is built from the parts of an image.

ghost use Rattle.std.specs.Prelude.{◌≡◌, false};
ghost use Rattle.snapshot_codec.specs.Made.{no_loaded_parts, no_parts_in};
ghost use Rattle.snapshot_codec.specs.Reads.{TakesPart};

use crate::acl_table::AclTable;
use crate::owner::{comes_late, loaded_stat, mark_in, or_missing};
use crate::part::{ImageAcl, ImageNode, ImagePart, ImageSession};
use data_tree::{HashKey, Node, Tree};
use ephemerals::TextSet;
use paths_and_acls::AclList;
use settings::Dialect;
use std::alloc::Global;
use std::marker::Model;
use values::{Fault, ReadError};

/// A tree that is built from the parts of an image, one by one and in their order.
pub struct Loader {
    dialect: Dialect,
    tree: Tree,
    lists: AclTable,
    ended: bool,
}

impl Model for Loader {
    ghost use Rattle.node_map.specs.contracts.node.Node as node;
    ghost use Rattle.jute.specs.contracts.owned.Acl as acl;
    ghost use Rattle.snapshot_codec.specs.Made.{Loading, loading_code};

    ghost Value = { Loading };

    ghost use Rattle.settings.specs.contracts.dialect.Dialect as of_dialect;

    ghost coded = { loading_code of_dialect.the_row.coded node.the_row.coded acl.the_row.coded };

    ghost view = { λ l. record {
      made = record { dialect = l.dialect; state = l.tree; lists = l.lists };
      ended = l.ended;
    } };
}

impl Drop for Loader {
    fn drop(self) {
        let Loader {
            dialect: _,
            tree,
            lists,
            ended: _,
        } = self;
        drop(tree);
        drop(lists);
    }
}

impl Loader {
    /// The start of an image of ZooKeeper 3.4. Allocates nothing.
    pub fn new(alloc: Global) -> Loader
        ensures { result ≡ record { made = no_loaded_parts; ended = false } }
    {
        Loader::in_dialect(Dialect::Zk34, alloc)
    }

    /// The start of an image of a leader of this dialect. Allocates nothing.
    pub fn in_dialect(dialect: Dialect, alloc: Global) -> Loader
        ensures { result ≡ record { made = no_parts_in dialect; ended = false } }
    {
        Loader::with_key(dialect, alloc, HashKey::default())
    }

    /// The same, where the nodes of the tree are found by this key.
    pub fn with_key(dialect: Dialect, alloc: Global, key: HashKey) -> Loader
        ensures { result ≡ record { made = no_parts_in dialect; ended = false } }
    {
        Loader {
            dialect,
            tree: Tree::empty_with_key(alloc, key),
            lists: AclTable::new(alloc),
            ended: false,
        }
    }

    /// Takes the next part. The fault is `BadImage` if it doesn't fit the parts before it: its session, its ACL key or
    /// its path occurred already; its node refers to a key or a parent that didn't occur; or the first node isn't "/".
    /// In a later dialect a node may refer to any key, and no list comes after a node.
    /// A refused part leaves the loader as it was. Fails with `NoMemory` if an allocation is refused.
    pub fn part(&mut self, alloc: Global, part: ImagePart) -> Result<(), ReadError>
        ensures { TakesPart result part self.old self.new }
    {
        match part {
            ImagePart::Session(session) => {
                if self.tree.sessions().get(session.id).is_some() {
                    return Err(ReadError::Fault(Fault::BadImage));
                }
                self.tree.put_session(session.id, session.timeout)?;
                self.ended = false;
            }
            ImagePart::Acl(entry) => {
                if comes_late(self.dialect, &self.tree) || self.lists.contains(entry.key) {
                    return Err(ReadError::Fault(Fault::BadImage));
                }
                self.lists.insert(entry.key, AclList::new(entry.list))?;
                self.ended = false;
            }
            ImagePart::Node(node) => {
                let listed = self.lists.list(node.acl)?;
                let Some(acl) = or_missing(self.dialect, alloc, listed) else {
                    return Err(ReadError::Fault(Fault::BadImage));
                };
                let placed = Node {
                    bytes: node.bytes,
                    acl,
                    stat: loaded_stat(self.dialect, node.stat),
                    mark: mark_in(self.dialect, node.stat.ephemeral_owner),
                    children: TextSet::new(alloc),
                };
                if !self.tree.put_node(alloc, &node.path, placed)? {
                    return Err(ReadError::Fault(Fault::BadImage));
                }
                self.ended = false;
            }
            ImagePart::End => self.ended = true,
        }
        Ok(())
    }

    /// Whether the last part was the end.
    pub fn has_ended(&self) -> bool
        ensures { result ≡ self.now.ended }
    {
        self.ended
    }

    /// The tree that the parts so far make. Allocates nothing.
    pub fn finish(self) -> Tree
        ensures { result ≡ self.made.state }
    {
        let Loader {
            dialect: _,
            tree,
            lists,
            ended: _,
        } = self;
        drop(lists);
        tree
    }
}
