//! What the images of later leaders have that those of ZooKeeper 3.4 haven't.

ghost use Rattle.std.specs.Prelude.{◌≡◌, ◌↔◌, IsTrue};
ghost use Rattle.snapshot_codec.specs.Dialects.{is_mark_in, owning_session, mark_in, loaded_stat, stored_owner, stored_stat, KeepsOwner, or_missing, comes_late};

use data_tree::{Node, Tree};
use jute::StatPersisted;
use paths_and_acls::AclList;
use settings::Dialect;
use std::alloc::Global;
use values::Listed;

// The least number of a time to live, and the first one past them all.
const FIRST_TTL: i64 = -(1 << 56);

const PAST_TTL: i64 = (1 << 40) - (1 << 56);

// Whether the owner of a node in an image is no session.
fn is_mark_in(dialect: Dialect, owner: i64) -> bool
    ensures { result ≡ is_mark_in dialect owner }
{
    match dialect {
        Dialect::Zk34 => false,
        Dialect::Zk38 => owner == i64::MIN || (owner >= FIRST_TTL && owner < PAST_TTL),
    }
}

// The session that owns a node, by the owner in an image.
fn owning_session(dialect: Dialect, owner: i64) -> i64
    ensures { result ≡ owning_session dialect owner }
{
    if is_mark_in(dialect, owner) {
        return 0;
    }
    owner
}

/// The number of a node that the leader deletes, by the owner in an image.
pub(crate) fn mark_in(dialect: Dialect, owner: i64) -> i64
    ensures { result ≡ mark_in dialect owner }
{
    if is_mark_in(dialect, owner) {
        return owner;
    }
    0
}

/// The stat of a node, by that in an image.
pub(crate) fn loaded_stat(dialect: Dialect, stat: StatPersisted) -> StatPersisted
    ensures { result ≡ loaded_stat dialect stat }
{
    let mut loaded = stat;
    loaded.ephemeral_owner = owning_session(dialect, stat.ephemeral_owner);
    loaded
}

// The owner that an image has for a node.
fn stored_owner(node: &Node) -> i64
    ensures { result ≡ stored_owner node.now }
{
    if node.mark == 0 {
        return node.stat.ephemeral_owner;
    }
    node.mark
}

/// The stat that an image has for a node.
pub(crate) fn stored_stat(node: &Node) -> StatPersisted
    ensures { result ≡ stored_stat node.now }
{
    let mut stored = node.stat;
    stored.ephemeral_owner = stored_owner(node);
    stored
}

/// Whether the owner that is written is read back.
pub(crate) fn keeps_owner(dialect: Dialect, node: &Node) -> bool
    ensures { IsTrue result ↔ KeepsOwner dialect node.now }
{
    let owner = stored_owner(node);
    owning_session(dialect, owner) == node.stat.ephemeral_owner
        && mark_in(dialect, owner) == node.mark
}

/// The list of a node; in a later dialect the empty list, if the image lacks it.
pub(crate) fn or_missing(
    dialect: Dialect,
    alloc: Global,
    listed: Option<AclList>,
) -> Option<AclList>
    ensures { result ≡ or_missing dialect listed }
{
    match dialect {
        Dialect::Zk34 => listed,
        Dialect::Zk38 => match listed {
            Some(list) => Some(list),
            None => Some(AclList::new(Some(Listed::from_vec(Vec::new(alloc))))),
        },
    }
}

/// Whether a list comes after a node, where it may not.
pub(crate) fn comes_late(dialect: Dialect, tree: &Tree) -> bool
    ensures { result ≡ comes_late dialect tree.now.nodes }
{
    match dialect {
        Dialect::Zk34 => false,
        Dialect::Zk38 => tree.paths() != 0,
    }
}
