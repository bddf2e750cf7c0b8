//! Whether the next transaction is clean.

ghost use Rattle.std.specs.Prelude.{◌≡◌};
ghost use Rattle.std.specs.Option.{option_copied};
ghost use Rattle.audit.specs.Clean.{is_childless, are_childless, counts_up, is_orderly, closes_clean, counts_all};
ghost use Rattle.paths_and_acls.specs.Paths.{is_child_path};

use data_tree::{Node, Tree};
use pairs::TextKey;
use paths_and_acls::Path;
use settings::Dialect;
use txn_codec::{Operation, TxnHeader};

fn is_childless(node: Option<&Node>) -> bool
    ensures { result ≡ is_childless (option_copied node.entry) }
{
    match node {
        None => true,
        Some(node) => node.children.len() == 0,
    }
}

// Whether a create that asks for this number counts the parent's cversion up by one.
fn counts_up(wanted: i32, parent: Option<&Node>) -> bool
    ensures { result ≡ counts_up wanted (option_copied parent.entry) }
{
    match parent {
        None => true,
        Some(parent) => wanted == -1 || wanted == parent.stat.cversion.wrapping_add(1),
    }
}

// Whether the node at this path has a parent.
fn is_below_root(path: &Path) -> bool
    ensures { result ≡ is_child_path path.now }
{
    path.as_str() != "/"
}

/// Whether a create counts its parent's cversion up by one, a delete is of a node without children, and neither is of
/// "/".
pub(crate) fn is_orderly(operation: &Operation, tree: &Tree) -> bool
    ensures { result ≡ is_orderly operation.now tree.now.nodes }
{
    match operation {
        Operation::Create(create) => {
            is_below_root(&create.path)
                && counts_up(create.parent_cversion, tree.node(create.path.parent()))
        }
        Operation::Delete(delete) => {
            is_below_root(&delete.path) && is_childless(tree.node(delete.path.as_str()))
        }
        Operation::SetData(_) | Operation::Check(_) | Operation::Error(_) => true,
    }
}

fn are_childless(paths: &[TextKey], tree: &Tree) -> bool
    ensures { result ≡ are_childless tree.now.nodes paths.now }
{
    for path in paths {
        if !is_childless(tree.node(path.as_str())) {
            return false;
        }
    }
    true
}

/// Whether it is applied by the rules of ZooKeeper 3.4, by which each create and delete counts.
pub(crate) fn counts_all(header: &TxnHeader) -> bool
    ensures { result ≡ counts_all header.now.rules }
{
    matches!(header.rules, Dialect::Zk34)
}

/// Whether no ephemeral node of the session that ends has a child.
pub(crate) fn closes_clean(header: &TxnHeader, tree: &Tree) -> bool
    ensures { result ≡ closes_clean header.now.client_id tree.now }
{
    are_childless(tree.ephemerals().paths_of(header.client_id), tree)
}
