//! Reads of the tree.

ghost use Rattle.std.specs.Prelude.{◌≡◌, ◌&&◌, IfOk};
ghost use Rattle.std.specs.Option.{option_copied};
ghost use Rattle.read_processor.specs.Look.{look_at_state, look_at_acl, look_at_node, is_request_path};

use crate::kinds::{guards_acl, read_row};
use crate::request::Request;
use crate::shown::Look;
use data_tree::{Node, Tree};
use jute::Id;
use jute::codes::{BAD_ARGUMENTS, NO_AUTH, NO_NODE};
use permissions::{may_read, may_see_acl};
use std::alloc::Global;
use values::NoMemory;

/// Whether a path may be read: it begins with a slash and has no NUL.
pub fn is_readable_path(path: &[u8]) -> bool
    ensures { result ≡ is_request_path path.now }
{
    path.starts_with(b"/") && !path.contains(&0)
}

// The answer to a getACL of a later client.
fn look_at_acl(alloc: Global, ids: &[Id], node: &Node) -> Result<Look, NoMemory>
    ensures { IfOk result (λ shown. shown ≡ look_at_acl ids.now node.now) }
{
    if !may_see_acl(ids, &node.acl) {
        return Look::without_body(alloc, NO_AUTH);
    }
    Look::of_acl(alloc, ids, node)
}

fn look_at_node(
    alloc: Global,
    ids: &[Id],
    request: &Request<'_>,
    node: Option<&Node>,
) -> Result<Look, NoMemory>
    ensures { IfOk result
        (λ shown. shown ≡ look_at_node ids.now request.now (option_copied node.entry)) }
{
    let Some(node) = node else {
        return Look::without_body(alloc, NO_NODE);
    };
    if guards_acl(request.kind, request.rules) {
        return look_at_acl(alloc, ids, node);
    }
    if read_row(request.kind).needs_read && !may_read(request.rules, ids, &node.acl) {
        return Look::without_body(alloc, NO_AUTH);
    }
    Look::of_node(alloc, request.kind, node)
}

/// The answer to a read by a client with these ids. Fails only if an allocation is refused.
pub fn look(alloc: Global, tree: &Tree, ids: &[Id], request: &Request<'_>) -> Result<Look, NoMemory>
    ensures { IfOk result (λ shown. shown ≡ look_at_state tree.now ids.now request.now) }
{
    let Some(path) = &request.path else {
        return Look::without_body(alloc, BAD_ARGUMENTS);
    };
    if !is_readable_path(path.as_str().as_bytes()) {
        return Look::without_body(alloc, BAD_ARGUMENTS);
    }
    look_at_node(alloc, ids, request, tree.node(path.as_str()))
}
