//! What the reply to a write of a client shows.

ghost use Rattle.std.specs.Prelude.{◌≡◌, IfOk};
ghost use Rattle.txn_codec.specs.Row.{shown_path_of_body};
ghost use Rattle.write_replies.specs.Replies.{stat_look, created_look, data_look, look_of_write, write_look};

use crate::multi::multi_results;
use client_records::ReadKind;
use client_records::codes::OK;
use data_tree::{Tree, TxnResults};
use forwarding::WriteKind;
use jute::codes::NO_NODE;
use read_processor::{Look, Request, look};
use settings::Dialect;
use std::alloc::Global;
use txn_codec::Body;
use values::{NoMemory, Str};

// The Stat of a node, as an exists shows it.
fn stat_look(alloc: Global, tree: &Tree, path: &str) -> Result<Look, NoMemory>
    ensures { IfOk result (λ seen. seen ≡ stat_look tree.now path.now) }
{
    let request = Request {
        kind: ReadKind::Exists,
        path: Some(Str::new(path)),
        watch: false,
        rules: Dialect::Zk34,
    };
    look(alloc, tree, &[], &request)
}

// The path of a new node, and its Stat.
fn created_look(alloc: Global, tree: &Tree, path: &str) -> Result<Look, NoMemory>
    ensures { IfOk result (λ seen. seen ≡ created_look tree.now path.now) }
{
    match tree.node(path) {
        None => Look::without_body(alloc, NO_NODE),
        Some(node) => Look::of_created(alloc, path, node),
    }
}

// The data and the Stat of a node, whoever may read it.
fn data_look(alloc: Global, tree: &Tree, path: &str) -> Result<Look, NoMemory>
    ensures { IfOk result (λ seen. seen ≡ data_look tree.now path.now) }
{
    match tree.node(path) {
        None => Look::without_body(alloc, NO_NODE),
        Some(node) => Look::of_node(alloc, ReadKind::GetData, node),
    }
}

// What the reply to a write without an error shows.
fn look_of_write(alloc: Global, tree: &Tree, kind: WriteKind, body: &Body) -> Result<Look, NoMemory>
    ensures { IfOk result (λ seen. seen ≡ look_of_write tree.now kind (shown_path_of_body body.now)) }
{
    let Some(path) = body.shown_path() else {
        return Look::without_body(alloc, OK);
    };
    match kind {
        WriteKind::Create => Look::of_path(alloc, path),
        WriteKind::Create2 | WriteKind::CreateContainer | WriteKind::CreateTtl => {
            created_look(alloc, tree, path)
        }
        WriteKind::SetData | WriteKind::SetAcl => stat_look(alloc, tree, path),
        WriteKind::Reconfig => data_look(alloc, tree, path),
        WriteKind::Delete
        | WriteKind::DeleteContainer
        | WriteKind::Multi
        | WriteKind::CloseSession => Look::without_body(alloc, OK),
    }
}

/// What the reply to a write shows, once its transaction was applied: with an error that error alone, else of a create
/// the path, of a create2, a container and a node with a time to live the Stat too, of a setData and a setACL the Stat of
/// the node as the tree has it now, of a reconfig its data and its Stat, and of a delete nothing. A multi shows the
/// result of each part, and has no error itself. `body` is the transaction's, and `results` is what came of it.
///
/// Fails only if an allocation is refused.
pub fn write_look(
    alloc: Global,
    tree: &Tree,
    kind: WriteKind,
    body: &Body,
    results: &TxnResults,
) -> Result<Look, NoMemory>
    ensures { IfOk result (λ seen. seen ≡ write_look tree.now kind body.now results.now) }
{
    if let Body::Multi(parts) = body {
        let body = multi_results(alloc, parts.as_slice(), results.parts.as_slice())?;
        return Ok(Look { error: OK, body });
    }
    if results.err != 0 {
        return Look::without_body(alloc, results.err);
    }
    look_of_write(alloc, tree, kind, body)
}
