//! Writing images.

ghost use Rattle.std.specs.Prelude.{◌≡◌, [], if◌then◌else◌, IfOk, OnOk, Err};
ghost use Rattle.std.specs.FinMap as finmap;
ghost use Rattle.jute.specs.Records.{stat_persisted};
ghost use Rattle.paths_and_acls.specs.Paths.{is_root};
ghost use Rattle.snapshot_codec.specs.Written.{image_bytes, lists_from, FitsImage, FitsImageIn};
ghost use Rattle.snapshot_codec.specs.Writes.{shown_rows, IsTable, WritesBytes, sessions_bytes, FitSessions, node_bytes, FitsNode, nodes_bytes, FitNodes};
ghost use Rattle.snapshot_codec.specs.declared.write_error.WriteError.TheVariants as errors;

use crate::depth_first::{WalkPath, depth_first};
use crate::fields::SIGNATURE;
use crate::fits::{fits_bytes, fits_text};
use crate::key_table::KeyTable;
use crate::owner::{keeps_owner, stored_stat};
use crate::write_error::WriteError;
use data_tree::{Node, Timeouts, Tree};
use jute::{COUNT_LIMIT, StatPersisted, WriteRecord, put_blob, put_int, put_long, put_string};
use settings::Dialect;
use std::alloc::Global;
use std::collections::BTreeMap;

// Appends the number of sessions, and the sessions.
fn put_sessions(out: &mut Vec<u8>, sessions: &Timeouts) -> Result<(), WriteError>
    ensures { WritesBytes result (sessions_bytes (finmap.entries sessions.now)) out.old.items out.new.items
        (FitSessions (finmap.entries sessions.now)) }
{
    let entries = sessions.iter();
    let count = entries.len();
    if count > COUNT_LIMIT as usize {
        return Err(WriteError::NotWhole);
    }
    put_int(out, count as i32)?;
    for (id, timeout) in entries {
        put_long(out, *id)?;
        put_int(out, *timeout)?;
    }
    Ok(())
}

// The path as it is written: the root's is empty.
fn written_path(path: &str) -> &str
    ensures { result.now ≡ (if is_root path.now then [] else path.now) }
{
    if path == "/" {
        return "";
    }
    path
}

// A copy of a node's stat. Its contract tells the prover that each field is within the bounds of its type.
fn numbers(stat: &StatPersisted) -> StatPersisted
    ensures same { result ≡ stat.now }
    ensures fit { stat_persisted.Fits stat.now }
{
    StatPersisted {
        czxid: stat.czxid,
        mzxid: stat.mzxid,
        ctime: stat.ctime,
        mtime: stat.mtime,
        version: stat.version,
        cversion: stat.cversion,
        aversion: stat.aversion,
        ephemeral_owner: stat.ephemeral_owner,
        pzxid: stat.pzxid,
    }
}

// Appends a node: its path, its data, the key of its list, and its stat.
fn put_node(
    dialect: Dialect,
    out: &mut Vec<u8>,
    path: &str,
    node: &Node,
    key: &i64,
) -> Result<(), WriteError>
    ensures { WritesBytes result (node_bytes path.now node.now key.now) out.old.items out.new.items
        (FitsNode dialect path.now node.now key.now) }
{
    if !fits_text(path) || !fits_bytes(&node.bytes) || !keeps_owner(dialect, node) {
        return Err(WriteError::NotWhole);
    }
    let stat = stored_stat(node);
    put_string(out, written_path(path))?;
    put_blob(out, &node.bytes)?;
    put_long(out, *key)?;
    numbers(&stat).write(out)?;
    Ok(())
}

fn put_nodes(
    dialect: Dialect,
    alloc: Global,
    out: &mut Vec<u8>,
    table: &KeyTable,
    rows: &BTreeMap<WalkPath<'_>, &Node>,
) -> Result<(), WriteError>
    requires { IsTable dialect table.now (lists_from [] (shown_rows rows.now.entries)) }
    ensures { let walked = shown_rows rows.now.entries in
        WritesBytes result (nodes_bytes (lists_from [] walked) walked) out.old.items out.new.items
        (FitNodes dialect (lists_from [] walked) walked) }
{
    for (path, node) in rows {
        let key = table.key(dialect, alloc, &node.acl)?;
        put_node(dialect, out, path.text, node, &key)?;
    }
    Ok(())
}

/// Writes the image of a tree: its sessions in ascending order of their ids; the ACL lists of its nodes except the open
/// one, whose keys count from 1 in the order of their first use; the nodes in depth-first order, children in ascending
/// order of their bytes; and the end.
///
/// Fails with `NotWhole` exactly if the tree isn't whole, has a node whose owner an image of this dialect can't have, as a
/// container in one of ZooKeeper 3.4, or exceeds a limit of the format: 1,048,576 sessions, ACL lists, or entries of a list;
/// 4,194,304 bytes of a text, or of a node's data. Fails with `NoMemory` if an allocation is refused. Besides the image it allocates a path's and a node's address for each node, and each list once.
pub fn write_image_in(dialect: Dialect, alloc: Global, tree: &Tree) -> Result<Vec<u8>, WriteError>
    ensures written { IfOk result (λ bytes. bytes.items ≡ image_bytes tree.now) }
    ensures fits { OnOk result (FitsImageIn dialect tree.now) }
    ensures refused { result ≡ Err errors.NotWhole → ¬ FitsImageIn dialect tree.now }
{
    if !tree.is_whole(alloc)? {
        return Err(WriteError::NotWhole);
    }
    let rows = depth_first(alloc, tree)?;
    let table = KeyTable::of(dialect, alloc, &rows)?;
    let mut out = Vec::new(alloc);
    put_sessions(&mut out, tree.sessions())?;
    table.put(&mut out)?;
    put_nodes(dialect, alloc, &mut out, &table, &rows)?;
    put_string(&mut out, "/")?;
    put_string(&mut out, SIGNATURE)?;
    Ok(out)
}

/// Writes the image of ZooKeeper 3.4 of a tree, as [`write_image_in`] does.
pub fn write_image(alloc: Global, tree: &Tree) -> Result<Vec<u8>, WriteError>
    ensures written { IfOk result (λ bytes. bytes.items ≡ image_bytes tree.now) }
    ensures fits { OnOk result (FitsImage tree.now) }
    ensures refused { result ≡ Err errors.NotWhole → ¬ FitsImage tree.now }
{
    write_image_in(Dialect::Zk34, alloc, tree)
}
