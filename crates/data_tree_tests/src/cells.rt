//! Cells that are taken out of a tree, changed separately, and put back.

use crate::path_of;
use crate::transactions::fresh;
use data_tree::{Cells, Tree};
use ephemerals::TextSet;
use paths_and_acls::AclField;
use settings::Dialect;
use std::alloc::Global;
use std::test::Fail;
use txn_codec::{Body, Create, Operation, Owner, SetData, Txn, TxnHeader};
use values::Blob;

// A transaction of the session.
fn txn_of(session: i64, body: Body) -> Txn {
    let header = TxnHeader {
        client_id: session,
        cxid: 1,
        zxid: 1,
        time: 1000,
        rules: Dialect::Zk34,
    };
    Txn { header, body }
}

// The session creates an ephemeral node with one byte of data.
fn create(alloc: Global, session: i64, path: &str) -> Result<Txn, Fail> {
    let create = Create {
        path: path_of(alloc, path).ok_or("a path")?,
        bytes: Some(Blob::new(alloc, b"a")?),
        acl: AclField::null(),
        owner: Owner::Client,
        asks_stat: false,
        parent_cversion: -1,
    };
    Ok(txn_of(session, Body::Single(Operation::Create(create))))
}

// The node gets two bytes of data.
fn set_data(alloc: Global, path: &str) -> Result<Txn, Fail> {
    let set_data = SetData {
        path: path_of(alloc, path).ok_or("a path")?,
        bytes: Some(Blob::new(alloc, b"bc")?),
        version: 1,
        is_reconfig: false,
    };
    Ok(txn_of(7, Body::Single(Operation::SetData(set_data))))
}

/// A set of texts.
pub fn texts(alloc: Global, texts: &[&str]) -> Result<TextSet, Fail> {
    let mut set = TextSet::new(alloc);
    for text in texts {
        set.insert(alloc, text)?;
    }
    Ok(set)
}

// A tree with the ephemeral /e of session 9.
fn made(alloc: Global) -> Result<Tree, Fail> {
    let txn = create(alloc, 9, "/e")?;
    let mut tree = fresh(alloc)?;
    tree.apply(alloc, &txn)?;
    Ok(tree)
}

// The error of the transaction, and the number of its triggers.
fn answer(alloc: Global, cells: &mut Cells, txn: &Txn) -> Result<(i32, usize), Fail> {
    let outcome = cells.apply(alloc, txn)?;
    Ok((outcome.results.err, outcome.triggers.as_slice().len()))
}

// Applies the transaction and appends both.
fn apply(alloc: Global, cells: &mut Cells, txn: &Txn, text: &mut String) -> Result<(), Fail> {
    let (err, triggers) = answer(alloc, cells, txn)?;
    let shown = format!(in alloc; "{err} {triggers};")?;
    text.push_str(shown.as_str())?;
    Ok(())
}

// Session 7 creates /q, and /e gets new data; a session begins; a node that isn't in the cells isn't found.
fn change(alloc: Global, cells: &mut Cells, text: &mut String) -> Result<(), Fail> {
    apply(alloc, cells, &create(alloc, 7, "/q")?, text)?;
    apply(alloc, cells, &set_data(alloc, "/e")?, text)?;
    apply(alloc, cells, &txn_of(7, Body::CreateSession(5000)), text)?;
    apply(alloc, cells, &set_data(alloc, "/zookeeper")?, text)
}

// Appends the number of nodes, the number of pairs, the length of the data of /e, and the timeout of session 7.
fn add_state(alloc: Global, tree: &Tree, text: &mut String) -> Result<(), Fail> {
    let bytes = tree.stat("/e").map(|stat| stat.data_length).unwrap_or(-1);
    let timeout = tree.sessions().get(7).unwrap_or(-1);
    let shown = format!(in alloc;
        "{} {} {bytes} {timeout}",
        tree.paths(),
        tree.ephemerals().count()
    )?;
    text.push_str(shown.as_str())?;
    Ok(())
}

// The cells at the root, at /e and at /q.
fn taken(alloc: Global, tree: &mut Tree) -> Result<Cells, Fail> {
    let paths = texts(alloc, &["/", "/e", "/q"])?;
    Ok(tree.take_cells(alloc, &paths)?)
}

// Takes the cells, appends the tree without them and the outcomes in them, and returns them.
fn changed(alloc: Global, tree: &mut Tree, text: &mut String) -> Result<Cells, Fail> {
    let mut cells = taken(alloc, tree)?;
    change_and_show(alloc, tree, &mut cells, text)?;
    Ok(cells)
}

fn change_and_show(
    alloc: Global,
    tree: &Tree,
    cells: &mut Cells,
    text: &mut String,
) -> Result<(), Fail> {
    add_state(alloc, tree, text)?;
    text.push_str("|")?;
    change(alloc, cells, text)?;
    text.push_str("|")?;
    Ok(())
}

// The same, and then the tree with the cells put back, and whether it is whole.
fn move_in(alloc: Global, tree: &mut Tree, text: &mut String) -> Result<bool, Fail> {
    let cells = changed(alloc, tree, text)?;
    tree.put_cells(alloc, cells)?;
    add_state(alloc, tree, text)?;
    Ok(tree.is_whole(alloc)?)
}

fn moved(alloc: Global, text: &mut String) -> Result<bool, Fail> {
    let mut tree = made(alloc)?;
    move_in(alloc, &mut tree, text)
}

#[test]
fn cells_are_changed_apart(rt: HostRuntime) -> Result<(), Fail> {
    let mut text = String::new(rt.alloc());
    assert!(rt; moved(rt.alloc(), &mut text)?);
    assert_eq!(rt; text.as_str(), "2 0 -1 -1|0 2;0 1;0 0;-101 0;|5 2 2 -1");
    Ok(())
}
