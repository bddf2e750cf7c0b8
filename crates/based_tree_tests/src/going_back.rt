//! Transactions that are applied to a tree, and taken back.

ghost use Rattle.std.specs.Prelude.{◌≡◌, OnOk, IfOk};
ghost use Rattle.data_tree.specs.Meaning.{state_after, outcomes_of_txns};

use based_tree::BasedTree;
use data_tree::{HashKey, Outcome, Tree};
use paths_and_acls::{AclField, Path};
use settings::Dialect;
use std::alloc::Global;
use std::test::Fail;
use txn_codec::{Body, Create, Delete, Operation, Owner, SetData, Txn, TxnHeader};
use values::{Blob, Listed, NoMemory};

// A fresh tree: the nodes /, /zookeeper and /zookeeper/quota, no ephemeral node, one child of the root, no node /e, and
// no session 7.
const FRESH: &str = "3 0 1 -1 -1";

/// One more node, which session 7 owns and which has a byte of data. It is a child of the root.
pub const WITH_NODE: &str = "4 1 2 1 5000";

// Its data is replaced by two bytes.
const WITH_DATA: &str = "4 1 2 2 5000";

// One more node, which no session owns, with a byte of data, and then with two.
const WITH_LASTING: &str = "4 0 2 1 -1";

const WITH_LASTING_DATA: &str = "4 0 2 2 -1";

// A transaction of session 7.
fn txn_of(zxid: i64, body: Body) -> Txn {
    let header = TxnHeader {
        client_id: 7,
        cxid: 1,
        zxid,
        time: 1000,
        rules: Dialect::Zk34,
    };
    Txn { header, body }
}

/// The session begins.
pub fn begin() -> Txn {
    txn_of(1, Body::CreateSession(5000))
}

// It ends.
fn end(alloc: Global) -> Result<Txn, Fail> {
    Ok(txn_of(1, Body::CloseSession(Listed::from_vec(Vec::new(alloc)))))
}

fn path_of(alloc: Global, text: &str) -> Result<Path, Fail> {
    Ok(Path::new(alloc, text).ok().ok_or("a path")?)
}

// It creates the node /e with one byte of data.
fn create_owned(alloc: Global, zxid: i64, owner: Owner) -> Result<Txn, Fail> {
    let create = Create {
        path: path_of(alloc, "/e")?,
        bytes: Some(Blob::new(alloc, b"a")?),
        acl: AclField::null(),
        owner,
        asks_stat: false,
        parent_cversion: -1,
    };
    Ok(txn_of(zxid, Body::Single(Operation::Create(create))))
}

/// It creates /e as its ephemeral node.
pub fn create(alloc: Global) -> Result<Txn, Fail> {
    create_owned(alloc, 1, Owner::Client)
}

// It creates /e as a node of no session.
fn create_lasting(alloc: Global, zxid: i64) -> Result<Txn, Fail> {
    create_owned(alloc, zxid, Owner::Nobody)
}

// It deletes /e.
fn delete(alloc: Global, zxid: i64) -> Result<Txn, Fail> {
    let delete = Delete {
        path: path_of(alloc, "/e")?,
        of_container: false,
    };
    Ok(txn_of(zxid, Body::Single(Operation::Delete(delete))))
}

// It sets the data of /e.
fn set_data(alloc: Global, zxid: i64) -> Result<Txn, Fail> {
    let set_data = SetData {
        path: path_of(alloc, "/e")?,
        bytes: Some(Blob::new(alloc, b"bc")?),
        version: 1,
        is_reconfig: false,
    };
    Ok(txn_of(zxid, Body::Single(Operation::SetData(set_data))))
}

/// How many nodes there are, how many ephemeral nodes, how many children of the root, how many bytes of data /e has, and
/// the timeout of session 7. What isn't there is -1.
pub fn shown(alloc: Global, tree: &Tree) -> Result<String, Fail> {
    let children = tree.stat("/").map(|stat| stat.num_children).unwrap_or(-1);
    let bytes = tree.stat("/e").map(|stat| stat.data_length).unwrap_or(-1);
    let timeout = tree.sessions().get(7).unwrap_or(-1);
    Ok(format!(in alloc;
        "{} {} {children} {bytes} {timeout}",
        tree.paths(),
        tree.ephemerals().count()
    )?)
}

fn fresh(alloc: Global) -> Result<BasedTree, Fail> {
    let tree = Tree::fresh_with_key(alloc, HashKey::new(3, 5))?;
    Ok(BasedTree::new(alloc, tree))
}

// The session begins and creates its node, each as a transaction of its own.
fn add_node(alloc: Global, based: &mut BasedTree) -> Result<(), Fail> {
    based.apply(alloc, &begin())?;
    based.apply(alloc, &create(alloc)?)?;
    Ok(())
}

fn apply(alloc: Global, based: &mut BasedTree, txn: &Txn) -> Result<(), Fail> {
    based.apply(alloc, txn)?;
    Ok(())
}

// /e is created as a node of no session.
fn add_lasting(alloc: Global, based: &mut BasedTree, zxid: i64) -> Result<(), Fail> {
    apply(alloc, based, &create_lasting(alloc, zxid)?)
}

// It is created, and then gets new data.
fn add_and_set(alloc: Global, based: &mut BasedTree, zxid: i64) -> Result<(), Fail> {
    add_lasting(alloc, based, zxid)?;
    apply(alloc, based, &set_data(alloc, zxid.wrapping_add(1))?)
}

// It is deleted, created and set.
fn replace(alloc: Global, based: &mut BasedTree) -> Result<(), Fail> {
    apply(alloc, based, &delete(alloc, 2)?)?;
    add_and_set(alloc, based, 3)
}

// It is created and deleted.
fn add_and_delete(alloc: Global, based: &mut BasedTree) -> Result<(), Fail> {
    add_lasting(alloc, based, 1)?;
    apply(alloc, based, &delete(alloc, 2)?)
}

// Whether the tree shows this, and this once it has gone back.
fn shows(alloc: Global, based: &mut BasedTree, now: &str, base: &str) -> Result<bool, Fail> {
    let seen = shown(alloc, based.tree())?;
    based.go_back(alloc)?;
    Ok(seen.as_str() == now && shown(alloc, based.tree())?.as_str() == base)
}

// Applies two transactions. Any other number of them is refused.
fn apply_two(alloc: Global, tree: &mut Tree, txns: &[Txn]) -> Result<Vec<Outcome>, NoMemory>
    ensures tree { OnOk result (tree.new ≡ state_after tree.old txns.now) }
    ensures outcomes { IfOk result (λ v. v.items ≡ outcomes_of_txns tree.old txns.now) }
{
    let [first, second] = txns else {
        return Err(NoMemory);
    };
    let mut outcomes = Vec::new(alloc);
    outcomes.push(tree.apply(alloc, first)?)?;
    outcomes.push(tree.apply(alloc, second)?)?;
    Ok(outcomes)
}

// Applies the transactions as one list, and returns how many outcomes there are.
fn apply_list(alloc: Global, based: &mut BasedTree, txns: &[Txn]) -> Result<usize, Fail> {
    let doer = |tree: &mut Tree, txns: &[Txn]| -> Result<Vec<Outcome>, NoMemory>
        ensures tree { OnOk result (tree.new ≡ state_after tree.old txns.now) }
        ensures outcomes { IfOk result (λ v. v.items ≡ outcomes_of_txns tree.old txns.now) }
    { apply_two(alloc, tree, txns) };
    Ok(based.apply_all(alloc, txns, &doer)?.len())
}

#[test]
fn nothing_applied(rt: HostRuntime) -> Result<(), Fail> {
    let mut based = fresh(rt.alloc())?;
    assert!(rt; shows(rt.alloc(), &mut based, FRESH, FRESH)?);
    Ok(())
}

#[test]
fn one_by_one(rt: HostRuntime) -> Result<(), Fail> {
    let mut based = fresh(rt.alloc())?;
    add_node(rt.alloc(), &mut based)?;
    based.apply(rt.alloc(), &set_data(rt.alloc(), 1)?)?;
    assert!(rt; shows(rt.alloc(), &mut based, WITH_DATA, FRESH)?);
    Ok(())
}

#[test]
fn tree_as_base(rt: HostRuntime) -> Result<(), Fail> {
    let mut based = fresh(rt.alloc())?;
    add_node(rt.alloc(), &mut based)?;
    based.rebase(rt.alloc());
    based.apply(rt.alloc(), &set_data(rt.alloc(), 1)?)?;
    assert!(rt; shows(rt.alloc(), &mut based, WITH_DATA, WITH_NODE)?);
    Ok(())
}

#[test]
fn as_one_list(rt: HostRuntime) -> Result<(), Fail> {
    let alloc = rt.alloc();
    let mut based = fresh(alloc)?;
    let txns = [begin(), create(alloc)?];
    assert_eq!(rt; apply_list(alloc, &mut based, &txns)?, 2);
    assert!(rt; shows(alloc, &mut based, WITH_NODE, FRESH)?);
    Ok(())
}

// What the end of a session deletes comes back. The closure would refuse one transaction, but isn't called.
#[test]
fn end_of_a_session(rt: HostRuntime) -> Result<(), Fail> {
    let alloc = rt.alloc();
    let mut based = fresh(alloc)?;
    add_node(alloc, &mut based)?;
    based.rebase(alloc);
    let txns = [end(alloc)?];
    assert_eq!(rt; apply_list(alloc, &mut based, &txns)?, 1);
    assert!(rt; shows(alloc, &mut based, FRESH, WITH_NODE)?);
    Ok(())
}

// A node that is new takes no place among what is saved, and has gone with the rest.
#[test]
fn a_new_node(rt: HostRuntime) -> Result<(), Fail> {
    let alloc = rt.alloc();
    let mut based = fresh(alloc)?;
    add_and_set(alloc, &mut based, 1)?;
    assert!(rt; shows(alloc, &mut based, WITH_LASTING_DATA, FRESH)?);
    Ok(())
}

// A zxid that isn't greater than the base's nodes have doesn't tell a new node.
#[test]
fn an_earlier_zxid(rt: HostRuntime) -> Result<(), Fail> {
    let alloc = rt.alloc();
    let mut based = fresh(alloc)?;
    add_lasting(alloc, &mut based, 0)?;
    assert!(rt; shows(alloc, &mut based, WITH_LASTING, FRESH)?);
    Ok(())
}

// A node of the base that is deleted, created again and changed is as it was.
#[test]
fn created_again(rt: HostRuntime) -> Result<(), Fail> {
    let alloc = rt.alloc();
    let mut based = fresh(alloc)?;
    add_lasting(alloc, &mut based, 1)?;
    based.rebase(alloc);
    replace(alloc, &mut based)?;
    assert!(rt; shows(alloc, &mut based, WITH_LASTING_DATA, WITH_LASTING)?);
    Ok(())
}

// A node that is new is deleted again.
#[test]
fn deleted_again(rt: HostRuntime) -> Result<(), Fail> {
    let alloc = rt.alloc();
    let mut based = fresh(alloc)?;
    add_and_delete(alloc, &mut based)?;
    assert!(rt; shows(alloc, &mut based, FRESH, FRESH)?);
    Ok(())
}
