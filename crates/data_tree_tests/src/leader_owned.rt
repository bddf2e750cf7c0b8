//! Nodes that the leader deletes, and the other transactions that ZooKeeper 3.4 doesn't have.

use crate::transactions::{answers, fresh};
use data_tree::Tree;
use settings::Dialect;
use std::test::Fail;

// Session 9 creates the container /c.
const CONTAINER: &[u8; 50] =
    b"\0\0\0\0\0\0\0\x09\0\0\0\x01\0\0\0\0\0\0\0\x01\0\0\0\0\0\0\x03\xe8\0\0\0\x13\0\0\0\x02/c\xff\xff\xff\xff\xff\xff\xff\xff\xff\xff\xff\xff";
// Session 9 creates /t, which has 100,000 milliseconds to live.
const WITH_TTL: &[u8; 58] =
    b"\0\0\0\0\0\0\0\x09\0\0\0\x02\0\0\0\0\0\0\0\x02\0\0\0\0\0\0\x03\xe8\0\0\0\x15\0\0\0\x02/t\xff\xff\xff\xff\xff\xff\xff\xff\xff\xff\xff\xff\0\0\0\0\0\x01\x86\xa0";
// Session 9 creates the ephemeral /e, and asks for its Stat.
const CREATE2: &[u8; 51] =
    b"\0\0\0\0\0\0\0\x09\0\0\0\x03\0\0\0\0\0\0\0\x03\0\0\0\0\0\0\x03\xe8\0\0\0\x0f\0\0\0\x02/e\xff\xff\xff\xff\xff\xff\xff\xff\x01\xff\xff\xff\xff";
// Session 9 ends; its ephemeral nodes are listed.
const CLOSE: &[u8; 42] =
    b"\0\0\0\0\0\0\0\x09\0\0\0\x04\0\0\0\0\0\0\0\x04\0\0\0\0\0\0\x03\xe8\xff\xff\xff\xf5\0\0\0\x01\0\0\0\x02/e";
// The leader deletes /c, with a digest.
const DELETE_CONTAINER: &[u8; 50] =
    b"\0\0\0\0\0\0\0\0\0\0\0\0\0\0\0\0\0\0\0\x05\0\0\0\0\0\0\x03\xe8\0\0\0\x14\0\0\0\x02/c\0\0\0\x02\0\0\0\x01\x2c\xe4\xce\xe4";
// A reconfig of /t, as if that were the configuration's node.
const RECONFIG: &[u8; 46] =
    b"\0\0\0\0\0\0\0\x07\0\0\0\x01\0\0\0\0\0\0\0\x06\0\0\0\0\0\0\x03\xe8\0\0\0\x10\0\0\0\x02/t\xff\xff\xff\xff\xff\xff\xff\xff";
// A check of /t.
const CHECK: &[u8; 42] =
    b"\0\0\0\0\0\0\0\x07\0\0\0\x02\0\0\0\0\0\0\0\x07\0\0\0\0\0\0\x03\xe8\0\0\0\x0d\0\0\0\x02/t\0\0\0\x01";

// The owner that is shown of a node.
fn shown_owner(tree: &Tree, path: &str) -> Option<i64> {
    let stat = tree.stat(path)?;
    Some(stat.ephemeral_owner)
}

// What an image has as the owner of a node that the leader deletes.
fn mark(tree: &Tree, path: &str) -> Option<i64> {
    let node = tree.node(path)?;
    Some(node.mark)
}

#[test]
fn leader_owned_nodes_stay_when_their_session_ends(rt: HostRuntime) -> Result<(), Fail> {
    let alloc = rt.alloc();
    let mut tree = fresh(alloc)?;
    let texts: [&[u8]; 4] = [CONTAINER, WITH_TTL, CREATE2, CLOSE];
    let wanted = "0 +/c ~/; 0 +/t ~/; 0 +/e ~/; 0 -/e ~/; ";
    assert_eq!(rt;
        answers(alloc, &mut tree, Dialect::Zk38, &texts)?.as_str(),
        wanted
    );
    assert_eq!(rt; shown_owner(&tree, "/c"), Some(0));
    assert_eq!(rt; shown_owner(&tree, "/t"), Some(0));
    assert_eq!(rt; mark(&tree, "/c"), Some(i64::MIN));
    assert_eq!(rt; mark(&tree, "/t"), Some(-0xff_ffff_fffe_7960));
    Ok(())
}

#[test]
fn leader_deletes_them(rt: HostRuntime) -> Result<(), Fail> {
    let alloc = rt.alloc();
    let mut tree = fresh(alloc)?;
    let texts: [&[u8]; 5] = [CONTAINER, WITH_TTL, DELETE_CONTAINER, RECONFIG, CHECK];
    let wanted = "0 +/c ~/; 0 +/t ~/; 0 -/c ~/; 0 =/t; 0; ";
    assert_eq!(rt;
        answers(alloc, &mut tree, Dialect::Zk38, &texts)?.as_str(),
        wanted
    );
    assert!(rt; tree.node("/c").is_none());
    Ok(())
}
