//! The reads of later clients, by replies of ZooKeeper's observer.

use crate::calls::{id_of, is_replied, tree_after};
use client_records::ReadKind;
use jute::Id;
use read_processor::{
    Look, Request, look, look_at_ephemerals, look_at_ids, look_below, look_of_sasl,
};
use settings::Dialect;
use std::alloc::Global;
use std::slice;
use std::test::Fail;
use values::Str;

/// The session of the ephemeral nodes.
const SESSION: i64 = 0x300_0000_0000_0001;

/// The session creates the ephemeral node /a.
const OWN_A: &str = "0300000000000001 00000001 0000000100000001 00000000000003e8 00000001 \
    00000002 2f61 00000000 00000001 0000001f 00000005 776f726c64 00000006 616e796f6e65 01 ffffffff";

/// It creates the ephemeral node /ab.
const OWN_AB: &str = "0300000000000001 00000002 0000000100000002 00000000000007d0 00000001 \
    00000003 2f6162 00000000 00000001 0000001f 00000005 776f726c64 00000006 616e796f6e65 \
    01 ffffffff";

/// Session 7 creates the ephemeral node /b.
const OTHER_B: &str = "0000000000000007 00000003 0000000100000003 0000000000000bb8 00000001 \
    00000002 2f62 00000000 00000001 0000001f 00000005 776f726c64 00000006 616e796f6e65 01 ffffffff";

/// The first session creates the ephemeral node /c.
const OWN_C: &str = "0300000000000001 00000004 0000000100000004 0000000000000fa0 00000001 \
    00000002 2f63 00000000 00000001 0000001f 00000005 776f726c64 00000006 616e796f6e65 01 ffffffff";

/// Session 7 creates /a.
const CREATE_A: &str = "0000000000000007 00000001 0000000100000001 00000000000003e8 00000001 \
    00000002 2f61 00000000 00000001 0000001f 00000005 776f726c64 00000006 616e796f6e65 00 ffffffff";

/// It creates /a/b.
const CREATE_A_B: &str = "0000000000000007 00000002 0000000100000002 00000000000007d0 00000001 \
    00000004 2f612f62 00000000 00000001 0000001f 00000005 776f726c64 00000006 616e796f6e65 \
    00 ffffffff";

/// It creates /a/b/c, which only an administrator may see.
const CREATE_A_B_C: &str = "0000000000000007 00000003 0000000100000003 0000000000000bb8 00000001 \
    00000006 2f612f622f63 00000000 00000001 00000010 00000006 646967657374 00000022 \
    616c6963653a5635352f703254304f706a512b6c6f77334e56414834614c766d303d 00 ffffffff";

/// It creates /ab.
const CREATE_AB: &str = "0000000000000007 00000004 0000000100000004 0000000000000fa0 00000001 \
    00000003 2f6162 00000000 00000001 0000001f 00000005 776f726c64 00000006 616e796f6e65 \
    00 ffffffff";

/// Session 7 creates /a, which everybody may read and write, and which alice and bob may administrate.
const CREATE_SHARED_A: &str =
    "0000000000000007 00000001 0000000100000001 00000000000003e8 00000001 \
    00000002 2f61 00000000 00000003 00000003 00000005 776f726c64 00000006 616e796f6e65 \
    00000010 00000006 646967657374 00000022 \
    616c6963653a5635352f703254304f706a512b6c6f77334e56414834614c766d303d \
    0000001f 00000006 646967657374 00000003 626f62 00 ffffffff";

/// Session 7 creates /w, which everybody may write.
const CREATE_W: &str = "0000000000000007 00000001 0000000100000001 00000000000003e8 00000001 \
    00000002 2f77 00000000 00000001 00000002 00000005 776f726c64 00000006 616e796f6e65 00 ffffffff";

/// The node /o has an empty list.
const CREATE_O: &str = "0000000000000007 00000001 0000000100000001 00000000000003e8 00000001 \
    00000002 2f6f 00000000 00000000 00 ffffffff";

const ALICE: &str = "alice:V55/p2T0OpjQ+low3NVAH4aLvm0=";

/// The header of a reply's frame, without an error, after its length.
const NO_ERROR: &str = "00000001 0000000000000000 00000000";

fn text_of(text: Option<&str>) -> Option<Str<'_>> {
    match text {
        None => None,
        Some(text) => Some(Str::new(text)),
    }
}

// ---- getEphemerals

// The answer to a getEphemerals of the first session.
fn own_paths(alloc: Global, prefix: Option<&str>) -> Result<Look, Fail> {
    let tree = tree_after(alloc, &[OWN_A, OWN_AB, OTHER_B, OWN_C])?;
    Ok(look_at_ephemerals(alloc, &tree, SESSION, &text_of(prefix))?)
}

/// Null, an empty text and "/" are at the front of all.
#[test]
fn own_ephemerals_are_listed(rt: HostRuntime) -> Result<(), Fail> {
    let alloc = rt.alloc();
    let all = [
        "00000027",
        NO_ERROR,
        "00000003 00000002 2f61 00000003 2f6162 00000002 2f63",
    ];
    let two = [
        "00000021",
        NO_ERROR,
        "00000002 00000002 2f61 00000003 2f6162",
    ];
    let none = ["00000014", NO_ERROR, "00000000"];
    assert!(rt; is_replied(alloc, own_paths(alloc, None)?, &all)?);
    assert!(rt; is_replied(alloc, own_paths(alloc, Some(""))?, &all)?);
    assert!(rt; is_replied(alloc, own_paths(alloc, Some("/"))?, &all)?);
    assert!(rt; is_replied(alloc, own_paths(alloc, Some("/a"))?, &two)?);
    assert!(rt; is_replied(alloc, own_paths(alloc, Some("/b"))?, &none)?);
    Ok(())
}

// ---- getAllChildrenNumber

// The answer to a getAllChildrenNumber of a client without ids.
fn below(alloc: Global, path: Option<&str>) -> Result<Look, Fail> {
    let tree = tree_after(alloc, &[CREATE_A, CREATE_A_B, CREATE_A_B_C, CREATE_AB])?;
    Ok(look_below(alloc, &tree, &[], &text_of(path))?)
}

fn is_counted(alloc: Global, path: &str, number: &str) -> Result<bool, Fail> {
    let seen = below(alloc, Some(path))?;
    is_replied(alloc, seen, &["00000014", NO_ERROR, number])
}

/// A node whose name begins alike isn't below.
#[test]
fn nodes_below_are_counted(rt: HostRuntime) -> Result<(), Fail> {
    let alloc = rt.alloc();
    assert!(rt; is_counted(alloc, "/a", "00000002")?);
    assert!(rt; is_counted(alloc, "/a/b", "00000001")?);
    assert!(rt; is_counted(alloc, "/ab", "00000000")?);
    assert!(rt; is_counted(alloc, "/", "00000006")?);
    Ok(())
}

fn error_below(alloc: Global, path: Option<&str>) -> Result<i32, Fail> {
    Ok(below(alloc, path)?.error)
}

#[test]
fn nodes_below_are_not_counted(rt: HostRuntime) -> Result<(), Fail> {
    let alloc = rt.alloc();
    assert_eq!(rt; error_below(alloc, Some("/a/b/c"))?, -102);
    assert_eq!(rt; error_below(alloc, Some("/none"))?, -101);
    assert_eq!(rt; error_below(alloc, Some("a"))?, -8);
    assert_eq!(rt; error_below(alloc, None)?, -8);
    Ok(())
}

// ---- getACL, and the permission to read

// The answer to a read of a later client after a transaction.
fn shown(
    alloc: Global,
    transaction: &str,
    ids: &[Id],
    kind: ReadKind,
    path: &str,
) -> Result<Look, Fail> {
    let tree = tree_after(alloc, &[transaction])?;
    let request = Request {
        kind,
        path: Some(Str::new(path)),
        watch: false,
        rules: Dialect::Zk38,
    };
    Ok(look(alloc, &tree, ids, &request)?)
}

// The answer to a getACL of the shared node by a client that has shown alice's id.
fn shown_to_alice(alloc: Global) -> Result<Look, Fail> {
    let id = id_of(alloc, "digest", ALICE)?;
    shown(
        alloc,
        CREATE_SHARED_A,
        slice::from_ref(&id),
        ReadKind::GetAcl,
        "/a",
    )
}

/// The first and the last entry of the shared node, and its Stat.
const EVERYBODY: &str = "00000003 00000003 00000005 776f726c64 00000006 616e796f6e65";

const BOB: &str = "0000001f 00000006 646967657374 00000003 626f62";

const STAT: &str = "0000000100000001 0000000100000001 00000000000003e8 00000000000003e8 \
    00000000 00000000 00000000 0000000000000000 00000000 00000000 0000000100000001";

/// A digest id without a colon has no hash.
#[test]
fn hashes_are_masked(rt: HostRuntime) -> Result<(), Fail> {
    let alloc = rt.alloc();
    let seen = shown(alloc, CREATE_SHARED_A, &[], ReadKind::GetAcl, "/a")?;
    let alice = "00000010 00000006 646967657374 00000007 616c6963653a78";
    let masked = ["0000009d", NO_ERROR, EVERYBODY, alice, BOB, STAT];
    assert!(rt; is_replied(alloc, seen, &masked)?);
    let alice = "00000010 00000006 646967657374 00000022 \
        616c6963653a5635352f703254304f706a512b6c6f77334e56414834614c766d303d";
    let whole = ["000000b8", NO_ERROR, EVERYBODY, alice, BOB, STAT];
    assert!(rt; is_replied(alloc, shown_to_alice(alloc)?, &whole)?);
    Ok(())
}

fn error_of(alloc: Global, transaction: &str, kind: ReadKind, path: &str) -> Result<i32, Fail> {
    Ok(shown(alloc, transaction, &[], kind, path)?.error)
}

/// An empty list grants nothing.
#[test]
fn who_may_see_a_list(rt: HostRuntime) -> Result<(), Fail> {
    let alloc = rt.alloc();
    assert_eq!(rt; error_of(alloc, CREATE_W, ReadKind::GetAcl, "/w")?, -102);
    assert_eq!(rt; error_of(alloc, CREATE_W, ReadKind::Exists, "/w")?, 0);
    assert_eq!(rt; error_of(alloc, CREATE_O, ReadKind::GetAcl, "/o")?, -102);
    assert_eq!(rt; error_of(alloc, CREATE_O, ReadKind::GetData, "/o")?, -102);
    assert_eq!(rt; error_of(alloc, CREATE_O, ReadKind::Exists, "/o")?, 0);
    Ok(())
}

// ---- whoAmI and sasl

// The answer to a whoAmI of a client that has shown one id.
fn seen_with(alloc: Global, scheme: &str, id: &str) -> Result<Look, Fail> {
    let id = id_of(alloc, scheme, id)?;
    Ok(look_at_ids(alloc, slice::from_ref(&id))?)
}

#[test]
fn ids_are_told(rt: HostRuntime) -> Result<(), Fail> {
    let alloc = rt.alloc();
    let alice = [
        "00000027",
        NO_ERROR,
        "00000001 00000006 646967657374 00000005 616c696365",
    ];
    assert!(rt; is_replied(alloc, seen_with(alloc, "digest", ALICE)?, &alice)?);
    let address = [
        "00000027",
        NO_ERROR,
        "00000001 00000002 6970 00000009 3132372e302e302e31",
    ];
    assert!(rt; is_replied(alloc, seen_with(alloc, "ip", "127.0.0.1")?, &address)?);
    Ok(())
}

#[test]
fn a_sasl_has_a_null_token(rt: HostRuntime) -> Result<(), Fail> {
    let alloc = rt.alloc();
    let null = ["00000014", NO_ERROR, "ffffffff"];
    assert!(rt; is_replied(alloc, look_of_sasl(alloc)?, &null)?);
    Ok(())
}
