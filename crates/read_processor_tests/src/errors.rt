//! Errors of reads, and the permission to read.

use crate::calls::{error_of, id_of, read_of, tree_after};
use client_records::ReadKind;
use data_tree::Tree;
use jute::Id;
use read_processor::Request;
use settings::Dialect;
use std::alloc::Global;
use std::slice;
use std::test::Fail;

/// Session 7 creates /s, which only the digest id of super may read.
const CREATE_S: &str = "0000000000000007 00000001 0000000100000001 00000000000003e8 00000001 \
    00000002 2f73 00000001 78 00000001 00000001 00000006 646967657374 00000022 \
    73757065723a78514a6d784c4d69484777617142767374357936726b42364851733d 00 ffffffff";

/// The node /w has an entry for every client, with every permission except READ.
const CREATE_W: &str = "0000000000000007 00000001 0000000100000001 00000000000003e8 00000001 \
    00000002 2f77 00000001 78 00000001 0000001e 00000005 776f726c64 00000006 616e796f6e65 \
    00 ffffffff";

/// The node /o has an empty list.
const CREATE_O: &str = "0000000000000007 00000001 0000000100000001 00000000000003e8 00000001 \
    00000002 2f6f 00000001 78 00000000 00 ffffffff";

const SUPER: &str = "super:xQJmxLMiHGwaqBvst5y6rkB6HQs=";

/// The reads.
const KINDS: [ReadKind; 5] = [
    ReadKind::Exists,
    ReadKind::GetData,
    ReadKind::GetAcl,
    ReadKind::GetChildren,
    ReadKind::GetChildren2,
];

// The error of each read of a path.
fn errors(alloc: Global, tree: &Tree, ids: &[Id], path: &str) -> Result<[i32; 5], Fail> {
    let mut errors = [0; 5];
    for (error, kind) in errors.iter_mut().zip(KINDS) {
        *error = error_of(alloc, tree, ids, &read_of(kind, path))?;
    }
    Ok(errors)
}

// The same after a transaction, for a client without ids.
fn errors_of(alloc: Global, transaction: &str, path: &str) -> Result<[i32; 5], Fail> {
    let tree = tree_after(alloc, &[transaction])?;
    errors(alloc, &tree, &[], path)
}

// The same for /s, and a client with one id.
fn errors_with(alloc: Global, scheme: &str, id: &str) -> Result<[i32; 5], Fail> {
    let tree = tree_after(alloc, &[CREATE_S])?;
    let id = id_of(alloc, scheme, id)?;
    errors(alloc, &tree, slice::from_ref(&id), "/s")
}

// A read of a null path.
fn of_null(kind: ReadKind) -> Request<'static> {
    Request {
        kind,
        path: None,
        watch: false,
        rules: Dialect::Zk34,
    }
}

// The errors of getData and getACL of a null path.
fn errors_of_null(alloc: Global) -> Result<[i32; 2], Fail> {
    let tree = tree_after(alloc, &[])?;
    let data = of_null(ReadKind::GetData);
    let acl = of_null(ReadKind::GetAcl);
    Ok([
        error_of(alloc, &tree, &[], &data)?,
        error_of(alloc, &tree, &[], &acl)?,
    ])
}

// An exists and a getACL need no permission.
const REFUSED: [i32; 5] = [0, -102, 0, -102, -102];

/// A path with a slash at its end is another one. A path that may not be read begins with no slash, or has a NUL.
#[test]
fn what_is_missing_or_cannot_be_asked_for(rt: HostRuntime) -> Result<(), Fail> {
    let rows = [
        ("/q", -101),
        ("/o/", -101),
        ("", -8),
        ("o", -8),
        ("/o\0", -8),
    ];
    for (path, wanted) in rows {
        assert_eq!(rt; errors_of(rt.alloc(), CREATE_O, path)?, [wanted; 5]);
    }
    assert_eq!(rt; errors_of_null(rt.alloc())?, [-8; 2]);
    Ok(())
}

#[test]
fn who_may_read(rt: HostRuntime) -> Result<(), Fail> {
    let rows = [
        (CREATE_S, "/s", REFUSED),
        (CREATE_W, "/w", REFUSED),
        (CREATE_O, "/o", [0; 5]),
    ];
    for (transaction, path, wanted) in rows {
        assert_eq!(rt; errors_of(rt.alloc(), transaction, path)?, wanted);
    }
    Ok(())
}

/// An id is a scheme and a name.
#[test]
fn ids_are_shown(rt: HostRuntime) -> Result<(), Fail> {
    let rows = [
        ("digest", "super:", REFUSED),
        ("ip", SUPER, REFUSED),
        ("digest", SUPER, [0; 5]),
    ];
    for (scheme, id, wanted) in rows {
        assert_eq!(rt; errors_with(rt.alloc(), scheme, id)?, wanted);
    }
    Ok(())
}
