//! Transactions. A row has its name, the bytes, and what is expected of them; bytes are hexadecimal.

use crate::rows::{bytes_of, row_of};
use jute::WriteRecord;
use settings::Dialect;
use std::alloc::Global;
use std::test::Fail;
use txn_codec::{Body, Operation, Owner, Txn, TxnHeader, TxnKind, decode_txn, encode_txn};
use values::{Fault, ReadError};

// Session 7, its request 1, zxid 0x100000001, at 1000.
const HEADER: &str = "00000000 00000007 00000001 00000001 00000001 00000000 000003e8";

// Session 7 creates /a with the data "hi", for world:anyone.
const CREATE: &str =
    "00000001 00000002 2f610000 00026869 00000001 0000001f 00000005 776f726c 64000000 06616e79 6f6e6500 00000001";

const WRITTEN: &str = "\
a create | 00000001 00000002 2f610000 00026869 00000001 0000001f 00000005 776f726c 64000000 06616e79 6f6e6500 00000001 | the same
a create of the old form, which means a parentCVersion of -1 | 00000001 00000002 2f610000 00026869 00000001 0000001f 00000005 776f726c 64000000 06616e79 6f6e6500 | 00000001 00000002 2f610000 00026869 00000001 0000001f 00000005 776f726c 64000000 06616e79 6f6e6500 ffffffff
a setData of null | 00000005 00000002 2f61ffff ffff0000 0001 | the same
a multi that failed: a create, an error of -101, a delete | 0000000e 00000003 00000001 00000013 00000002 2f6d0000 0000ffff ffff00ff ffffffff ffffff00 000004ff ffff9b00 00000200 00000600 0000022f 61 | the same
a setACL | 00000007 00000002 2f610000 00010000 001f0000 0005776f 726c6400 00000661 6e796f6e 65000000 02 | the same
a setACL with a null list | 00000007 00000001 2fffffff ff000000 03 | the same
a check of any version | 0000000d 00000001 2fffffff ff | the same
an error | ffffffff ffffff9b | the same
a session of 4 seconds | fffffff6 00000fa0 | the same
the end of a session | fffffff5 | the same
a delete | 00000002 00000004 2f612f62 | the same
an ephemeral | 00000001 00000002 2f65ffff ffffffff ffff01ff ffffff | the same
a multi without parts | 0000000e 00000000 | the same
a multi of a setData and a check | 0000000e 00000002 00000005 0000000f 00000002 2f610000 00017800 00000500 00000d00 00000a00 0000022f 61000000 04 | the same
a multi with null for its parts | 0000000e ffffffff | 0000000e 00000000";

const REFUSED: &str = "\
a type that is not listed | 00000003 | BadTxnType
no type | 000000 | Short
a path length of -2 | 00000001 fffffffe | BadLength
a path length past the limit | 00000001 00400001 | BadLength
a path past the end | 00000001 00000100 2f61 | Short
a path that is not UTF-8 | 00000001 00000002 c0af | BadText
two slashes | 00000005 00000002 2f2f | BadPath
no slash in front | 00000005 00000002 612f | BadPath
a NUL | 00000005 00000002 2f00 | BadPath
a null path | 00000005 ffffffff | BadPath
an empty path | 00000005 00000000 | BadPath
a slash at the end | 00000005 00000003 2f612f | BadPath
a create of the root | 00000001 00000001 2f | BadPath
a delete of the root | 00000002 00000001 2f | BadPath
two of the four bytes of parentCVersion | 00000001 00000002 2f61ffff ffffffff ffff00ff ff | Short
a byte behind a create | 00000001 00000002 2f61ffff ffffffff ffff00ff ffffff00 | TrailingBytes
a byte behind a closeSession | fffffff5 00 | TrailingBytes
too many parts | 0000000e 00100001 | BadLength
no part where many are counted | 0000000e 00100000 | Short
a part of type 7 | 0000000e 00000001 00000007 | BadTxnType
a multi in a multi | 0000000e 00000001 0000000e 00000004 00000000 | BadTxnType
a part with null data | 0000000e 00000001 00000001 ffffffff | Short
a part past the end, with a bad path | 0000000e 00000001 00000002 00000007 00000002 2f2f | Short
a part with a bad path | 0000000e 00000001 00000002 00000006 00000002 2f2f | BadPath
a part with a byte too many | 0000000e 00000001 ffffffff 00000005 ffffff9b 00 | TrailingBytes
a create of the old form in a multi | 0000000e 00000001 00000001 0000000f 00000002 2f6d0000 0000ffff ffff00 | Short";

// The bytes, after the header.
fn behind_header(alloc: Global, body: &[u8]) -> Result<Vec<u8>, Fail> {
    let mut bytes = bytes_of(alloc, HEADER)?;
    bytes.extend_from_slice(body)?;
    Ok(bytes)
}

// The bytes written for a copy of the transaction that the bytes spell.
fn written_again(alloc: Global, bytes: &[u8]) -> Result<Vec<u8>, Fail> {
    let txn = decode_txn(alloc, bytes)?;
    let copy = txn.clone()?;
    let mut out = Vec::new(alloc);
    encode_txn(&copy, &mut out)?;
    Ok(out)
}

// Whether the bytes written for a row's transaction are those of the row.
fn is_written_again(alloc: Global, line: &str) -> Result<bool, Fail> {
    let row = row_of(alloc, line)?;
    let body = row.bytes_or(alloc, "the same")?;
    let written = written_again(alloc, &behind_header(alloc, &row.bytes)?)?;
    Ok(written == behind_header(alloc, &body)?)
}

#[test]
fn transactions_are_written_again(rt: HostRuntime) -> Result<(), Fail> {
    for line in WRITTEN.lines() {
        assert!(rt; is_written_again(rt.alloc(), line)?, "{line}");
    }
    Ok(())
}

// The reason why the bytes spell no transaction.
fn refusal_of(alloc: Global, bytes: &[u8]) -> Option<ReadError> {
    decode_txn(alloc, bytes).err()
}

// The word of the fault for which a row's body is refused.
fn fault_of(alloc: Global, body: &[u8]) -> Result<String, Fail> {
    let error = refusal_of(alloc, &behind_header(alloc, body)?).ok_or("a transaction")?;
    Ok(format!(in alloc; "{error}")?)
}

// Whether a row's fault is the expected one.
fn is_named(alloc: Global, line: &str) -> Result<bool, Fail> {
    let row = row_of(alloc, line)?;
    Ok(fault_of(alloc, &row.bytes)?.as_str() == row.expected)
}

#[test]
fn first_fault_is_named(rt: HostRuntime) -> Result<(), Fail> {
    for line in REFUSED.lines() {
        assert!(rt; is_named(rt.alloc(), line)?, "{line}");
    }
    Ok(())
}

// The bytes of the transaction that creates /a.
fn create_bytes(alloc: Global) -> Result<Vec<u8>, Fail> {
    behind_header(alloc, &bytes_of(alloc, CREATE)?)
}

// The transaction that the bytes spell.
fn txn_of(alloc: Global, bytes: &[u8]) -> Result<Txn, Fail> {
    Ok(decode_txn(alloc, bytes)?)
}

// The bytes written for the header of a transaction.
fn header_written_again(alloc: Global, bytes: &[u8]) -> Result<Vec<u8>, Fail> {
    let txn = txn_of(alloc, bytes)?;
    let mut out = Vec::new(alloc);
    txn.header.write(&mut out)?;
    Ok(out)
}

#[test]
fn header_is_read_and_written(rt: HostRuntime) -> Result<(), Fail> {
    let bytes = bytes_of(rt.alloc(), HEADER)?;
    let written = header_written_again(rt.alloc(), &create_bytes(rt.alloc())?)?;
    assert_eq!(rt; written.as_slice(), bytes.as_slice());
    Ok(())
}

// Whether the transaction creates /a with its data, and not as an ephemeral node.
fn makes_a(txn: &Txn) -> bool {
    let Body::Single(Operation::Create(create)) = &txn.body else {
        return false;
    };
    create.path.as_str() == "/a" && create.parent_cversion == 1 && create.owner == Owner::Nobody
}

// The data of a create.
fn bytes_in(txn: &Txn) -> Option<&[u8]> {
    match &txn.body {
        Body::Single(Operation::Create(create)) => create.bytes.as_ref().map(|b| b.as_slice()),
        _ => None,
    }
}

#[test]
fn create_has_its_fields(rt: HostRuntime) -> Result<(), Fail> {
    let bytes = create_bytes(rt.alloc())?;
    let txn = txn_of(rt.alloc(), &bytes)?;
    let header = TxnHeader {
        client_id: 7,
        cxid: 1,
        zxid: 0x1_0000_0001,
        time: 1000,
        rules: Dialect::Zk34,
    };
    assert!(rt; txn.header == header);
    assert_eq!(rt; txn.body.kind().code(), 1);
    assert!(rt; makes_a(&txn));
    assert!(rt; bytes_in(&txn) == Some(b"hi".as_slice()));
    Ok(())
}

#[test]
fn codes(rt: HostRuntime) {
    for code in [1, 2, 5, 7, 13, 14, -10, -11, -1] {
        assert_eq!(rt; TxnKind::from_code(code).map(|kind| kind.code()), Ok(code));
    }
    assert_eq!(rt; TxnKind::from_code(3), Err(Fault::BadTxnType));
}
