//! Transactions of the dialect of ZooKeeper 3.5 to 3.9. Most rows have the bytes of a leader of 3.8, after the header.

use crate::rows::{bytes_of, row_of};
use paths_and_acls::Path;
use settings::Dialect;
use std::alloc::Global;
use std::test::Fail;
use txn_codec::{Body, Operation, decode_txn, decode_txn_in};

// Session 7, its request 1, zxid 0x100000001, at 1000.
const HEADER: &str = "00000000 00000007 00000001 00000001 00000001 00000000 000003e8";

const READ: &str = "\
a create with a digest | 00000001 00000002 2f70 00000001 50 00000001 0000001f 00000005 776f726c64 00000006 616e796f6e65 00 00000001 00000002 00000001faf454a0 | create /p Nobody false 1
a create without a digest | 00000001 00000002 2f70 00000001 50 00000001 0000001f 00000005 776f726c64 00000006 616e796f6e65 00 00000001 | create /p Nobody false 1
an ephemeral of the old form | 00000001 00000002 2f65 ffffffff ffffffff 01 | create /e Client false -1
create2 | 0000000f 00000003 2f7032 00000002 5032 00000001 0000001f 00000005 776f726c64 00000006 616e796f6e65 00 00000002 00000002 0000000283c3b12e | create /p2 Nobody true 2
a container | 00000013 00000002 2f63 00000001 43 00000001 0000001f 00000005 776f726c64 00000006 616e796f6e65 00000004 00000002 0000000479c6de74 | create /c Container true 4
a time to live | 00000015 00000002 2f74 00000001 54 00000001 0000001f 00000005 776f726c64 00000006 616e796f6e65 00000008 00000000000186a0 00000002 0000000650e0aae1 | create /t Ttl(100000) true 8
the end of a container | 00000014 00000002 2f63 00000002 000000012ce4cee4 | delete /c true
a delete | 00000002 00000002 2f63 00000002 000000012ce4cee4 | delete /c false
a reconfig | 00000010 00000011 2f7a6f6f6b65657065722f636f6e666967 00000001 78 ffffffff 00000002 000000013afa8f1b | set /zookeeper/config -1 true
new data | 00000005 00000002 2f70 00000001 78 00000001 | set /p 1 false
a check | 0000000d 00000002 2f70 00000001 00000002 00000001748e7f8c | check /p 1
a session that lists a path | fffffff5 00000001 00000003 2f6578 00000002 00000000a5ad3dbe | close /ex
a session that lists none | fffffff5 00000000 00000002 00000000a5ad3dbe | close
a list without a digest | fffffff5 00000001 00000003 2f6578 | close /ex
a digest without a list | fffffff5 00000002 00000000a5ad3dbe | close
a session's bare end | fffffff5 | close
a list with texts that are no paths of nodes, among them null and the root | fffffff5 00000006 00000002 2f61 ffffffff 00000000 00000001 2f 00000002 2f2f 00000001 61 00000002 00000000a5ad3dbe | close /a
two texts of 12 bytes, which are a digest | fffffff5 00000002 00000000 ffffffff | close
a null list | fffffff5 ffffffff | close
a list of one path in 12 bytes | fffffff5 00000001 00000004 2f616263 | close /abc
an error with a digest | ffffffff ffffff9b 00000002 00000000a5ad3dbe | error -101
a failed multi of a DIFF | 0000000e 00000004 ffffffff 0000002d 00000003 2f7a31 00000002 7a7a 00000001 0000001f 00000005 776f726c64 00000006 616e796f6e65 00 0000000c ffffffff 00000004 ffffff99 ffffffff 00000004 fffffffe ffffffff 00000004 fffffffe 00000002 00000000a5ad3dbe | multi, error 3, error -103, error -2, error -2
a container and its end in a multi | 0000000e 00000002 00000013 00000012 00000002 2f63 ffffffff ffffffff 00000004 00000014 00000006 00000002 2f63 | multi, create /c Container true 4, delete /c true
an id of two halves | 00000001 00000003 2f6561 00000000 00000001 0000001f 00000006 646967657374 00000008 eda0bdedb8803a78 00 00000001 | create /ea Nobody false 1
an id of two halves, and a digest | 0000000f 00000003 2f6561 00000000 00000001 0000001f 00000006 646967657374 00000008 eda0bdedb8803a78 00 00000001 00000002 0000000283c3b12e | create /ea Nobody true 1
a container with such an id | 00000013 00000003 2f6561 00000000 00000001 0000001f 00000006 646967657374 00000008 eda0bdedb8803a78 00000001 | create /ea Container true 1
a node with a time to live with such an id | 00000015 00000003 2f6561 00000000 00000001 0000001f 00000006 646967657374 00000008 eda0bdedb8803a78 00000001 00000000000186a0 | create /ea Ttl(100000) true 1
a list with such an id | 00000007 00000003 2f6561 00000001 0000001f 00000006 646967657374 00000008 eda0bdedb8803a78 00000001 | set-acl /ea
a half in a scheme | 00000007 00000003 2f6561 00000001 0000001f 00000003 edb080 00000000 00000001 | set-acl /ea
such an id in a multi | 0000000e 00000001 00000001 0000002e 00000003 2f6561 00000000 00000001 0000001f 00000006 646967657374 00000008 eda0bdedb8803a78 00 00000001 | multi, create /ea Nobody false 1";

const REFUSED: &str = "\
a trailer of 1 byte | 00000002 00000002 2f70 00 | TrailingBytes
a trailer of 4 bytes | 00000002 00000002 2f70 00000002 | TrailingBytes
a trailer of 8 bytes | 00000002 00000002 2f70 00000002 00000000 | TrailingBytes
a trailer of 11 bytes | 00000002 00000002 2f70 00000002 00000000 000000 | TrailingBytes
a trailer of 13 bytes | 00000002 00000002 2f70 00000002 00000000 00000000 00 | TrailingBytes
a digest after a create of the old form | 00000001 00000002 2f65 ffffffff ffffffff 01 00000002 00000000a5ad3dbe | TrailingBytes
a list past the end | fffffff5 00000002 00000003 2f6578 | Short
a list that counts -2 | fffffff5 fffffffe | BadLength
a trailer of 1 byte after a list | fffffff5 00000001 00000003 2f6578 00 | TrailingBytes
a reconfig in a multi | 0000000e 00000001 00000010 0000000e 00000002 2f70 ffffffff 00000000 | BadTxnType
a setACL in a multi | 0000000e 00000001 00000007 0000000e 00000002 2f70 ffffffff 00000000 | BadTxnType
three bytes of an error in a multi | 0000000e 00000001 ffffffff 00000003 ffffff | Short
a byte after a delete in a multi | 0000000e 00000001 00000014 00000007 00000002 2f63 00 | TrailingBytes
a container of the root | 00000013 00000001 2f ffffffff ffffffff 00000004 | BadPath
a type that is not listed | 00000011 | BadTxnType
a half without its end | 00000007 00000003 2f6561 00000001 0000001f 00000000 00000002 eda0 00000001 | BadText
a half before a letter | 00000007 00000003 2f6561 00000001 0000001f 00000000 00000003 eda061 00000001 | BadText
a half within a character | 00000007 00000003 2f6561 00000001 0000001f 00000000 00000006 e282eda080ac 00000001 | BadText
an overlong form in an id | 00000007 00000003 2f6561 00000001 0000001f 00000000 00000002 c0af 00000001 | BadText
an id past U+10FFFF | 00000007 00000003 2f6561 00000001 0000001f 00000000 00000004 f4908080 00000001 | BadText
two halves in a path | 00000007 00000007 2feda0bdedb880 ffffffff 00000001 | BadText
two halves in the path of a create | 00000001 00000007 2feda0bdedb880 00000000 ffffffff 00 00000001 | BadText";

// What ZooKeeper 3.4 doesn't write is refused in its dialect.
const EARLIER: &str = "\
a digest | 00000002 00000002 2f70 00000002 00000000a5ad3dbe | TrailingBytes
create2 | 0000000f 00000002 2f70 ffffffff ffffffff 00 00000002 | BadTxnType
a reconfig | 00000010 00000002 2f70 ffffffff ffffffff | BadTxnType
the end of a container | 00000014 00000002 2f63 | BadTxnType
a list of paths | fffffff5 00000001 00000003 2f6578 | TrailingBytes
bytes after an error in a multi | 0000000e 00000001 ffffffff 00000005 ffffff9b 00 | TrailingBytes
an id of two halves | 00000001 00000003 2f6561 00000000 00000001 0000001f 00000006 646967657374 00000008 eda0bdedb8803a78 00 00000001 | BadText
a list with such an id | 00000007 00000003 2f6561 00000001 0000001f 00000006 646967657374 00000008 eda0bdedb8803a78 00000001 | BadText
a half in a scheme | 00000007 00000003 2f6561 00000001 0000001f 00000003 edb080 00000000 00000001 | BadText";

// The bytes, after the header.
fn behind_header(alloc: Global, body: &[u8]) -> Result<Vec<u8>, Fail> {
    let mut bytes = bytes_of(alloc, HEADER)?;
    bytes.extend_from_slice(body)?;
    Ok(bytes)
}

// The operation in words.
fn operation_told(alloc: Global, operation: &Operation) -> Result<String, Fail> {
    Ok(match operation {
        Operation::Create(create) => {
            let path = create.path.as_str();
            format!(in alloc;
                "create {path} {:?} {} {}",
                create.owner, create.asks_stat, create.parent_cversion
            )?
        }
        Operation::Delete(delete) => {
            format!(in alloc; "delete {} {}", delete.path.as_str(), delete.of_container)?
        }
        Operation::SetData(set) => {
            let path = set.path.as_str();
            format!(in alloc; "set {path} {} {}", set.version, set.is_reconfig)?
        }
        Operation::Check(check) => {
            format!(in alloc; "check {} {}", check.path.as_str(), check.version)?
        }
        Operation::Error(error) => format!(in alloc; "error {error}")?,
    })
}

// The parts of a multi in words.
fn parts_told(alloc: Global, parts: &[Operation]) -> Result<String, Fail> {
    let mut told = String::from_str(alloc, "multi")?;
    for part in parts {
        told.push_str(", ")?;
        told.push_str(operation_told(alloc, part)?.as_str())?;
    }
    Ok(told)
}

// The end of a session in words.
fn close_told(alloc: Global, listed: &[Path]) -> Result<String, Fail> {
    let mut told = String::from_str(alloc, "close")?;
    for path in listed {
        told.push_str(" ")?;
        told.push_str(path.as_str())?;
    }
    Ok(told)
}

// The body in words.
fn told(alloc: Global, body: &Body) -> Result<String, Fail> {
    Ok(match body {
        Body::Single(operation) => operation_told(alloc, operation)?,
        Body::SetAcl(set_acl) => format!(in alloc; "set-acl {}", set_acl.path.as_str())?,
        Body::Multi(parts) => parts_told(alloc, parts.as_slice())?,
        Body::CreateSession(timeout) => format!(in alloc; "session {timeout}")?,
        Body::CloseSession(listed) => close_told(alloc, listed.as_slice())?,
    })
}

// Whether a row's body is read as what is expected.
fn is_read(alloc: Global, line: &str) -> Result<bool, Fail> {
    let row = row_of(alloc, line)?;
    let txn = decode_txn_in(Dialect::Zk38, alloc, &behind_header(alloc, &row.bytes)?)?;
    Ok(told(alloc, &txn.body)?.as_str() == row.expected)
}

#[test]
fn later_transactions_are_read(rt: HostRuntime) -> Result<(), Fail> {
    for line in READ.lines() {
        assert!(rt; is_read(rt.alloc(), line)?, "{line}");
    }
    Ok(())
}

// The dialect by whose rules a transaction is applied that was read in this one.
fn rules_in(dialect: Dialect, alloc: Global) -> Result<Dialect, Fail> {
    let bytes = behind_header(alloc, &bytes_of(alloc, "fffffff5")?)?;
    Ok(decode_txn_in(dialect, alloc, &bytes)?.header.rules)
}

#[test]
fn rules_are_those_of_the_dialect(rt: HostRuntime) -> Result<(), Fail> {
    assert!(rt; rules_in(Dialect::Zk34, rt.alloc())? == Dialect::Zk34);
    assert!(rt; rules_in(Dialect::Zk38, rt.alloc())? == Dialect::Zk38);
    Ok(())
}

// Whether a row's fault is the expected one in the later dialect.
fn is_refused(alloc: Global, line: &str) -> Result<bool, Fail> {
    let row = row_of(alloc, line)?;
    let bytes = behind_header(alloc, &row.bytes)?;
    let error = decode_txn_in(Dialect::Zk38, alloc, &bytes)
        .err()
        .ok_or("a transaction")?;
    Ok(format!(in alloc; "{error}")?.as_str() == row.expected)
}

#[test]
fn later_faults_are_named(rt: HostRuntime) -> Result<(), Fail> {
    for line in REFUSED.lines() {
        assert!(rt; is_refused(rt.alloc(), line)?, "{line}");
    }
    Ok(())
}

// Whether a row's body is read in the later dialect, and its fault in the earlier one is the expected one.
fn is_later(alloc: Global, line: &str) -> Result<bool, Fail> {
    let row = row_of(alloc, line)?;
    let bytes = behind_header(alloc, &row.bytes)?;
    decode_txn_in(Dialect::Zk38, alloc, &bytes)?;
    let error = decode_txn(alloc, &bytes).err().ok_or("a transaction")?;
    Ok(format!(in alloc; "{error}")?.as_str() == row.expected)
}

#[test]
fn earlier_dialect_has_none_of_them(rt: HostRuntime) -> Result<(), Fail> {
    for line in EARLIER.lines() {
        assert!(rt; is_later(rt.alloc(), line)?, "{line}");
    }
    Ok(())
}
