//! Logs that were counted by hand.

use audit::{AuditError, audit_stat};
use paths_and_acls::{AclField, Path};
use settings::Dialect;
use std::alloc::Global;
use std::test::Fail;
use txn_codec::{Body, Create, Delete, Operation, Owner, Txn, TxnHeader};
use values::Listed;

// Session 9's transaction number `zxid`.
fn txn(zxid: i64, body: Body) -> Txn {
    Txn {
        header: TxnHeader {
            client_id: 9,
            cxid: 1,
            zxid,
            time: 1000,
            rules: Dialect::Zk34,
        },
        body,
    }
}

fn create(alloc: Global, path: &str, ephemeral: bool, wanted: i32) -> Result<Operation, Fail> {
    Ok(Operation::Create(Create {
        path: Path::new(alloc, path)?,
        bytes: None,
        acl: AclField::null(),
        owner: if ephemeral {
            Owner::Client
        } else {
            Owner::Nobody
        },
        asks_stat: false,
        parent_cversion: wanted,
    }))
}

fn delete(alloc: Global, path: &str) -> Result<Operation, Fail> {
    Ok(Operation::Delete(Delete {
        path: Path::new(alloc, path)?,
        of_container: false,
    }))
}

fn single(zxid: i64, operation: Operation) -> Txn {
    txn(zxid, Body::Single(operation))
}

// Each operation as a transaction, numbered from 1.
fn log_of(alloc: Global, operations: Vec<Operation>) -> Result<Vec<Txn>, Fail> {
    let mut log = Vec::new(alloc);
    for (zxid, operation) in (1..).zip(operations) {
        log.push(single(zxid, operation))?;
    }
    Ok(log)
}

// The result of the audit, in words.
fn audited(alloc: Global, log: &[Txn], path: &str) -> Result<String, Fail> {
    match audit_stat(alloc, log, path) {
        Ok(Some((cversion, pzxid))) => Ok(format!(in alloc; "{cversion} {pzxid}")?),
        Ok(None) => Ok(format!(in alloc; "none")?),
        Err(AuditError::NotClean(i)) => Ok(format!(in alloc; "not clean at {i}")?),
        Err(AuditError::NoMemory) => Ok(format!(in alloc; "no memory")?),
    }
}

#[test]
fn creates_are_counted(rt: HostRuntime) -> Result<(), Fail> {
    let alloc = rt.alloc();
    let log = log_of(alloc, vec![in alloc; create(alloc, "/a", false, -1)?]?)?;
    assert_eq!(rt; audited(alloc, log.as_slice(), "/a")?.as_str(), "0 1");
    assert_eq!(rt; audited(alloc, log.as_slice(), "/")?.as_str(), "0 1");
    assert_eq!(rt;
        audited(alloc, log.as_slice(), "/zookeeper")?.as_str(),
        "-1 0"
    );
    assert_eq!(rt;
        audited(alloc, log.as_slice(), "/zookeeper/quota")?.as_str(),
        "0 0"
    );
    assert_eq!(rt; audited(alloc, log.as_slice(), "/q")?.as_str(), "none");
    assert_eq!(rt; audited(alloc, log.as_slice(), "/a/")?.as_str(), "none");
    Ok(())
}

#[test]
fn a_birth_begins_anew(rt: HostRuntime) -> Result<(), Fail> {
    let alloc = rt.alloc();
    let mut operations = Vec::new(alloc);
    operations.push(create(alloc, "/a", false, 1)?)?;
    operations.push(create(alloc, "/a/b", false, -1)?)?;
    operations.push(delete(alloc, "/a/b")?)?;
    let before = log_of(alloc, operations)?;
    assert_eq!(rt; audited(alloc, before.as_slice(), "/a")?.as_str(), "2 3");
    let mut log = before;
    log.push(single(4, delete(alloc, "/a")?))?;
    assert_eq!(rt; audited(alloc, log.as_slice(), "/a")?.as_str(), "none");
    log.push(single(5, create(alloc, "/a", false, 2)?))?;
    assert_eq!(rt; audited(alloc, log.as_slice(), "/a")?.as_str(), "0 5");
    assert_eq!(rt; audited(alloc, log.as_slice(), "/")?.as_str(), "2 5");
    Ok(())
}

#[test]
fn what_is_not_clean_is_named(rt: HostRuntime) -> Result<(), Fail> {
    let alloc = rt.alloc();
    let mut log = Vec::new(alloc);
    log.push(single(1, create(alloc, "/a", false, -1)?))?;
    log.push(single(2, create(alloc, "/a", false, -1)?))?;
    assert_eq!(rt;
        audited(alloc, log.as_slice(), "/a")?.as_str(),
        "not clean at 1"
    );
    log.truncate(1);
    log.push(single(2, create(alloc, "/b", false, 5)?))?;
    assert_eq!(rt;
        audited(alloc, log.as_slice(), "/a")?.as_str(),
        "not clean at 1"
    );
    log.truncate(1);
    log.push(single(2, create(alloc, "/", false, -1)?))?;
    assert_eq!(rt;
        audited(alloc, log.as_slice(), "/")?.as_str(),
        "not clean at 1"
    );
    log.truncate(1);
    log.push(single(2, create(alloc, "/a/b", false, -1)?))?;
    log.push(single(3, delete(alloc, "/a")?))?;
    assert_eq!(rt;
        audited(alloc, log.as_slice(), "no path")?.as_str(),
        "not clean at 2"
    );
    Ok(())
}

// A multi of these parts.
fn multi(zxid: i64, parts: Vec<Operation>) -> Txn {
    txn(zxid, Body::Multi(Listed::from_vec(parts)))
}

#[test]
fn parts_are_counted_one_by_one(rt: HostRuntime) -> Result<(), Fail> {
    let alloc = rt.alloc();
    let mut parts = Vec::new(alloc);
    parts.push(create(alloc, "/m", false, -1)?)?;
    parts.push(create(alloc, "/m/x", false, 1)?)?;
    parts.push(delete(alloc, "/m/x")?)?;
    let mut log = Vec::new(alloc);
    log.push(multi(7, parts))?;
    assert_eq!(rt; audited(alloc, log.as_slice(), "/m")?.as_str(), "2 7");
    let mut failed = Vec::new(alloc);
    failed.push(create(alloc, "/n", false, -1)?)?;
    failed.push(Operation::Error(0))?;
    log.push(multi(8, failed))?;
    assert_eq!(rt;
        audited(alloc, log.as_slice(), "/m")?.as_str(),
        "not clean at 1"
    );
    Ok(())
}

#[test]
fn a_session_that_ends_takes_its_nodes(rt: HostRuntime) -> Result<(), Fail> {
    let alloc = rt.alloc();
    let mut log = Vec::new(alloc);
    log.push(txn(1, Body::CreateSession(4000)))?;
    log.push(single(2, create(alloc, "/e", true, -1)?))?;
    log.push(single(3, create(alloc, "/f", true, -1)?))?;
    log.push(txn(4, Body::CloseSession(Listed::from_vec(Vec::new(alloc)))))?;
    assert_eq!(rt; audited(alloc, log.as_slice(), "/e")?.as_str(), "none");
    assert_eq!(rt; audited(alloc, log.as_slice(), "/")?.as_str(), "3 4");
    log.truncate(3);
    log.push(single(4, create(alloc, "/e/x", false, -1)?))?;
    log.push(txn(5, Body::CloseSession(Listed::from_vec(Vec::new(alloc)))))?;
    assert_eq!(rt;
        audited(alloc, log.as_slice(), "/")?.as_str(),
        "not clean at 4"
    );
    Ok(())
}
