//! The records of transactions, each by itself.

ghost use Rattle.std.specs.Prelude.{◌<◌, ◌^◌, IfOk, length};

use jute::{ReadRecord, Reader, WriteRecord};
use paths_and_acls::{AclField, Path};
use std::alloc::Global;
use std::test::Fail;
use txn_codec::{Check, Create, Owner, SetAcl, SetData};
use values::{Blob, NoMemory, ReadError};

// The version 4 of /a is compared.
const CHECK: &[u8; 10] = b"\0\0\0\x02/a\0\0\0\x04";

// The data "x" of /a, version 5.
const SET_DATA: &[u8; 15] = b"\0\0\0\x02/a\0\0\0\x01x\0\0\0\x05";

// The open list for /a, aversion 2.
const SET_ACL: &[u8; 37] =
    b"\0\0\0\x02/a\0\0\0\x01\0\0\0\x1f\0\0\0\x05world\0\0\0\x06anyone\0\0\0\x02";

// An ephemeral /a with the data "x" and the open list; the cversion of "/" becomes 3.
const CREATE: &[u8; 43] =
    b"\0\0\0\x02/a\0\0\0\x01x\0\0\0\x01\0\0\0\x1f\0\0\0\x05world\0\0\0\x06anyone\x01\0\0\0\x03";

// The path /a.
fn a_path(alloc: Global) -> Result<Path, Fail>
    ensures { IfOk result (λ p. length p < 2 ^ 31) }
{
    let path = Path::new(alloc, "/a")?;
    if path.as_str().len() != 2 {
        return Err("another path".into());
    }
    Ok(path)
}

// Whether it is the data "x".
fn is_x(alloc: Global, bytes: &Option<Blob>) -> Result<bool, NoMemory> {
    Ok(*bytes == Some(Blob::new(alloc, b"x")?))
}

// Whether it is the open list.
fn is_open(acl: &AclField) -> Result<bool, NoMemory> {
    Ok(acl.to_list()?.listed().is_none())
}

fn is_check(alloc: Global, bytes: &[u8]) -> Result<bool, ReadError> {
    let mut reader = Reader::new(bytes);
    let check = Check::read(alloc, &mut reader)?;
    Ok(check.path.as_str() == "/a" && check.version == 4 && reader.rest().is_empty())
}

fn check_written(alloc: Global) -> Result<Vec<u8>, Fail> {
    let check = Check {
        path: a_path(alloc)?,
        version: 4,
    };
    let mut out = Vec::new(alloc);
    check.write(&mut out)?;
    Ok(out)
}

fn is_set_data(alloc: Global, bytes: &[u8]) -> Result<bool, ReadError> {
    let mut reader = Reader::new(bytes);
    let set = SetData::read(alloc, &mut reader)?;
    let is_set = set.path.as_str() == "/a"
        && set.version == 5
        && !set.is_reconfig
        && reader.rest().is_empty();
    Ok(is_set && is_x(alloc, &set.bytes)?)
}

fn set_data_written(alloc: Global) -> Result<Vec<u8>, Fail> {
    let set = SetData {
        path: a_path(alloc)?,
        bytes: Some(Blob::new(alloc, b"x")?),
        version: 5,
        is_reconfig: false,
    };
    let mut out = Vec::new(alloc);
    set.write(&mut out)?;
    Ok(out)
}

fn is_set_acl(alloc: Global, bytes: &[u8]) -> Result<bool, ReadError> {
    let mut reader = Reader::new(bytes);
    let set = SetAcl::read(alloc, &mut reader)?;
    let is_set = set.path.as_str() == "/a" && set.version == 2 && reader.rest().is_empty();
    Ok(is_set && is_open(&set.acl)?)
}

#[tactic(auto, unfolding(jute::specs::Owned::acl_in, jute::specs::Owned::id_in))]
fn set_acl_written(alloc: Global) -> Result<Vec<u8>, Fail> {
    let set = SetAcl {
        path: a_path(alloc)?,
        acl: AclField::open(),
        version: 2,
    };
    let mut out = Vec::new(alloc);
    set.write(&mut out)?;
    Ok(out)
}

fn is_create(alloc: Global, bytes: &[u8]) -> Result<bool, ReadError> {
    let mut reader = Reader::new(bytes);
    let create = Create::read(alloc, &mut reader)?;
    let is_of_session = create.owner == Owner::Client && create.parent_cversion == 3;
    let is_whole = create.path.as_str() == "/a" && reader.rest().is_empty();
    let holds = is_x(alloc, &create.bytes)? && is_open(&create.acl)?;
    Ok(is_of_session && is_whole && holds)
}

#[tactic(auto, unfolding(jute::specs::Owned::acl_in, jute::specs::Owned::id_in))]
fn create_written(alloc: Global) -> Result<Vec<u8>, Fail> {
    let create = Create {
        path: a_path(alloc)?,
        bytes: Some(Blob::new(alloc, b"x")?),
        acl: AclField::open(),
        owner: Owner::Client,
        asks_stat: false,
        parent_cversion: 3,
    };
    let mut out = Vec::new(alloc);
    create.write(&mut out)?;
    Ok(out)
}

#[test]
fn records_are_read(rt: HostRuntime) -> Result<(), Fail> {
    assert!(rt; is_check(rt.alloc(), CHECK)?);
    assert!(rt; is_set_data(rt.alloc(), SET_DATA)?);
    assert!(rt; is_set_acl(rt.alloc(), SET_ACL)?);
    assert!(rt; is_create(rt.alloc(), CREATE)?);
    Ok(())
}

#[test]
fn records_are_written(rt: HostRuntime) -> Result<(), Fail> {
    assert_eq!(rt; check_written(rt.alloc())?.as_slice(), CHECK.as_slice());
    assert_eq!(rt;
        set_data_written(rt.alloc())?.as_slice(),
        SET_DATA.as_slice()
    );
    assert_eq!(rt; set_acl_written(rt.alloc())?.as_slice(), SET_ACL.as_slice());
    assert_eq!(rt; create_written(rt.alloc())?.as_slice(), CREATE.as_slice());
    Ok(())
}
