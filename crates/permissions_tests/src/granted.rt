//! Whom an entry grants something: by the rules of the Programmer's Guide for its scheme.

use crate::calls::{allowed, id_of, lets, list_of, names};
use paths_and_acls::AclList;
use permissions::{may_administrate, may_read, may_see_acl};
use settings::Dialect;
use std::alloc::Global;
use std::slice;
use std::test::Fail;
use values::{Listed, NoMemory};

#[test]
fn an_entry_names_a_network(rt: HostRuntime) -> Result<(), Fail> {
    let alloc = rt.alloc();
    assert!(rt; names(alloc, "10.1.0.0/16", "10.1.255.7")?);
    assert!(rt; !names(alloc, "10.1.0.0/16", "10.2.0.0")?);
    assert!(rt; names(alloc, "192.168.4.129/25", "192.168.4.255")?);
    assert!(rt; !names(alloc, "192.168.4.129/25", "192.168.4.127")?);
    assert!(rt; names(alloc, "0.0.0.0/0", "203.0.113.9")?);
    assert!(rt; !names(alloc, "10.0.0.1/33", "10.0.0.1")?);
    assert!(rt; !names(alloc, "10.0.0.1/1x", "10.0.0.1")?);
    Ok(())
}

#[test]
fn an_entry_names_an_address(rt: HostRuntime) -> Result<(), Fail> {
    let alloc = rt.alloc();
    assert!(rt; names(alloc, "127.0.0.1", "127.0.0.1")?);
    assert!(rt; names(alloc, "127.000.000.001", "127.0.0.1")?);
    assert!(rt; !names(alloc, "127.0.0.1", "127.0.0.2")?);
    assert!(rt; !names(alloc, "127.0.1", "127.0.0.1")?);
    assert!(rt; !names(alloc, "127.0.0.257", "127.0.0.1")?);
    assert!(rt; names(alloc, "2001:db8:0:0:0:0:0:1", "2001:db8:0:0:0:0:0:1")?);
    assert!(rt; !names(alloc, "2001:db8::1", "2001:db8:0:0:0:0:0:1")?);
    assert!(rt; !names(alloc, "2001:db8:0:0:0:0:0:0/64", "2001:db8:0:0:0:0:0:1")?);
    Ok(())
}

#[test]
fn an_entry_is_for_ids_of_its_scheme(rt: HostRuntime) -> Result<(), Fail> {
    let alloc = rt.alloc();
    assert!(rt; lets(alloc, ["world", "anyone"], ["digest", "ann:QQ=="])?);
    assert!(rt; lets(alloc, ["digest", "ann:QQ=="], ["digest", "ann:QQ=="])?);
    assert!(rt; !lets(alloc, ["digest", "ann:QQ=="], ["digest", "ann:QQ="])?);
    assert!(rt; !lets(alloc, ["digest", "10.0.0.1"], ["ip", "10.0.0.1"])?);
    assert!(rt; !lets(alloc, ["ip", "10.0.0.1"], ["x509", "10.0.0.1"])?);
    assert!(rt; !lets(alloc, ["x509", "10.0.0.0/8"], ["ip", "10.0.0.1"])?);
    Ok(())
}

#[test]
fn the_super_user_may_do_everything(rt: HostRuntime) -> Result<(), Fail> {
    let alloc = rt.alloc();
    assert_eq!(rt; allowed(alloc, "super", "")?, (true, true, true));
    assert_eq!(rt; allowed(alloc, "super", "10.0.0.1")?, (true, true, true));
    assert_eq!(rt;
        allowed(alloc, "digest", "super:QQ==")?,
        (false, false, false)
    );
    Ok(())
}

// Whether ann may read, see the list, and administrate, where the list grants her these permissions.
fn let_by(alloc: Global, perms: i32) -> Result<(bool, bool, bool), NoMemory> {
    let acls = list_of(alloc, perms, "digest", "ann:QQ==")?;
    let id = id_of(alloc, "digest", "ann:QQ==")?;
    let ids = slice::from_ref(&id);
    let administrates = may_administrate(ids, acls.as_slice());
    let list = AclList::new(Some(Listed::from_vec(acls)));
    Ok((
        may_read(Dialect::Zk38, ids, &list),
        may_see_acl(ids, &list),
        administrates,
    ))
}

#[test]
fn permissions_are_bits(rt: HostRuntime) -> Result<(), Fail> {
    let alloc = rt.alloc();
    assert_eq!(rt; let_by(alloc, 1)?, (true, true, false));
    assert_eq!(rt; let_by(alloc, 14)?, (false, false, false));
    assert_eq!(rt; let_by(alloc, 16)?, (false, true, true));
    assert_eq!(rt; let_by(alloc, -1)?, (true, true, true));
    Ok(())
}
