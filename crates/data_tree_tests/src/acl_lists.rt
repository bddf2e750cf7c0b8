//! Access control lists: the open one, and any other.

use jute::codes::{ALL, open_list};
use jute::{Acl, Id};
use paths_and_acls::{AclField, AclList};
use std::alloc::{AllocError, Global};
use std::test::Fail;
use values::{Blob, Listed};

// An entry that grants every client these permissions.
fn entry_of(alloc: Global, perms: i32) -> Result<Acl, Fail> {
    let scheme = Blob::new(alloc, b"world")?;
    let id = Blob::new(alloc, b"anyone")?;
    Ok(Acl {
        perms,
        id: Id { scheme, id },
    })
}

// Whether a list is the open one, and so is its copy.
fn is_open(acl: &AclField) -> Result<bool, Fail> {
    let list = acl.to_list()?;
    Ok(list.listed().is_none() && list.clone()?.listed().is_none())
}

// Whether a list has one entry with these permissions, and so has its copy.
fn keeps(alloc: Global, perms: i32) -> Result<bool, Fail> {
    let mut entries = Vec::new(alloc);
    entries
        .push(entry_of(alloc, perms)?)
        .map_err(AllocError::from)?;
    let list = AclList::from_entries(Listed::from_vec(entries));
    let wanted = [entry_of(alloc, perms)?];
    let copy = list.clone()?;
    Ok(list.listed() == Some(wanted.as_slice()) && copy.listed() == Some(wanted.as_slice()))
}

#[test]
fn the_open_list_has_no_entries_of_its_own(rt: HostRuntime) -> Result<(), Fail> {
    assert!(rt; AclList::open().listed().is_none());
    assert!(rt; is_open(&AclField::null())?);
    assert!(rt; is_open(&AclField::from_entries(open_list(rt.alloc())?))?);
    Ok(())
}

#[test]
fn any_other_list_is_kept(rt: HostRuntime) -> Result<(), Fail> {
    assert!(rt; keeps(rt.alloc(), ALL - 1)?);
    assert!(rt; !keeps(rt.alloc(), ALL)?);
    Ok(())
}
