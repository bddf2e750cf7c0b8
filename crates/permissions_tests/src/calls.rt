//! Ids and entries by their texts, and what a list of one entry lets a client do.

use jute::{Acl, Id};
use paths_and_acls::AclList;
use permissions::{may_administrate, may_read, may_see_acl};
use settings::Dialect;
use std::alloc::Global;
use std::slice;
use values::{Blob, Listed, NoMemory};

/// An id with this scheme and text.
pub fn id_of(alloc: Global, scheme: &str, text: &str) -> Result<Id, NoMemory> {
    Ok(Id {
        scheme: Blob::new(alloc, scheme.as_bytes())?,
        id: Blob::new(alloc, text.as_bytes())?,
    })
}

/// A list with one entry, which grants its id these permissions.
pub fn list_of(alloc: Global, perms: i32, scheme: &str, text: &str) -> Result<Vec<Acl>, NoMemory> {
    let id = id_of(alloc, scheme, text)?;
    let mut acls = Vec::new(alloc);
    acls.push(Acl { perms, id })?;
    Ok(acls)
}

/// Whether a client with the second id may read a node whose only entry lets the first read.
pub fn lets(alloc: Global, entry: [&str; 2], id: [&str; 2]) -> Result<bool, NoMemory> {
    let acls = list_of(alloc, 1, entry[0], entry[1])?;
    let list = AclList::new(Some(Listed::from_vec(acls)));
    let id = id_of(alloc, id[0], id[1])?;
    Ok(may_read(Dialect::Zk38, slice::from_ref(&id), &list))
}

/// Whether a client at this address may read a node whose only entry is for these addresses.
pub fn names(alloc: Global, entry: &str, address: &str) -> Result<bool, NoMemory> {
    lets(alloc, ["ip", entry], ["ip", address])
}

/// Whether a client with an id of this scheme may read, see the list, and administrate, by the list of nobody.
pub fn allowed(alloc: Global, scheme: &str, text: &str) -> Result<(bool, bool, bool), NoMemory> {
    let id = id_of(alloc, scheme, text)?;
    let ids = slice::from_ref(&id);
    let list = AclList::new(Some(Listed::from_vec(Vec::new(alloc))));
    Ok((
        may_read(Dialect::Zk38, ids, &list),
        may_see_acl(ids, &list),
        may_administrate(ids, &[]),
    ))
}
