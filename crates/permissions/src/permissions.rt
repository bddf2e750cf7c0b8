//! The permissions to read and to administrate a node.

ghost use Rattle.std.specs.Prelude.{◌≡◌, codes};
ghost use Rattle.std.specs.List.{list_any};
ghost use Rattle.permissions.specs.Permissions.{lets_any_of, is_same_text, is_same_id, is_address, means_id, is_everybody, grants_any_of, any_grants, is_super, may_read, may_see_acl, may_administrate};

use crate::addresses::names_address;
use jute::codes::READ;
use jute::{Acl, Id};
use paths_and_acls::AclList;
use settings::Dialect;

/// The permission to set a node's access control list.
pub const ADMIN: u32 = 16;

// The permissions of which one is enough to see the list.
const READ_OR_ADMIN: u32 = 17;

// Whether the entry grants one of the permissions.
fn lets_any_of(permissions: u32, acl: &Acl) -> bool
    ensures { result ≡ lets_any_of permissions acl.now }
{
    acl.perms.cast_unsigned() & permissions != 0
}

// Whether the id is `world:anyone`.
fn is_everybody(id: &Id) -> bool
    ensures { result ≡ is_everybody id.now }
{
    id.scheme.as_slice() == b"world".as_slice() && id.id.as_slice() == b"anyone".as_slice()
}

fn is_same_id(a: &Id, b: &Id) -> bool
    ensures { result ≡ is_same_id a.now b.now }
{
    a.scheme.as_slice() == b.scheme.as_slice() && a.id.as_slice() == b.id.as_slice()
}

fn is_address(id: &Id) -> bool
    ensures { result ≡ is_address id.now }
{
    id.scheme.as_slice() == b"ip".as_slice()
}

// Whether the id of an entry means a client's.
fn means_id(named: &Id, id: &Id) -> bool
    ensures { result ≡ means_id named.now id.now }
{
    is_same_id(named, id)
        || (is_address(named)
            && is_address(id)
            && names_address(named.id.as_slice(), id.id.as_slice()))
}

fn means_any(ids: &[Id], named: &Id) -> bool
    ensures { result ≡ list_any (means_id named.now) ids.now }
{
    ids.iter().any(|id| means_id(named, id))
}

// Whether the entry grants one of the permissions to a client with these ids.
fn grants_any_of(permissions: u32, ids: &[Id], acl: &Acl) -> bool
    ensures { result ≡ grants_any_of permissions ids.now acl.now }
{
    lets_any_of(permissions, acl) && (means_any(ids, &acl.id) || is_everybody(&acl.id))
}

// Whether one of the entries grants one of the permissions to a client with these ids.
fn any_grants(permissions: u32, ids: &[Id], acls: &[Acl]) -> bool
    ensures { result ≡ any_grants permissions ids.now acls.now }
{
    acls.iter().any(|acl| grants_any_of(permissions, ids, acl))
}

fn is_super_id(id: &Id) -> bool
    ensures { result ≡ is_same_text id.now.scheme (codes "super") }
{
    id.scheme.as_slice() == b"super".as_slice()
}

// Whether one of the ids is the super user's.
fn is_super(ids: &[Id]) -> bool
    ensures { result ≡ is_super ids.now }
{
    ids.iter().any(|id| is_super_id(id))
}

/// Whether a client with these ids may read a node with this access control list, by the rules of a dialect. The open
/// list lets every client read.
pub fn may_read(rules: Dialect, ids: &[Id], acl: &AclList) -> bool
    ensures { result ≡ may_read rules ids.now acl.now }
{
    match acl.listed() {
        None => return true,
        Some(entries) => {
            is_super(ids)
                || any_grants(READ, ids, entries)
                || (rules == Dialect::Zk34 && entries.is_empty())
        }
    }
}

/// Whether a client with these ids may see the list itself, by the rules of later dialects.
pub fn may_see_acl(ids: &[Id], acl: &AclList) -> bool
    ensures { result ≡ may_see_acl ids.now acl.now }
{
    match acl.listed() {
        None => return true,
        Some(entries) => is_super(ids) || any_grants(READ_OR_ADMIN, ids, entries),
    }
}

/// Whether a client with these ids may administrate a node that has these entries.
pub fn may_administrate(ids: &[Id], entries: &[Acl]) -> bool
    ensures { result ≡ may_administrate ids.now entries.now }
{
    is_super(ids) || any_grants(ADMIN, ids, entries)
}
