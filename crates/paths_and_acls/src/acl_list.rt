//! Access control lists.

ghost use Rattle.std.specs.Prelude.{◌≡◌, ◌≢◌, ◌↔◌, ◌==◌, length, IfSome, IfNone, IsTrue, codes};
ghost use Rattle.jute.specs.Codes.{open_acl};
ghost use Rattle.paths_and_acls.specs.Acls.{acl_or_open};

use jute::codes::ALL;
use jute::{Acl, Id};
use std::alloc::AllocError;
use std::marker::Model;
use values::Listed;

/// A node's access control list; its model is the list of entries. The open list, which nearly every node has, takes no
/// memory.
#[derive(Drop)]
pub struct AclList {
    // `None` is the open list.
    entries: Option<Listed<Acl>>,
}

impl Model for AclList {
    ghost use Rattle.std.specs.Prelude.{List, Some, ◌≢◌};
    ghost use Rattle.jute.specs.Codes.{open_acl};
    ghost use Rattle.jute.specs.declared.owned.Acl.{Acl};
    ghost use Rattle.paths_and_acls.specs.Acls.{acl_or_open};

    ghost Value = { List Acl };

    ghost view = { λ l. acl_or_open l.entries };

    ghost invariant = { λ l. l.entries ≢ Some open_acl };
}

// Whether the id is `world:anyone`.
fn is_anyone(id: &Id) -> bool
    ensures { IsTrue result ↔ (id.now ≡ record { scheme = codes "world"; id = codes "anyone" }) }
{
    if id.scheme.as_slice() != b"world".as_slice() {
        return false;
    }
    id.id.as_slice() == b"anyone".as_slice()
}

// Whether the entries are those of the open list.
pub(crate) fn are_open(entries: &[Acl]) -> bool
    ensures { IsTrue result ↔ (entries.now ≡ open_acl) }
{
    match entries {
        [entry] => {
            if entry.perms != ALL {
                return false;
            }
            is_anyone(&entry.id)
        }
        _ => false,
    }
}

impl AclList {
    /// The list that grants every client everything.
    pub fn open() -> AclList
        ensures { result ≡ open_acl }
    {
        AclList { entries: None }
    }

    /// The list of these entries. Allocates nothing.
    pub fn from_entries(entries: Listed<Acl>) -> AclList
        ensures { result ≡ entries }
    {
        if are_open(entries.as_slice()) {
            return AclList::open();
        }
        AclList {
            entries: Some(entries),
        }
    }

    /// The list of these entries; null is the open list. Allocates nothing.
    pub fn new(acl: Option<Listed<Acl>>) -> AclList
        ensures { result ≡ acl_or_open acl }
    {
        match acl {
            None => AclList::open(),
            Some(entries) => AclList::from_entries(entries),
        }
    }

    /// Whether it has no entry, and grants nothing.
    pub fn is_empty(&self) -> bool
        ensures { result ≡ (length self.now == 0) }
    {
        match &self.entries {
            None => return false,
            Some(entries) => entries.as_slice().is_empty(),
        }
    }

    /// The entries, unless the list is the open one.
    pub fn listed(&self) -> Option<&[Acl]>
        ensures entries { IfSome result (λ entries. entries.now ≡ self.now) }
        ensures not_open { IfSome result (λ entries. entries.now ≢ open_acl) }
        ensures open { IfNone result (self.now ≡ open_acl) }
    {
        match &self.entries {
            None => return None,
            Some(entries) => Some(entries.as_slice()),
        }
    }
}

impl Clone for AclList {
    ghost is_clone = { λ x y. y ≡ x };

    fn clone(&self) -> Result<AclList, AllocError> {
        Ok(AclList {
            entries: self.entries.clone()?,
        })
    }
}
