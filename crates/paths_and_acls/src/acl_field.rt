//! Access control lists as fields of records.

ghost use Rattle.std.specs.Prelude.{◌≡◌, ◌++◌, None, Some, IfOk, IfSome};
ghost use Rattle.jute.specs.Codes.{open_acl};
ghost use Rattle.jute.specs.Format.{vector_of};
ghost use Rattle.jute.specs.Owned.{acl_in, acl_format};
ghost use Rattle.jute.specs.Reads.{ReadsOwned};
ghost use Rattle.paths_and_acls.specs.Acls.{acl_or_open};

use crate::acl_list::{AclList, are_open};
use jute::{Acl, Reader, WriteRecord, items_len, put_int, put_items, read_acls};
use std::alloc::{AllocError, Global};
use std::marker::Model;
use values::{Listed, NoMemory, ReadError};

// The open list as it is written: a count of one, all permissions, the scheme, and the id.
const OPEN_BYTES: &[u8] = b"\0\0\0\x01\0\0\0\x1f\0\0\0\x05world\0\0\0\x06anyone";

// What a field holds.
#[derive(Debug, Drop)]
enum Held {
    Null,
    Open,
    Entries(Listed<Acl>),
}

/// An access control list, or null, as a field of a record. Neither null nor the open list takes memory.
#[derive(Debug, Drop)]
pub struct AclField {
    held: Held,
}

impl Model for AclField {
    ghost use Rattle.std.specs.Prelude.{List, Option};
    ghost use Rattle.jute.specs.declared.owned.Acl.{Acl};
    ghost use Rattle.paths_and_acls.specs.Held.{held_entries};

    ghost Value = { Option (List Acl) };

    ghost view = { λ f. held_entries f.held };
}

// The bytes after the open list, if that is at the front.
fn after_open(bytes: &[u8]) -> Option<&[u8]>
    ensures { IfSome result (λ rest. bytes.now ≡ (vector_of acl_format).written (Some open_acl) ++ rest.now) }
{
    bytes.strip_prefix(OPEN_BYTES)
}

impl AclField {
    /// Null, which means the open list.
    pub fn null() -> AclField
        ensures { result ≡ None }
    {
        AclField { held: Held::Null }
    }

    /// The list that grants every client everything.
    pub fn open() -> AclField
        ensures { result ≡ Some open_acl }
    {
        AclField { held: Held::Open }
    }

    /// The list of these entries. Allocates nothing.
    pub fn from_entries(entries: Listed<Acl>) -> AclField
        ensures { result ≡ Some entries }
    {
        if are_open(entries.as_slice()) {
            return AclField::open();
        }
        AclField {
            held: Held::Entries(entries),
        }
    }

    /// Reads a list, in whose texts surrogates may stand or not. The faults are those of [`read_acls`]. Fails with
    /// `NoMemory` if an allocation is refused.
    pub fn read(
        surrogates: bool,
        alloc: Global,
        reader: &mut Reader<'_>,
    ) -> Result<AclField, ReadError>
        ensures { ReadsOwned (vector_of (acl_in surrogates)).read (λ f. f) result reader.old reader.new }
    {
        if let Some(rest) = after_open(reader.rest()) {
            *reader = Reader::new(rest);
            return Ok(AclField::open());
        }
        match read_acls(surrogates, alloc, reader)? {
            None => Ok(AclField::null()),
            Some(entries) => Ok(AclField::from_entries(entries)),
        }
    }

    /// A copy of the list; null means the open list. Fails only if an allocation is refused.
    pub fn to_list(&self) -> Result<AclList, NoMemory>
        ensures { IfOk result (λ list. list ≡ acl_or_open self.now) }
    {
        match &self.held {
            Held::Null | Held::Open => Ok(AclList::open()),
            Held::Entries(entries) => Ok(AclList::from_entries(entries.clone()?)),
        }
    }
}

impl WriteRecord for AclField {
    ghost format = { vector_of acl_format };

    #[tactic(auto, unfolding(jute::specs::Format::number_bytes, jute::specs::Owned::acl_in, jute::specs::Owned::id_in))]
    fn written_len(&self) -> usize {
        match &self.held {
            Held::Null => 4,
            Held::Open => OPEN_BYTES.len(),
            Held::Entries(entries) => 4 + items_len(entries.as_slice()),
        }
    }

    fn write(&self, out: &mut Vec<u8>) -> Result<(), NoMemory> {
        match &self.held {
            Held::Null => put_int(out, -1),
            Held::Open => Ok(out.extend_from_slice(OPEN_BYTES)?),
            Held::Entries(entries) => {
                put_int(out, entries.len() as i32)?;
                put_items(out, entries.as_slice())
            }
        }
    }
}

impl Clone for AclField {
    ghost is_clone = { λ x y. y ≡ x };

    fn clone(&self) -> Result<AclField, AllocError> {
        let held = match &self.held {
            Held::Null => Held::Null,
            Held::Open => Held::Open,
            Held::Entries(entries) => Held::Entries(entries.clone()?),
        };
        Ok(AclField { held })
    }
}
