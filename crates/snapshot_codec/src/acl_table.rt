//! ACL lists by their keys.

ghost use Rattle.std.specs.Prelude.{◌≡◌, OnOk, OnErr, IfOk, is_some};
ghost use Rattle.std.specs.FinMap as finmap;
ghost use Rattle.std.specs.Option.{option_copied};
ghost use Rattle.snapshot_codec.specs.Made.{list_at_key};

use jute::Acl;
use jute::codes::open_list;
use paths_and_acls::AclList;
use std::alloc::Global;
use std::collections::BTreeMap;
use std::marker::Model;
use values::NoMemory;

/// The key of the open list, which every image has.
const OPEN_KEY: i64 = -1;

/// The ACL lists that nodes may refer to.
#[derive(Drop)]
pub struct AclTable {
    map: BTreeMap<i64, AclList>,
}

impl Model for AclTable {
    ghost use Rattle.std.specs.FinMap as finmap;
    ghost use Rattle.jute.specs.contracts.owned.Acl as acl;
    ghost use Rattle.snapshot_codec.specs.AclLists.{AclLists, lists_code};

    ghost Value = { AclLists };

    ghost coded = { lists_code acl.the_row.coded };

    ghost view = { λ t. finmap.from_entries t.map.entries };
}

fn copy(list: &AclList) -> Result<AclList, NoMemory>
    ensures { IfOk result (λ copy. copy ≡ list.now) }
{
    Ok(list.clone()?)
}

impl AclTable {
    /// No list but the open one. Allocates nothing.
    pub fn new(alloc: Global) -> AclTable
        ensures { result ≡ finmap.empty }
    {
        AclTable {
            map: BTreeMap::new(alloc),
        }
    }

    fn get(&self, key: i64) -> Option<&AclList>
        ensures { option_copied result ≡ finmap.get self.now key }
    {
        self.map.get(&key)
    }

    /// Whether there is an entry with the key.
    pub fn contains(&self, key: i64) -> bool
        ensures { result ≡ is_some (finmap.get self.now key) }
    {
        self.get(key).is_some()
    }

    /// Inserts an entry; it replaces another one with the same key. A refused allocation leaves the table as it was.
    pub fn insert(&mut self, key: i64, list: AclList) -> Result<(), NoMemory>
        ensures ok { OnOk result (self.new ≡ finmap.insert self.old key list) }
        ensures err { OnErr result (self.new ≡ self.old) }
    {
        self.map.insert(key, list)?;
        Ok(())
    }

    /// A copy of the list with this key, or None if there is none. Fails only if an allocation is refused.
    pub fn list(&self, key: i64) -> Result<Option<AclList>, NoMemory>
        ensures { IfOk result (λ list. list ≡ list_at_key self.now key) }
    {
        if key == OPEN_KEY {
            return Ok(Some(AclList::open()));
        }
        match self.get(key) {
            None => Ok(None),
            Some(list) => Ok(Some(copy(list)?)),
        }
    }
}
