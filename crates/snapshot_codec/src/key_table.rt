//! The ACL lists of an image, and their keys.

ghost use Rattle.std.specs.Prelude.{◌≡◌, ◌≤◌, ◌++◌, [], OnOk};
ghost use Rattle.std.specs.BTreeMap.{btree_map_len};
ghost use Rattle.jute.specs.Format.{count_limit};
ghost use Rattle.settings.specs.declared.dialect.Dialect.{Dialect as TheDialect};
ghost use Rattle.snapshot_codec.specs.Written.{Lists, lists_from};
ghost use Rattle.snapshot_codec.specs.Writes.{shown_rows, GivesList, IsTable, AddsList, MakesTable, NamesKey, table_bytes};

use crate::depth_first::WalkPath;
use crate::fits::fits_list;
use crate::write_error::WriteError;
use data_tree::Node;
use jute::{Acl, COUNT_LIMIT, put_int, put_items, put_long};
use paths_and_acls::AclList;
use settings::Dialect;
use std::alloc::Global;
use std::collections::BTreeMap;
use values::NoMemory;

/// The key of the open list, which isn't written in an image.
const OPEN_KEY: i64 = -1;

// The bytes of a list, if it is within the limits.
fn list_bytes(dialect: Dialect, alloc: Global, list: &[Acl]) -> Result<Vec<u8>, WriteError>
    ensures { GivesList dialect result list.now }
{
    if !fits_list(dialect, list) {
        return Err(WriteError::NotWhole);
    }
    let mut bytes = Vec::new(alloc);
    put_int(&mut bytes, list.len() as i32)?;
    put_items(&mut bytes, list)?;
    Ok(bytes)
}

/// The lists that nodes use, except the open one, each once. Their keys count from 1 in the order in which the lists
/// are added.
#[derive(Drop)]
pub struct KeyTable {
    // The key of each list, by the list's bytes.
    keys: BTreeMap<Vec<u8>, i64>,
    // The keys with their lists, as they are written.
    written: Vec<u8>,
}

impl KeyTable {
    // Adds a list that has no key yet.
    fn add(&mut self, dialect: Dialect, alloc: Global, acl: &AclList) -> Result<(), WriteError>
        ensures { (lists : Lists) → IsTable dialect self.old lists → AddsList dialect result lists acl.now self.new }
    {
        let Some(list) = acl.listed() else {
            return Ok(());
        };
        let bytes = list_bytes(dialect, alloc, list)?;
        if self.keys.get(bytes.as_slice()).is_some() {
            return Ok(());
        }
        let count = self.keys.len();
        if count >= COUNT_LIMIT as usize {
            return Err(WriteError::NotWhole);
        }
        let key = count as i64 + 1;
        put_long(&mut self.written, key)?;
        self.written.extend_from_slice(bytes.as_slice())?;
        self.keys.insert(bytes, key)?;
        Ok(())
    }

    /// The lists of the nodes, in the order of their first use. Fails with `NotWhole` if one of them, or their number,
    /// exceeds a limit.
    pub fn of(
        dialect: Dialect,
        alloc: Global,
        rows: &BTreeMap<WalkPath<'_>, &Node>,
    ) -> Result<KeyTable, WriteError>
        ensures { MakesTable dialect result (lists_from [] (shown_rows rows.now.entries)) }
    {
        let mut table = KeyTable {
            keys: BTreeMap::new(alloc),
            written: Vec::new(alloc),
        };
        for (_, node) in rows {
            table.add(dialect, alloc, &node.acl)?;
        }
        Ok(table)
    }

    /// The key of a node's list.
    pub fn key(&self, dialect: Dialect, alloc: Global, acl: &AclList) -> Result<i64, WriteError>
        ensures { (lists : Lists) → IsTable dialect self.now lists → NamesKey dialect result lists acl.now }
    {
        let Some(list) = acl.listed() else {
            return Ok(OPEN_KEY);
        };
        let bytes = list_bytes(dialect, alloc, list)?;
        match self.keys.get(bytes.as_slice()) {
            None => Ok(OPEN_KEY),
            Some(key) => Ok(*key),
        }
    }

    /// Appends the number of lists, and the keys with their lists.
    pub fn put(&self, out: &mut Vec<u8>) -> Result<(), NoMemory>
        requires { btree_map_len self.now.keys ≤ count_limit }
        ensures { (dialect : TheDialect) (lists : Lists) → IsTable dialect self.now lists
            → OnOk result (out.new.items ≡ out.old.items ++ table_bytes lists) }
    {
        put_int(out, self.keys.len() as i32)?;
        out.extend_from_slice(self.written.as_slice())?;
        Ok(())
    }
}
