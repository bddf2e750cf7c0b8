//! A group of a batch.

ghost use Rattle.std.specs.Prelude.{◌≡◌, OnOk};
ghost use Rattle.std.specs.FinSet as set;
ghost use Rattle.batcher.specs.Class.{empty_group};
ghost use Rattle.batcher.specs.Inner.Joining.{with_txn_at};
ghost use Rattle.batcher.specs.Inner.Owners.{paths_of};

use crate::owners::NewPath;
use ephemerals::TextSet;
use std::alloc::Global;
use std::marker::Model;
use values::NoMemory;

/// Transactions of a batch that are applied one after the other, as their places in it, and the paths that they may
/// touch.
pub struct Group {
    members: Vec<usize>,
    paths: TextSet,
}

impl Model for Group {
    ghost use Rattle.batcher.specs.Class.{TxnGroup, txn_group_code};

    ghost Value = { TxnGroup };

    ghost coded = { txn_group_code };

    ghost view = { λ g. record { members = g.members.items; paths = g.paths } };
}

impl Drop for Group {
    fn drop(self) {
        let Group { members, paths } = self;
        drop(members);
        drop(paths);
    }
}

// Adds a path to a set.
fn add_path(alloc: Global, names: &mut TextSet, path: &str) -> Result<(), NoMemory>
    ensures { OnOk result (names.new ≡ set.insert names.old path.now) }
{
    names.insert(alloc, path)?;
    Ok(())
}

fn add_paths(alloc: Global, names: &mut TextSet, paths: &[NewPath<'_>]) -> Result<(), NoMemory>
    ensures { OnOk result (names.new ≡ set.union names.old (set.from_list (paths_of paths.now))) }
{
    for new in paths {
        add_path(alloc, names, new.path.as_str())?;
    }
    Ok(())
}

impl Group {
    /// No transaction. Allocates nothing.
    pub(crate) fn new(alloc: Global) -> Group
        ensures { result ≡ empty_group }
    {
        Group {
            members: Vec::new(alloc),
            paths: TextSet::new(alloc),
        }
    }

    /// The places of the group's transactions in the batch, ascending.
    pub fn members(&self) -> &[usize]
        ensures { result.now ≡ self.now.members }
    {
        self.members.as_slice()
    }

    /// The paths that the group's transactions may touch; the set iterates in ascending order of their bytes.
    pub fn paths(&self) -> &TextSet
        ensures { result.now ≡ self.now.paths }
    {
        &self.paths
    }

    /// Adds the transaction at the place, which may touch these paths.
    pub(crate) fn add(
        &mut self,
        alloc: Global,
        place: usize,
        paths: &[NewPath<'_>],
    ) -> Result<(), NoMemory>
        ensures { OnOk result (self.new ≡ with_txn_at self.old place (paths_of paths.now)) }
    {
        self.members.push(place)?;
        add_paths(alloc, &mut self.paths, paths)
    }
}
