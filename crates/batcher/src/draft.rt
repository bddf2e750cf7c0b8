//! A batch while it grows.

ghost use Rattle.std.specs.Prelude.{◌≡◌, ◌++◌, ◌∷◌, [], Some, IfOk, OnOk, IsTrue};
ghost use Rattle.data_tree.specs.Footprint.{footprint};
ghost use Rattle.batcher.specs.Limits.{are_limits};
ghost use Rattle.batcher.specs.Groups.{group_for};
ghost use Rattle.batcher.specs.Inner.Owners.{get_by_path, paths_of, AreNumbered};
ghost use Rattle.batcher.specs.Inner.Joining.{with_member, unowned_paths, met_group};
ghost use Rattle.batcher.specs.Inner.Taking.{HasTaken, tagged_front_after};
ghost use Rattle.batcher.specs.Inner.Drafts.{tagged_in, IsDraft};

use crate::group::Group;
use crate::limits::Limits;
use crate::met::{Met, met_by};
use crate::owners::{NewPath, Owners};
use data_tree::HashKey;
use footprint::is_barrier;
use std::alloc::Global;
use txn_codec::Txn;
use values::{NoMemory, Str};

/// The transactions taken so far, borrowed, and their groups.
#[derive(Drop)]
pub struct Draft<'a> {
    pub txns: Vec<&'a Txn>,
    /// The group of each.
    pub numbers: Vec<usize>,
    /// The group that has a path. So a transaction finds the groups that it meets by its own paths.
    pub owners: Owners<'a>,
    pub groups: Vec<Group>,
}

// Adds the transaction at the place to a group, or to a new one after the last.
fn add_to(
    groups: &mut Vec<Group>,
    alloc: Global,
    group: usize,
    place: usize,
    paths: &[NewPath<'_>],
) -> Result<(), NoMemory>
    ensures { OnOk result
        (groups.new.items ≡ with_member groups.old.items group place (paths_of paths.now)) }
{
    if group < groups.len() {
        return groups[group].add(alloc, place, paths);
    }
    let mut opened = Group::new(alloc);
    opened.add(alloc, place, paths)?;
    groups.push(opened)?;
    Ok(())
}

// The group that was met, or a new one.
fn met_group(met: Met, new: usize) -> Option<usize>
    ensures { result ≡ met_group new met }
{
    match met {
        Met::Nothing => Some(new),
        Met::Group(group) => Some(group),
        Met::Several => None,
    }
}

impl<'a> Draft<'a> {
    // No transaction, and capacity for this many. Paths are found by a hash with this key.
    fn with_capacity(alloc: Global, key: HashKey, most: usize) -> Result<Draft<'a>, NoMemory>
        ensures draft { IfOk result IsDraft }
        ensures taken { IfOk result (λ draft. tagged_in draft ≡ []) }
    {
        Ok(Draft {
            txns: Vec::with_capacity(alloc, most)?,
            numbers: Vec::with_capacity(alloc, most)?,
            owners: Owners::keyed(alloc, key),
            groups: Vec::new(alloc),
        })
    }

    // The group for a transaction with these paths, if there is one, and the paths that no group owns yet.
    fn group_for(
        &mut self,
        paths: &[Str<'a>],
        unowned: &mut Vec<NewPath<'a>>,
    ) -> Result<Option<usize>, NoMemory>
        requires { IsDraft self.old }
        ensures draft { OnOk result (IsDraft self.new) }
        ensures taken { OnOk result (tagged_in self.new ≡ tagged_in self.old) }
        ensures group { IfOk result (λ group. group ≡ group_for (tagged_in self.old) paths.now) }
        ensures unowned { OnOk result
            (paths_of unowned.new.items ≡ unowned_paths (get_by_path self.new.owners) paths.now) }
        ensures numbered { OnOk result (AreNumbered self.new.owners.names unowned.new.items) }
    {
        let met = met_by(&mut self.owners, paths, unowned)?;
        if paths.is_empty() {
            return Ok(Some(self.groups.len().saturating_sub(1)));
        }
        Ok(met_group(met, self.groups.len()))
    }

    // Adds a transaction to its group; only those of its paths that no group owns yet are new to the group.
    fn add(
        &mut self,
        alloc: Global,
        group: usize,
        txn: &'a Txn,
        unowned: &[NewPath<'a>],
    ) -> Result<(), NoMemory>
        requires draft { IsDraft self.old }
        requires group { group_for (tagged_in self.old) (footprint txn.now) ≡ Some group }
        requires unowned { paths_of unowned.now
            ≡ unowned_paths (get_by_path self.old.owners) (footprint txn.now) }
        requires numbered { AreNumbered self.old.owners.names unowned.now }
        ensures draft { OnOk result (IsDraft self.new) }
        ensures taken { OnOk result
            (tagged_in self.new ≡ tagged_in self.old ++ (group, txn.now) ∷ []) }
    {
        add_to(&mut self.groups, alloc, group, self.txns.len(), unowned)?;
        self.owners.own(group, unowned);
        self.numbers.push(group)?;
        self.txns.push(txn)?;
        Ok(())
    }

    // Takes the transaction with these paths if it may be taken, and returns whether it was.
    fn take(
        &mut self,
        alloc: Global,
        txn: &'a Txn,
        paths: &[Str<'a>],
        unowned: &mut Vec<NewPath<'a>>,
        limits: &Limits,
    ) -> Result<bool, NoMemory>
        requires draft { IsDraft self.old }
        requires paths { paths.now ≡ footprint txn.now }
        ensures draft { OnOk result (IsDraft self.new) }
        ensures taken { IfOk result (λ taken.
            HasTaken limits.now (tagged_in self.old) txn.now taken (tagged_in self.new)) }
    {
        if self.txns.len() >= limits.batch() {
            return Ok(false);
        }
        if is_barrier(alloc, txn, paths)? {
            return Ok(false);
        }
        match self.group_for(paths, unowned)? {
            None => return Ok(false),
            Some(group) => {
                if group >= limits.groups() {
                    return Ok(false);
                }
                self.add(alloc, group, txn, unowned.as_slice())?;
                Ok(true)
            }
        }
    }

    /// The transactions that may be applied together, from the front on. Fails only if an allocation is refused.
    pub(crate) fn of_front(
        alloc: Global,
        key: HashKey,
        txns: &'a [Txn],
        limits: &Limits,
    ) -> Result<Draft<'a>, NoMemory>
        ensures draft { IfOk result IsDraft }
        ensures taken { IfOk result
            (λ draft. tagged_in draft ≡ tagged_front_after limits.now [] txns.now) }
        ensures limits { OnOk result (IsTrue (are_limits limits.now)) }
    {
        let most = limits.batch().min(txns.len());
        let mut draft = Draft::with_capacity(alloc, key, most)?;
        // One transaction's paths, and those that no group owns yet; the vectors are reused for each.
        let mut paths = Vec::new(alloc);
        let mut unowned = Vec::new(alloc);
        for txn in txns {
            paths.clear();
            txn.body.borrow_paths(&mut paths)?;
            if !draft.take(alloc, txn, paths.as_slice(), &mut unowned, limits)? {
                return Ok(draft);
            }
        }
        Ok(draft)
    }
}
