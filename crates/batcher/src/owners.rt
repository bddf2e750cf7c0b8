//! The groups that own paths.

ghost use Rattle.std.specs.Prelude.{◌≡◌, Some, IfOk, OnOk, if◌then◌else◌};
ghost use Rattle.std.specs.Ordering.{eq_by_cmp};
ghost use Rattle.ephemerals.specs.Orders.{Bytes, path_cmp};
ghost use Rattle.data_tree.specs.Footprint.{has_path};
ghost use Rattle.names.specs.Names.{number_among};
ghost use Rattle.batcher.specs.Inner.Owners.{get_by_path, group_beside, paths_of, AreBeside, AreNumbered, HaveNumbered};

use data_tree::HashKey;
use names::Names;
use std::alloc::Global;
use values::{NoMemory, Str};

/// The paths of a batch by number, and beside each number the group that owns the path. Paths of a transaction that
/// gets no group have a number, too, and no owner.
#[derive(Drop)]
pub struct Owners<'a> {
    pub names: Names<'a>,
    pub groups: Vec<Option<usize>>,
}

/// A path that no group owns yet.
#[derive(Drop)]
pub struct NewPath<'a> {
    pub path: Str<'a>,
    pub number: usize,
}

impl<'a> Owners<'a> {
    /// No path. Allocates nothing.
    pub fn keyed(alloc: Global, key: HashKey) -> Owners<'a>
        ensures beside { AreBeside result }
        ensures none { (path : Bytes) → get_by_path result path ≡ None }
    {
        Owners {
            names: Names::keyed(alloc, key),
            groups: Vec::new(alloc),
        }
    }

    /// The group beside a number.
    pub fn group(&self, number: usize) -> Option<usize>
        ensures { result ≡ group_beside self.now.groups.items (Some number) }
    {
        match self.groups.get(number) {
            None => return None,
            Some(group) => *group,
        }
    }

    /// The number of a path. A new path has no owner.
    pub fn number(&mut self, path: &'a str) -> Result<usize, NoMemory>
        requires { AreBeside self.old }
        ensures kept { OnOk result (HaveNumbered self.old self.new) }
        ensures number { IfOk result (λ n. number_among self.new.names path.now ≡ Some n) }
    {
        let number = self.names.number(path)?;
        if number < self.groups.len() {
            return Ok(number);
        }
        self.groups.push(None)?;
        Ok(number)
    }

    // Gives a path to a group.
    fn own_path(&mut self, group: usize, path: &NewPath<'a>)
        requires beside { AreBeside self.old }
        requires number { number_among self.old.names path.now.path ≡ Some path.now.number }
        ensures names { self.new.names ≡ self.old.names }
        ensures beside { AreBeside self.new }
        ensures owners { (q : Bytes) → get_by_path self.new q
            ≡ (if eq_by_cmp path_cmp q path.now.path then Some group else get_by_path self.old q) }
    {
        self.groups[path.number] = Some(group);
    }

    /// Gives the paths to a group.
    pub fn own(&mut self, group: usize, paths: &[NewPath<'a>])
        requires beside { AreBeside self.old }
        requires numbered { AreNumbered self.old.names paths.now }
        ensures beside { AreBeside self.new }
        ensures owners { (q : Bytes) → get_by_path self.new q
            ≡ (if has_path (paths_of paths.now) q then Some group else get_by_path self.old q) }
    {
        for path in paths {
            self.own_path(group, path);
        }
    }
}
