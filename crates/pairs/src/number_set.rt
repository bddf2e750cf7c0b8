//! Sets of numbers.

ghost use Rattle.std.specs.Prelude.{◌≡◌, ◌↔◌, ℕ, OnOk, OnErr, IfOk, IsTrue, true, not};
ghost use Rattle.std.specs.Map.Iter.{ShowsInOrder, deref};
ghost use Rattle.std.specs.FinSet as set;
ghost use Rattle.pairs.specs.Pairs.{sorted_numbers};

use std::alloc::{AllocError, Global};
use std::collections::BTreeSet;
use std::collections::btree_set::Iter;
use std::marker::Model;
use values::NoMemory;

/// A set of numbers, in ascending order.
#[derive(Drop)]
pub struct NumberSet {
    numbers: BTreeSet<u64>,
}

impl Model for NumberSet {
    ghost use Rattle.pairs.specs.Pairs.{Numbers};
    ghost use Rattle.std.specs.FinSet as set;
    ghost use Rattle.std.specs.Coded.{coded_ℕ};

    ghost Value = { Numbers };

    ghost coded = { set.code coded_ℕ };

    ghost view = { λ s. set.from_list s.numbers.keys };
}

impl NumberSet {
    /// No number. Allocates nothing.
    pub fn new(alloc: Global) -> NumberSet
        ensures { result ≡ set.empty }
    {
        NumberSet {
            numbers: BTreeSet::new(alloc),
        }
    }

    /// How many numbers there are.
    pub fn len(&self) -> usize
        ensures { result ≡ set.len self.now }
    {
        self.numbers.len()
    }

    /// Whether the set is empty.
    pub fn is_empty(&self) -> bool
        ensures { IsTrue result ↔ (self.now ≡ set.empty) }
    {
        self.numbers.is_empty()
    }

    /// Whether the number is in the set.
    pub fn contains(&self, number: u64) -> bool
        ensures { result ≡ set.contains self.now number }
    {
        self.numbers.contains(&number)
    }

    /// Adds a number and returns whether it is new. A refused allocation changes nothing.
    pub fn insert(&mut self, number: u64) -> Result<bool, NoMemory>
        ensures ok { OnOk result (self.new ≡ set.insert self.old number) }
        ensures added { IfOk result (λ added. added ≡ not (set.contains self.old number)) }
        ensures err { OnErr result (self.new ≡ self.old) }
    {
        Ok(self.numbers.insert(number)?)
    }

    /// Adds each number of the other set. A refused allocation takes no number away, and may leave some
    /// of the others added.
    pub fn add_all(&mut self, others: &NumberSet) -> Result<(), NoMemory>
        ensures ok { OnOk result (self.new ≡ set.union self.old others.now) }
        ensures err_keeps { OnErr result (set.is_subset self.old self.new ≡ true) }
        ensures err_adds { OnErr result (set.is_subset self.new (set.union self.old others.now) ≡ true) }
    {
        for number in others.iter() {
            self.insert(*number)?;
        }
        Ok(())
    }

    /// Removes a number.
    pub fn remove(&mut self, number: u64)
        ensures { self.new ≡ set.remove self.old number }
    {
        self.numbers.remove(&number);
    }

    /// The numbers in ascending order.
    pub fn iter(&self) -> Iter<'_, u64>
        ensures numbers { result ≡ sorted_numbers self.now }
        ensures runs { ShowsInOrder (deref {X = ℕ}) }
    {
        self.numbers.iter()
    }
}

impl Clone for NumberSet {
    ghost is_clone = { λ x y. y ≡ x };

    fn clone(&self) -> Result<NumberSet, AllocError> {
        Ok(NumberSet {
            numbers: self.numbers.clone()?,
        })
    }
}
