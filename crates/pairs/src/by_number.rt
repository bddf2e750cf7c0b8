//! The pairs by number: for each number its texts.

ghost use Rattle.std.specs.Prelude.{◌≡◌, List, ℕ, OnOk, OnErr, IfSome, IfNone, false};
ghost use Rattle.std.specs.Ordering.{nat_cmp};
ghost use Rattle.std.specs.Map.Iter.{ShowsInOrder, deref_pair};
ghost use Rattle.std.specs.FinSet as set;
ghost use Rattle.pairs.specs.Pairs.{TextKeys, keys_in, keys_beyond};
ghost use Rattle.pairs.specs.Inner.Stored.{all_pairs, keys_in_one, HasLostNumbers, without_key};

use crate::hash_key::HashKey;
use crate::number_set::NumberSet;
use crate::row::{Row, RowForm};
use crate::text_key::TextKey;
use crate::text_table::TextTable;
use std::alloc::{AllocError, Global};
use std::collections::BTreeMap;
use std::collections::btree_map::Iter;
use std::marker::Model;
use values::NoMemory;

/// Pairs of a number and a text, stored as a set of texts for each number. No set is empty.
#[derive(Drop)]
pub struct ByNumber {
    map: BTreeMap<u64, TextTable>,
}

impl Model for ByNumber {
    ghost use Rattle.pairs.specs.Inner.Stored.{NumberPairs, number_pairs_in, HaveValues};
    ghost use Rattle.std.specs.Ordering.{nat_cmp};
    ghost use Rattle.std.specs.FinMap as finmap;
    ghost use Rattle.std.specs.FinSet as set;
    ghost use Rattle.std.specs.Coded.{coded_ℕ, coded_list, coded×};

    ghost Value = { NumberPairs };

    ghost coded = { set.code (coded× coded_ℕ (coded_list coded_ℕ)) };

    ghost view = { λ b. number_pairs_in b.map.entries };

    ghost invariant = { λ b. HaveValues (finmap.from_entries {R = nat_cmp} b.map.entries) };
}

impl ByNumber {
    /// No pair. Allocates nothing.
    pub fn new(alloc: Global) -> ByNumber
        ensures { result ≡ set.empty }
    {
        ByNumber {
            map: BTreeMap::new(alloc),
        }
    }

    /// How many numbers have a text.
    pub fn count(&self) -> usize
        ensures { result ≡ set.len (keys_in nat_cmp self.now) }
    {
        self.map.len()
    }

    /// Whether the number has a text.
    pub fn has_number(&self, number: u64) -> bool
        ensures { result ≡ set.contains (keys_in nat_cmp self.now) number }
    {
        self.map.contains_key(&number)
    }

    // Whether the number has a text in one of the sets.
    fn is_in_one(number: u64, first: &ByNumber, second: &ByNumber, third: &ByNumber) -> bool
        ensures { result ≡ set.contains (keys_in_one nat_cmp first.now second.now third.now) number }
    {
        if first.has_number(number) {
            return true;
        }
        if second.has_number(number) {
            return true;
        }
        third.has_number(number)
    }

    /// How many numbers have a text here and none in the other sets.
    pub fn count_beyond(&self, first: &ByNumber, second: &ByNumber, third: &ByNumber) -> usize
        ensures { result ≡ set.len (keys_beyond nat_cmp self.now first.now second.now third.now) }
    {
        let mut count = self.map.len();
        for (number, _) in self.map.iter() {
            if ByNumber::is_in_one(*number, first, second, third) {
                count -= 1;
            }
        }
        count
    }

    /// The texts of the number; None if it has none.
    pub fn of(&self, number: u64) -> Option<&TextTable>
        ensures texts { IfSome result
            (λ texts. (t : List ℕ) → set.contains texts.now t ≡ set.contains self.now (number, t)) }
        ensures none { IfNone result
            ((t : List ℕ) → set.contains self.now (number, t) ≡ false) }
    {
        match self.map.get(&number) {
            None => return None,
            Some(texts) => Some(texts),
        }
    }

    /// The numbers, each with its texts.
    pub fn iter(&self) -> Iter<'_, u64, TextTable>
        ensures pairs { set.from_list (all_pairs result) ≡ self.now }
        ensures runs { ShowsInOrder (deref_pair {K = ℕ} {X = TextKeys}) }
    {
        self.map.iter()
    }

    /// Adds a pair. A refused allocation changes nothing.
    pub fn insert(
        &mut self,
        alloc: Global,
        key: HashKey,
        number: u64,
        text: &str,
    ) -> Result<(), NoMemory>
        ensures ok { OnOk result (self.new ≡ set.insert self.old (number, text.now)) }
        ensures err { OnErr result (self.new ≡ self.old) }
    {
        let text = TextKey::new(alloc, text)?;
        match self.map.get_mut(&number) {
            Some(texts) => {
                texts.insert(alloc, key, text)?;
                Ok(())
            }
            None => {
                let texts = TextTable::of(text);
                self.map.insert(number, texts)?;
                Ok(())
            }
        }
    }

    /// Removes a pair. A number's set goes with its last text.
    pub fn remove(&mut self, number: u64, text: &str)
        ensures { self.new ≡ set.remove self.old (number, text.now) }
    {
        match self.map.get_mut(&number) {
            None => return,
            Some(texts) => {
                texts.remove(text);
                if !texts.is_empty() {
                    return;
                }
            }
        }
        self.map.remove(&number);
    }

    // Removes the text from each of the numbers.
    fn remove_each(&mut self, numbers: &NumberSet, text: &str)
        ensures { HasLostNumbers text.now numbers.now self.old self.new }
    {
        for number in numbers.iter() {
            self.remove(*number, text);
        }
    }

    /// Removes the text from each of its numbers.
    pub fn remove_all(&mut self, row: &Row, text: &str)
        ensures { HasLostNumbers text.now row.now self.old self.new }
    {
        match &row.form {
            RowForm::Empty => return,
            RowForm::One(number) => self.remove(*number, text),
            RowForm::Many(numbers) => self.remove_each(numbers, text),
        }
    }

    /// Removes all pairs of a number and returns its texts; None if it has none.
    pub fn take(&mut self, number: u64) -> Option<TextTable>
        ensures texts { IfSome result
            (λ texts. (t : List ℕ) → set.contains texts t ≡ set.contains self.old (number, t)) }
        ensures none { IfNone result
            ((t : List ℕ) → set.contains self.old (number, t) ≡ false) }
        ensures rest { self.new ≡ without_key number self.old }
    {
        self.map.remove(&number)
    }
}

impl Clone for ByNumber {
    ghost is_clone = { λ x y. y ≡ x };

    fn clone(&self) -> Result<ByNumber, AllocError> {
        Ok(ByNumber {
            map: self.map.clone()?,
        })
    }
}
