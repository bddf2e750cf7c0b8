//! A set of pairs.

ghost use Rattle.std.specs.Prelude.{◌≡◌, ◌≢◌, ◌↔◌, ℕ, OnOk, OnErr, IfOk, IfSome, IfNone, IsTrue, true, not};
ghost use Rattle.std.specs.FinSet as set;
ghost use Rattle.std.specs.Map.Iter.{ShowsInOrder, deref_pair};
ghost use Rattle.pairs.specs.Pairs.{TextKeys, text_cmp, texts_at, numbers_at, without_text, without_number, pairs_of_text, pairs_of_number, listed_pairs};
ghost use Rattle.pairs.specs.Pairs.{keys_in, keys_beyond, numbers_in, numbers_beyond};
ghost use Rattle.pairs.specs.Inner.Stored.{pairs_with_number};

use crate::by_number::ByNumber;
use crate::by_text::ByText;
use crate::hash_key::HashKey;
use crate::number_set::NumberSet;
use crate::text_table::TextTable;
use std::alloc::{AllocError, Global};
use std::collections::btree_map::Iter;
use std::marker::Model;
use values::NoMemory;

/// A set of pairs of a text and a number.
#[derive(Drop)]
pub struct Pairs {
    by_text: ByText,
    by_number: ByNumber,
    // The number of pairs.
    count: usize,
}

impl Model for Pairs {
    ghost use Rattle.std.specs.Prelude.{◌≡◌};
    ghost use Rattle.pairs.specs.Pairs.{TextPairs};
    ghost use Rattle.pairs.specs.Inner.Stored.{AgreeOn};
    ghost use Rattle.std.specs.FinSet as set;
    ghost use Rattle.std.specs.Coded.{coded_ℕ, coded_list, coded×};

    ghost Value = { TextPairs };

    ghost coded = { set.code (coded× (coded_list coded_ℕ) coded_ℕ) };

    ghost view = { λ p. p.by_text };

    ghost invariant = { λ p. AgreeOn p.by_text p.by_number × (p.count ≡ set.len p.by_text) };
}

impl Pairs {
    /// No pair, and the default key of the hash. Allocates nothing.
    pub fn new(alloc: Global) -> Pairs
        ensures { result ≡ set.empty }
    {
        Pairs::keyed(alloc, HashKey::default())
    }

    /// No pair, and this key of the hash. Allocates nothing.
    pub fn keyed(alloc: Global, key: HashKey) -> Pairs
        ensures { result ≡ set.empty }
    {
        Pairs {
            by_text: ByText::keyed(alloc, key),
            by_number: ByNumber::new(alloc),
            count: 0,
        }
    }

    /// The key of the hash.
    pub fn hash_key(&self) -> HashKey {
        self.by_text.hash_key()
    }

    /// Whether there is no pair.
    pub fn is_empty(&self) -> bool
        ensures { IsTrue result ↔ (self.now ≡ set.empty) }
    {
        self.count == 0
    }

    /// The number of pairs.
    pub fn len(&self) -> usize
        ensures { result ≡ set.len self.now }
    {
        self.count
    }

    /// The number of pairs of a number.
    pub fn len_of(&self, number: u64) -> usize
        ensures { result ≡ set.len (pairs_of_number number self.now) }
    {
        match self.by_number.of(number) {
            None => 0,
            Some(texts) => texts.len(),
        }
    }

    /// How many texts have a number.
    pub fn texts(&self) -> usize
        ensures { result ≡ set.len (keys_in text_cmp self.now) }
    {
        self.by_text.count()
    }

    /// How many numbers have a text.
    pub fn numbers(&self) -> usize
        ensures { result ≡ set.len (numbers_in self.now) }
    {
        self.by_number.count()
    }

    /// How many texts have a number here and none in the other sets. Takes time linear in the number of texts here.
    pub fn texts_beyond(&self, first: &Pairs, second: &Pairs, third: &Pairs) -> usize
        ensures { result ≡ set.len (keys_beyond text_cmp self.now first.now second.now third.now) }
    {
        self.by_text
            .count_beyond(&first.by_text, &second.by_text, &third.by_text)
    }

    /// How many numbers have a text here and none in the other sets. Takes time linear in how many numbers are here.
    pub fn numbers_beyond(&self, first: &Pairs, second: &Pairs, third: &Pairs) -> usize
        ensures { result ≡ set.len (numbers_beyond self.now first.now second.now third.now) }
    {
        self.by_number
            .count_beyond(&first.by_number, &second.by_number, &third.by_number)
    }

    /// Whether the text has a number.
    pub fn has_text(&self, text: &str) -> bool
        ensures { result ≡ set.contains (keys_in text_cmp self.now) text.now }
    {
        self.by_text.has_text(text)
    }

    /// Whether the pair is in the set.
    pub fn contains(&self, text: &str, number: u64) -> bool
        ensures { result ≡ set.contains self.now (text.now, number) }
    {
        match self.by_text.of(text) {
            None => return false,
            Some(row) => row.contains(number),
        }
    }

    /// Adds the numbers of the text to a set. A refused allocation takes no number away, and may leave some
    /// of the text's added.
    pub fn add_numbers_of(&self, numbers: &mut NumberSet, text: &str) -> Result<(), NoMemory>
        ensures ok { OnOk result (numbers.new ≡ set.union numbers.old (numbers_at text.now self.now)) }
        ensures err_keeps { OnErr result (set.is_subset numbers.old numbers.new ≡ true) }
        ensures err_adds { let of_text = numbers_at text.now self.now in
            OnErr result (set.is_subset numbers.new (set.union numbers.old of_text) ≡ true) }
    {
        match self.by_text.of(text) {
            None => return Ok(()),
            Some(row) => row.add_to(numbers),
        }
    }

    /// The numbers of the text. Fails only if an allocation is refused.
    pub fn numbers_of(&self, alloc: Global, text: &str) -> Result<NumberSet, NoMemory>
        ensures { IfOk result (λ numbers. numbers ≡ numbers_at text.now self.now) }
    {
        let mut numbers = NumberSet::new(alloc);
        self.add_numbers_of(&mut numbers, text)?;
        Ok(numbers)
    }

    /// The texts of the number; None if it has none.
    pub fn texts_of(&self, number: u64) -> Option<&TextTable>
        ensures texts { IfSome result (λ texts. texts.now ≡ texts_at number self.now) }
        ensures some { IfSome result (λ texts. texts.now ≢ set.empty) }
        ensures none { IfNone result (texts_at number self.now ≡ set.empty) }
    {
        match self.by_number.of(number) {
            None => return None,
            Some(texts) => {
                if texts.is_empty() {
                    return None;
                }
                Some(texts)
            }
        }
    }

    /// All pairs: the numbers that have a text, each with its texts.
    pub fn iter(&self) -> Iter<'_, u64, TextTable>
        ensures pairs { set.from_list (listed_pairs result) ≡ self.now }
        ensures runs { ShowsInOrder (deref_pair {K = ℕ} {X = TextKeys}) }
    {
        self.by_number.iter()
    }

    /// Adds a pair and returns whether it is new. A refused allocation changes nothing.
    pub fn insert(&mut self, alloc: Global, text: &str, number: u64) -> Result<bool, NoMemory>
        ensures ok { OnOk result (self.new ≡ set.insert self.old (text.now, number)) }
        ensures added { IfOk result
            (λ added. added ≡ not (set.contains self.old (text.now, number))) }
        ensures err { OnErr result (self.new ≡ self.old) }
    {
        // Each pair takes more than a byte of memory, so memory runs out before the count overflows.
        let count = self.count.checked_add(1).ok_or(NoMemory)?;
        if !self.by_text.insert(alloc, text, number)? {
            return Ok(false);
        }
        let key = self.by_text.hash_key();
        match self.by_number.insert(alloc, key, number, text) {
            Ok(()) => {
                self.count = count;
                return Ok(true);
            }
            Err(refused) => {
                self.by_text.remove(text, number);
                Err(refused)
            }
        }
    }

    /// Adds the pairs that the others have of the text. A refused allocation takes no pair away, and leaves some of
    /// theirs added.
    pub fn add_of_text(&mut self, alloc: Global, text: &str, others: &Pairs) -> Result<(), NoMemory>
        ensures ok { OnOk result (self.new ≡ set.union self.old (pairs_of_text text.now others.now)) }
        ensures err_keeps { OnErr result (set.is_subset self.old self.new ≡ true) }
        ensures err_adds { let of_text = pairs_of_text text.now others.now in
            OnErr result (set.is_subset self.new (set.union self.old of_text) ≡ true) }
    {
        let numbers = others.numbers_of(alloc, text)?;
        for number in numbers.iter() {
            self.insert(alloc, text, *number)?;
        }
        Ok(())
    }

    // Adds the number to each of the texts.
    fn add_texts(&mut self, alloc: Global, texts: &TextTable, number: u64) -> Result<(), NoMemory>
        ensures ok { OnOk result (self.new ≡ set.union self.old (pairs_with_number number texts.now)) }
        ensures err_keeps { OnErr result (set.is_subset self.old self.new ≡ true) }
        ensures err_adds { let all = pairs_with_number number texts.now in
            OnErr result (set.is_subset self.new (set.union self.old all) ≡ true) }
    {
        let all = texts.as_slice();
        for text in all {
            self.insert(alloc, text.as_str(), number)?;
        }
        Ok(())
    }

    /// Adds all of the others' pairs. A refused allocation takes no pair away, and leaves some of the others' added.
    pub fn add_all(&mut self, alloc: Global, others: &Pairs) -> Result<(), NoMemory>
        ensures ok { OnOk result (self.new ≡ set.union self.old others.now) }
        ensures err_keeps { OnErr result (set.is_subset self.old self.new ≡ true) }
        ensures err_adds { OnErr result (set.is_subset self.new (set.union self.old others.now) ≡ true) }
    {
        for (number, texts) in others.iter() {
            self.add_texts(alloc, texts, *number)?;
        }
        Ok(())
    }

    /// Removes a pair. Allocates nothing.
    pub fn remove(&mut self, text: &str, number: u64)
        ensures { self.new ≡ set.remove self.old (text.now, number) }
    {
        if !self.contains(text, number) {
            return;
        }
        self.count -= 1;
        self.by_number.remove(number, text);
        self.by_text.remove(text, number)
    }

    /// Removes the pairs of a text. Allocates nothing.
    pub fn drop_text(&mut self, text: &str)
        ensures { self.new ≡ without_text text.now self.old }
    {
        match self.by_text.take(text) {
            None => return,
            Some(row) => {
                self.count -= row.len();
                self.by_number.remove_all(&row, text)
            }
        }
    }

    /// Removes the pairs of a number and returns its texts; None if it has none. Allocates nothing.
    pub fn take_number(&mut self, number: u64) -> Option<TextTable>
        ensures texts { IfSome result (λ texts. texts ≡ texts_at number self.old) }
        ensures none { IfNone result (texts_at number self.old ≡ set.empty) }
        ensures rest { self.new ≡ without_number number self.old }
    {
        match self.by_number.take(number) {
            None => return None,
            Some(texts) => {
                self.count -= texts.len();
                self.by_text.remove_all(&texts, number);
                Some(texts)
            }
        }
    }
}

impl Clone for Pairs {
    ghost is_clone = { λ x y. y ≡ x };

    fn clone(&self) -> Result<Pairs, AllocError> {
        Ok(Pairs {
            by_text: self.by_text.clone()?,
            by_number: self.by_number.clone()?,
            count: self.count,
        })
    }
}
