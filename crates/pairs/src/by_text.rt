//! The pairs by text: for each text its numbers.

ghost use Rattle.std.specs.Prelude.{◌≡◌, ℕ, List, OnOk, OnErr, IfOk, IfSome, IfNone, is_some, not};
ghost use Rattle.std.specs.Ordering.{nat_cmp};
ghost use Rattle.std.specs.FinSet as set;
ghost use Rattle.pairs.specs.Pairs.{text_cmp, numbers_at, without_text, keys_in, keys_beyond};
ghost use Rattle.pairs.specs.Inner.Stored.{keys_in_one, HasLostTexts};

use crate::hash_key::HashKey;
use crate::number_set::NumberSet;
use crate::row::Row;
use crate::text_key::{KeyQuery, TextKey};
use crate::text_table::TextTable;
use indexmap::IndexMap;
use std::alloc::{AllocError, Global};
use std::marker::Model;
use values::NoMemory;

/// Pairs of a text and a number, stored as a set of numbers for each text. No set is empty.
#[derive(Drop)]
pub struct ByText {
    map: IndexMap<TextKey, Row, HashKey>,
}

impl Model for ByText {
    ghost use Rattle.pairs.specs.Pairs.{TextPairs, text_cmp};
    ghost use Rattle.pairs.specs.Inner.Stored.{text_pairs_in, HaveValues};
    ghost use Rattle.std.specs.FinMap as finmap;
    ghost use Rattle.std.specs.FinSet as set;
    ghost use Rattle.std.specs.Coded.{coded_ℕ, coded_list, coded×};

    ghost Value = { TextPairs };

    ghost coded = { set.code (coded× (coded_list coded_ℕ) coded_ℕ) };

    ghost view = { λ b. text_pairs_in b.map.entries };

    ghost invariant = { λ b. HaveValues (finmap.from_entries {R = text_cmp} b.map.entries) };
}

impl ByText {
    /// No pair, and this key of the hash. Allocates nothing.
    pub fn keyed(alloc: Global, key: HashKey) -> ByText
        ensures { result ≡ set.empty }
    {
        ByText {
            map: IndexMap::with_hasher(alloc, key),
        }
    }

    /// The key of the hash.
    pub fn hash_key(&self) -> HashKey {
        *self.map.hasher()
    }

    /// The number of texts.
    pub fn count(&self) -> usize
        ensures { result ≡ set.len (keys_in text_cmp self.now) }
    {
        self.map.len()
    }

    /// Whether the text has a number.
    pub fn has_text(&self, text: &str) -> bool
        ensures { result ≡ set.contains (keys_in text_cmp self.now) text.now }
    {
        self.map.contains_key(KeyQuery(text))
    }

    // Whether the text has a number in one of the sets.
    fn is_in_one(text: &str, first: &ByText, second: &ByText, third: &ByText) -> bool
        ensures { result ≡ set.contains (keys_in_one text_cmp first.now second.now third.now) text.now }
    {
        if first.has_text(text) {
            return true;
        }
        if second.has_text(text) {
            return true;
        }
        third.has_text(text)
    }

    /// The number of texts that have a number here and none in the other sets.
    pub fn count_beyond(&self, first: &ByText, second: &ByText, third: &ByText) -> usize
        ensures { result ≡ set.len (keys_beyond text_cmp self.now first.now second.now third.now) }
    {
        let mut count = self.map.len();
        for (text, _) in self.map.iter() {
            if ByText::is_in_one(text.as_str(), first, second, third) {
                count -= 1;
            }
        }
        count
    }

    /// The numbers of the text; None if it has none.
    pub fn of(&self, text: &str) -> Option<&Row>
        ensures some { IfSome result (λ row. row.now ≡ numbers_at text.now self.now) }
        ensures none { IfNone result (numbers_at text.now self.now ≡ set.empty) }
    {
        match self.map.get(KeyQuery(text)) {
            None => return None,
            Some(row) => Some(row),
        }
    }

    /// Adds a pair and returns whether it is new. A refused allocation changes nothing.
    pub fn insert(&mut self, alloc: Global, text: &str, number: u64) -> Result<bool, NoMemory>
        ensures ok { OnOk result (self.new ≡ set.insert self.old (text.now, number)) }
        ensures added { IfOk result
            (λ added. added ≡ not (set.contains self.old (text.now, number))) }
        ensures err { OnErr result (self.new ≡ self.old) }
    {
        match self.map.get_mut(KeyQuery(text)) {
            Some(row) => Ok(row.insert(alloc, number)?),
            None => {
                let row = Row::of(number);
                self.map.insert(TextKey::new(alloc, text)?, row)?;
                Ok(true)
            }
        }
    }

    /// Removes a pair. A text's set goes with its last number.
    pub fn remove(&mut self, text: &str, number: u64)
        ensures { self.new ≡ set.remove self.old (text.now, number) }
    {
        match self.map.get_mut(KeyQuery(text)) {
            None => return,
            Some(row) => {
                row.remove(number);
                if !row.is_empty() {
                    return;
                }
            }
        }
        self.map.swap_remove(KeyQuery(text));
    }

    /// Removes the number from each of the texts.
    pub fn remove_all(&mut self, texts: &TextTable, number: u64)
        ensures { HasLostTexts number texts.now self.old self.new }
    {
        let all = texts.as_slice();
        for text in all {
            self.remove(text.as_str(), number);
        }
    }

    /// Removes all pairs of a text and returns its numbers; None if it has none.
    pub fn take(&mut self, text: &str) -> Option<Row>
        ensures some { is_some result ≡ set.contains (keys_in text_cmp self.old) text.now }
        ensures row { IfSome result (λ row. row ≡ numbers_at text.now self.old) }
        ensures none { IfNone result (numbers_at text.now self.old ≡ set.empty) }
        ensures rest { self.new ≡ without_text text.now self.old }
    {
        self.map.swap_remove(KeyQuery(text))
    }
}

impl Clone for ByText {
    ghost is_clone = { λ x y. y ≡ x };

    fn clone(&self) -> Result<ByText, AllocError> {
        Ok(ByText {
            map: self.map.clone()?,
        })
    }
}
