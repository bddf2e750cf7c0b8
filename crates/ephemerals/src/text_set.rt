//! Ordered sets of texts.

ghost use Rattle.std.specs.Prelude.{◌≡◌, ◌∷◌, [], ◌↔◌, OnOk, OnErr, IfOk, IfSome, IfNone, IsTrue, not, false};
ghost use Rattle.std.specs.List.{list_any};
ghost use Rattle.std.specs.Ordering.{eq_by_cmp};
ghost use Rattle.std.specs.FinSet as set;
ghost use Rattle.ephemerals.specs.Orders.{Bytes, path_cmp, sorted_names};

use crate::run::Run;
use crate::runs::{Place, find, put, take};
use crate::texts::Texts;
use pairs::TextKey;
use std::alloc::{AllocError, Global};
use std::marker::Model;
use values::{NoMemory, Text};

/// A set of texts, ordered by their bytes.
#[derive(Drop)]
pub struct TextSet {
    // No run is empty, and the texts ascend, also from one run to the next.
    runs: Vec<Run>,
    len: usize,
}

impl Model for TextSet {
    ghost use Rattle.std.specs.Prelude.{◌≡◌, length};
    ghost use Rattle.ephemerals.specs.Orders.{Names};
    ghost use Rattle.ephemerals.specs.Inner.Runs.{joined, names_in, AreRuns};
    ghost use Rattle.std.specs.FinSet as set;
    ghost use Rattle.std.specs.Coded.{coded_ℕ, coded_list};

    ghost Value = { Names };

    ghost coded = { set.code (coded_list coded_ℕ) };

    ghost view = { λ s. names_in s.runs.items };

    ghost invariant = { λ s. AreRuns s.runs.items × (s.len ≡ length (joined s.runs.items)) };
}

impl TextSet {
    /// An empty set. Allocates nothing.
    pub fn new(alloc: Global) -> TextSet
        ensures { result ≡ set.empty }
    {
        TextSet {
            runs: Vec::new(alloc),
            len: 0,
        }
    }

    /// The set of these texts, which may be in any order. Fails only if an allocation is refused.
    pub fn from_keys(alloc: Global, keys: &[TextKey]) -> Result<TextSet, NoMemory>
        ensures { IfOk result (λ texts. texts ≡ set.from_list keys.now) }
    {
        let mut texts = TextSet::new(alloc);
        for key in keys {
            texts.insert(alloc, key.as_str())?;
        }
        Ok(texts)
    }

    /// The number of texts.
    pub fn len(&self) -> usize
        ensures { result ≡ set.len self.now }
    {
        self.len
    }

    /// Whether there is no text.
    pub fn is_empty(&self) -> bool
        ensures { IsTrue result ↔ (self.now ≡ set.empty) }
    {
        self.len() == 0
    }

    /// Whether the text is in the set.
    pub fn contains(&self, text: &str) -> bool
        ensures { result ≡ set.contains self.now text.now }
    {
        find(&self.runs, text).is_ok()
    }

    /// Adds a text and returns whether it is new. Only a new text allocates; a refused allocation changes nothing.
    pub fn insert(&mut self, alloc: Global, text: &str) -> Result<bool, NoMemory>
        ensures ok { OnOk result (self.new ≡ set.insert self.old text.now) }
        ensures added { IfOk result
            (λ added. added ≡ not (set.contains self.old text.now)) }
        ensures err { OnErr result (self.new ≡ self.old) }
        ensures absent { OnErr result (set.contains self.old text.now ≡ false) }
    {
        match find(&self.runs, text) {
            Ok(_) => Ok(false),
            Err(place) => {
                if self.len == usize::MAX {
                    return Err(NoMemory);
                }
                put(&mut self.runs, alloc, place, text)?;
                self.len += 1;
                Ok(true)
            }
        }
    }

    /// Removes a text and returns whether it was there.
    pub fn remove(&mut self, text: &str) -> bool
        ensures removed { self.new ≡ set.remove self.old text.now }
        ensures was { result ≡ set.contains self.old text.now }
    {
        match find(&self.runs, text) {
            Ok(place) => {
                take(&mut self.runs, place);
                self.len -= 1;
                true
            }
            Err(_) => false,
        }
    }

    /// The texts in ascending order of their bytes.
    pub fn iter(&self) -> Texts<'_>
        ensures texts { result ≡ sorted_names self.now }
        ensures members { (q : Bytes) → set.contains self.now q ≡ list_any (eq_by_cmp path_cmp q) result }
    {
        Texts::of(&self.runs)
    }

    /// Removes the first text in the order of bytes and returns it.
    pub fn pop_first(&mut self) -> Option<Text>
        ensures first { IfSome result (λ text. sorted_names self.old ≡ text ∷ sorted_names self.new) }
        ensures none { IfNone result (sorted_names self.old ≡ []) }
        ensures kept { IfNone result (self.new ≡ self.old) }
    {
        if self.runs.is_empty() {
            return None;
        }
        let text = take(&mut self.runs, Place { run: 0, text: 0 });
        self.len -= 1;
        Some(text)
    }
}

impl Clone for TextSet {
    ghost is_clone = { λ x y. y ≡ x };

    fn clone(&self) -> Result<TextSet, AllocError> {
        Ok(TextSet {
            runs: self.runs.clone()?,
            len: self.len,
        })
    }
}
