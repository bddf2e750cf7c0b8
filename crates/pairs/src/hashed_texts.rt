//! Sets of texts that are found by their hash.

ghost use Rattle.std.specs.Prelude.{◌≡◌, ◌↔◌, ℕ, List, OnOk, OnErr, IfOk, IsTrue, not};
ghost use Rattle.std.specs.List.{IsDistinct};
ghost use Rattle.std.specs.Str.{bytes_eq};
ghost use Rattle.std.specs.FinSet as set;

use crate::hash_key::HashKey;
use crate::text_key::{KeyQuery, TextKey};
use indexmap::IndexSet;
use std::alloc::{AllocError, Global};
use std::marker::Model;
use values::NoMemory;

/// A set of texts, with a table of their hashes. To look for a text takes as long among many as among few.
#[derive(Drop)]
pub struct HashedTexts {
    texts: IndexSet<TextKey, HashKey>,
}

impl Model for HashedTexts {
    ghost use Rattle.pairs.specs.Pairs.{TextKeys};
    ghost use Rattle.std.specs.FinSet as set;
    ghost use Rattle.std.specs.Coded.{coded_ℕ, coded_list};

    ghost Value = { TextKeys };

    ghost coded = { set.code (coded_list coded_ℕ) };

    ghost view = { λ s. set.from_list s.texts.keys };
}

impl HashedTexts {
    /// No text, and this key of the hash. Allocates nothing.
    pub fn keyed(alloc: Global, key: HashKey) -> HashedTexts
        ensures { result ≡ set.empty }
    {
        HashedTexts {
            texts: IndexSet::with_hasher(alloc, key),
        }
    }

    /// The number of texts.
    pub fn len(&self) -> usize
        ensures { result ≡ set.len self.now }
    {
        self.texts.len()
    }

    /// Whether there is no text.
    pub fn is_empty(&self) -> bool
        ensures { IsTrue result ↔ (self.now ≡ set.empty) }
    {
        self.texts.is_empty()
    }

    /// Whether the text is in the set.
    pub fn contains(&self, text: &str) -> bool
        ensures { result ≡ set.contains self.now text.now }
    {
        self.texts.contains(KeyQuery(text))
    }

    /// Adds a text and returns whether it is new. A refused allocation changes nothing.
    pub fn insert(&mut self, text: TextKey) -> Result<bool, NoMemory>
        ensures ok { OnOk result (self.new ≡ set.insert self.old text) }
        ensures added { IfOk result (λ added. added ≡ not (set.contains self.old text)) }
        ensures err { OnErr result (self.new ≡ self.old) }
    {
        Ok(self.texts.insert(text)?)
    }

    /// Removes a text and returns whether it was there.
    pub fn remove(&mut self, text: &str) -> bool
        ensures removed { self.new ≡ set.remove self.old text.now }
        ensures was { result ≡ set.contains self.old text.now }
    {
        self.texts.swap_remove(KeyQuery(text))
    }

    /// The texts, each once, in no order that a caller may rely on.
    pub fn as_slice(&self) -> &[TextKey]
        ensures texts { set.from_list result.now ≡ self.now }
        ensures once { IsDistinct bytes_eq result.now }
    {
        self.texts.as_slice()
    }
}

impl Clone for HashedTexts {
    ghost is_clone = { λ x y. y ≡ x };

    fn clone(&self) -> Result<HashedTexts, AllocError> {
        Ok(HashedTexts {
            texts: self.texts.clone()?,
        })
    }
}
