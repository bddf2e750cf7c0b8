//! Texts by number.
//!
//! `Names` gives each text the number of its place, in the order in which they were first seen. A number never changes.
//! Texts are borrowed, and found by their hash. What is known of a text is kept in a vector beside its number.
//!
//! ```text
//! let mut names = Names::keyed(alloc, key);
//! names.number("/a")?         // 0
//! names.number("/b")?         // 1
//! names.number("/a")?         // 0
//! names.text(1)               // Some("/b")
//! ```
#![tactic(auto)]

ghost use Rattle.std.specs.Prelude.{◌≡◌, [], length, slice_get, IfOk, OnOk, OnErr};
ghost use Rattle.std.specs.Option.{option_map};
ghost use Rattle.names.specs.Names.{number_among, with_new_name, number_or_next};

use indexmap::IndexSet;
use pairs::{HashKey, KeyQuery};
use std::alloc::Global;
use std::marker::Model;
use values::NoMemory;

/// Texts, each with a number: its place. They are borrowed, and no text comes twice.
#[derive(Drop)]
pub struct Names<'a> {
    set: IndexSet<KeyQuery<'a>, HashKey>,
}

impl<'a> Model for Names<'a> {
    ghost use Rattle.std.specs.Prelude.{List, ℕ};
    ghost use Rattle.names.specs.Inner.View.{key_texts};

    ghost Value = { List (List ℕ) };

    ghost view = { λ n. key_texts n.set.keys };
}

impl<'a> Names<'a> {
    /// No text, and this key of the hash. Allocates nothing.
    pub fn keyed(alloc: Global, key: HashKey) -> Names<'a>
        ensures { result ≡ [] }
    {
        Names {
            set: IndexSet::with_hasher(alloc, key),
        }
    }

    /// The number of texts.
    pub fn len(&self) -> usize
        ensures { result ≡ length self.now }
    {
        self.set.len()
    }

    /// The number of a text, if it has one.
    pub fn find(&self, text: &'a str) -> Option<usize>
        ensures { result ≡ number_among self.now text.now }
    {
        self.set.get_index_of(&KeyQuery(text))
    }

    /// The text with this number, if there is one.
    pub fn text(&self, number: usize) -> Option<&'a str>
        ensures { option_map (λ t. t.now) result ≡ slice_get self.now number }
    {
        match self.set.get_index(number) {
            None => return None,
            Some(text) => Some(text.0),
        }
    }

    /// The number of a text. A new text comes last. A refused allocation changes nothing.
    pub fn number(&mut self, text: &'a str) -> Result<usize, NoMemory>
        ensures names { OnOk result (self.new ≡ with_new_name self.old text.now) }
        ensures number { IfOk result (λ n. n ≡ number_or_next self.old text.now) }
        ensures err { OnErr result (self.new ≡ self.old) }
    {
        let (number, _) = self.set.insert_full(KeyQuery(text))?;
        Ok(number)
    }
}
