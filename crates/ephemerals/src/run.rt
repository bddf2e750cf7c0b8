//! Runs of a few texts.

ghost use Rattle.std.specs.Prelude.{◌≡◌, ◌↔◌, ◌<◌, ◌≤◌, ◌∷◌, [], length, drop, take, OnOk, OnErr, IfOk, IfErr, IsTrue, slice_index_or};
ghost use Rattle.std.specs.List.{insert, remove};
ghost use Rattle.std.specs.List.Sorted.{IsStrictlySortedBy};
ghost use Rattle.ephemerals.specs.Orders.{path_cmp};
ghost use Rattle.ephemerals.specs.Inner.Runs.{IsAt, IsGapFor, ends_below};

use std::alloc::{AllocError, Global};
use std::marker::Model;
use values::{NoMemory, Text};

/// A few texts, in the order in which they lie.
#[derive(Drop)]
pub struct Run {
    texts: Vec<Text>,
}

impl Model for Run {
    ghost use Rattle.std.specs.Prelude.{List, ℕ};

    ghost Value = { List (List ℕ) };

    ghost view = { λ r. r.texts.items };
}

impl Run {
    /// One text, and no room for more, since many parents have one child.
    pub fn of(alloc: Global, text: Text) -> Result<Run, NoMemory>
        ensures { IfOk result (λ run. run ≡ text ∷ []) }
    {
        let mut texts = Vec::with_capacity(alloc, 1)?;
        texts.push(text)?;
        Ok(Run { texts })
    }

    pub fn as_slice(&self) -> &[Text]
        ensures { result.now ≡ self.now }
    {
        self.texts.as_slice()
    }

    pub fn len(&self) -> usize
        ensures { result ≡ length self.now }
    {
        self.texts.len()
    }

    /// Whether the last text is below this one.
    pub fn ends_below(&self, text: &str) -> bool
        ensures { result ≡ ends_below text.now self.now }
    {
        match self.texts.last() {
            None => true,
            Some(last) => last.as_str().cmp(text).is_lt(),
        }
    }

    /// The place of the text among the others, or the place where it would go.
    pub fn place(&self, text: &str) -> Result<usize, usize>
        requires { IsStrictlySortedBy path_cmp self.now }
        ensures found { IfOk result (IsAt text.now self.now) }
        ensures absent { IfErr result (IsGapFor text.now self.now) }
    {
        self.texts
            .binary_search_by(|other| other.as_str().cmp(text))
    }

    /// Puts a text before the one at the place. A refused allocation changes nothing.
    pub fn insert(&mut self, place: usize, text: Text) -> Result<(), NoMemory>
        requires { place ≤ length self.old }
        ensures ok { OnOk result (self.new ≡ insert self.old place text) }
        ensures err { OnErr result (self.new ≡ self.old) }
    {
        Ok(self.texts.insert(place, text)?)
    }

    /// Removes the text at the place and returns it.
    pub fn remove(&mut self, place: usize) -> Text
        requires { place < length self.old }
        ensures rest { self.new ≡ remove self.old place }
        ensures text { result ≡ slice_index_or self.old place result }
    {
        self.texts.remove(place)
    }

    /// A copy of the texts from the place on.
    pub fn later(&self, alloc: Global, place: usize) -> Result<Run, NoMemory>
        requires { place ≤ length self.now }
        ensures { IfOk result (λ run. run ≡ drop place self.now) }
    {
        Ok(Run {
            texts: Vec::from_clones(alloc, &self.texts[place..])?,
        })
    }

    /// Drops the texts from the place on.
    pub fn truncate(&mut self, place: usize)
        ensures { self.new ≡ take place self.old }
    {
        self.texts.truncate(place);
    }
}

impl Clone for Run {
    ghost is_clone = { λ x y. y ≡ x };

    fn clone(&self) -> Result<Run, AllocError> {
        Ok(Run {
            texts: self.texts.clone()?,
        })
    }
}
