//! TextKeys that are found by their hash.

ghost use Rattle.std.specs.Prelude.{◌≡◌, IfOk};
ghost use Rattle.std.proofs.Common.{ap};
ghost use Rattle.std.specs.Cmp.{partial_equiv_from_equiv};
ghost use Rattle.std.specs.Cmp.Lexicographic.{bytes_decides, nat_list_eq_equiv};
ghost use Rattle.std.specs.List.{fold};
ghost use Rattle.std.specs.Str.{bytes_eq};
ghost use Rattle.pairs.specs.Fed.{counted_word, fed_text};

use indexmap::Equivalent;
use std::alloc::{AllocError, Global};
use std::hash::{Hash, Hasher};
use std::marker::Model;
use values::{NoMemory, Text};

// The number of the bytes, and then the bytes, as a word.
fn counted_word(rest: &[u8]) -> u64
    ensures { result ≡ counted_word rest.now }
{
    let mut word = rest.len() as u64;
    for byte in rest {
        word = word << 8 | *byte as u64;
    }
    word
}

// Feeds the text to the hasher, in whole words.
fn feed<H: Hasher>(text: &str, state: &mut H)
    ensures { state.new ≡ fold H.write state.old (fed_text text.now) }
{
    let bytes = text.as_bytes();
    let (words, rest) = bytes.split_at(bytes.len() - bytes.len() % 8);
    state.write(words);
    state.write_u64(counted_word(rest));
}

/// A text as a key.
#[derive(Drop)]
pub struct TextKey {
    text: Text,
}

impl Model for TextKey {
    ghost use Rattle.std.specs.Prelude.{List, ℕ};

    ghost Value = { List ℕ };

    ghost view = { λ k. k.text };
}

impl TextKey {
    /// A copy of the text. Fails only if an allocation is refused.
    pub fn new(alloc: Global, text: &str) -> Result<TextKey, NoMemory>
        ensures { IfOk result (λ k. k ≡ text.now) }
    {
        Ok(TextKey {
            text: Text::new(alloc, text)?,
        })
    }

    pub fn as_str(&self) -> &str
        ensures { result.now ≡ self.now }
    {
        self.text.as_str()
    }
}

impl Clone for TextKey {
    ghost is_clone = { λ x y. y ≡ x };

    fn clone(&self) -> Result<TextKey, AllocError> {
        Ok(TextKey {
            text: self.text.clone()?,
        })
    }
}

impl PartialEq for TextKey {
    ghost eq = { λ a b. bytes_eq a b };

    ghost laws = { partial_equiv_from_equiv nat_list_eq_equiv };

    fn eq(&self, other: &TextKey) -> bool {
        self.as_str() == other.as_str()
    }
}

impl Eq for TextKey {
    ghost laws = { nat_list_eq_equiv };
}

impl Hash for TextKey {
    ghost hash_input = { λ k. fed_text k };

    ghost respects_eq = { λ x y h. ap fed_text ((bytes_decides x y).0 h) };

    fn hash<H: Hasher>(&self, state: &mut H) {
        feed(self.as_str(), state);
    }
}

/// A text that is looked for among keys.
#[derive(Clone, Copy)]
pub struct KeyQuery<'a>(pub &'a str);

impl<'a> PartialEq for KeyQuery<'a> {
    ghost eq = { λ a b. bytes_eq a.0.now b.0.now };

    ghost laws = { partial_equiv_from_equiv (on_equiv (λ q. q.0.now) nat_list_eq_equiv) };

    ghost use Rattle.std.specs.Cmp.{on_equiv};

    fn eq(&self, other: &KeyQuery<'a>) -> bool {
        self.0 == other.0
    }
}

impl<'a> Eq for KeyQuery<'a> {
    ghost use Rattle.std.specs.Cmp.{on_equiv};

    ghost laws = { on_equiv (λ q. q.0.now) nat_list_eq_equiv };
}

impl<'a> Hash for KeyQuery<'a> {
    ghost hash_input = { λ q. fed_text q.0.now };

    ghost respects_eq = { λ x y h. ap fed_text ((bytes_decides x.0.now y.0.now).0 h) };

    fn hash<H: Hasher>(&self, state: &mut H) {
        feed(self.0, state);
    }
}

impl<'a> Equivalent<TextKey> for KeyQuery<'a> {
    ghost equivalent = { λ q k. bytes_eq q.0.now k };

    ghost respects_hash = { λ q k h. ap fed_text ((bytes_decides q.0.now k).0 h) };

    ghost respects_eq = { λ q x y. nat_list_eq_equiv.congr q.0.now x y };

    fn equivalent(&self, key: &TextKey) -> bool {
        self.0 == key.as_str()
    }
}
