//! Texts, bytes and lists; the model of each is the list of its elements.

ghost use Rattle.std.specs.Prelude.{◌≡◌, ◌↔◌, List, [], ℕ, nat_eq, length, IfOk, IfSome, OnOk, OnErr, IsTrue, string_bytes};
ghost use Rattle.std.specs.Cmp.{partial_equiv_from_equiv};
ghost use Rattle.std.specs.Cmp.Lexicographic.{pointwise, lists_per, lists_equiv, nat_list_eq_equiv};

use crate::fault::NoMemory;
use std::alloc::{AllocError, Global};
use std::marker::Model;

/// A list of values.
#[derive(Clone, Debug, Drop)]
pub struct Listed<T> {
    items: Vec<T>,
}

impl<T> Model for Listed<T> {
    ghost Value = { List T };

    ghost view = { λ l. l.items.items };
}

impl<T> Listed<T> {
    /// The list of the vector's values.
    pub fn from_vec(items: Vec<T>) -> Listed<T>
        ensures { result ≡ items.items }
    {
        Listed { items }
    }

    pub fn as_slice(&self) -> &[T]
        ensures { result.now ≡ self.now }
    {
        self.items.as_slice()
    }

    /// The values in the vector that holds them.
    pub fn into_vec(self) -> Vec<T>
        ensures { result.items ≡ self }
    {
        self.items
    }

    pub fn len(&self) -> usize
        ensures { result ≡ length self.now }
    {
        self.items.len()
    }

    pub fn is_empty(&self) -> bool
        ensures { IsTrue result ↔ (self.now ≡ []) }
    {
        self.items.is_empty()
    }
}

impl<T: PartialEq> PartialEq for Listed<T> {
    ghost eq = { λ a b. pointwise T.eq a b };

    ghost laws = { lists_per T.PartialEq.laws };

    fn eq(&self, other: &Listed<T>) -> bool {
        self.as_slice() == other.as_slice()
    }
}

impl<T: Eq> Eq for Listed<T> {
    ghost laws = { lists_equiv T.Eq.laws };
}

// How many bytes lie in a `Text` or a `Blob` itself.
const SHORT: usize = 30;

// Where a `Text` has its bytes: the first ones of a few, or a block of memory.
#[derive(Debug, Drop)]
enum StoredText {
    Short(u8, [u8; SHORT]),
    Long(String),
}

/// A text that owns its bytes, which are UTF-8. Up to 30 take no block of memory.
#[derive(Debug)]
pub struct Text {
    stored: StoredText,
}

impl Model for Text {
    ghost use Rattle.std.specs.Prelude.{List, ℕ};
    ghost use Rattle.values.specs.Stored.{stored_text, IsStoredText};

    ghost Value = { List ℕ };

    ghost view = { λ t. stored_text t.stored };

    ghost invariant = { λ t. IsStoredText t.stored };
}

impl Text {
    /// A copy of the text. Fails only if an allocation is refused.
    pub fn new(alloc: Global, text: &str) -> Result<Text, NoMemory>
        ensures { IfOk result (λ t. t ≡ text.now) }
    {
        let bytes = text.as_bytes();
        if bytes.len() > SHORT {
            return Ok(Text {
                stored: StoredText::Long(String::from_str(alloc, text)?),
            });
        }
        let mut room = [0; SHORT];
        room[..bytes.len()].copy_from_slice(bytes);
        Ok(Text {
            stored: StoredText::Short(bytes.len() as u8, room),
        })
    }

    pub fn as_str(&self) -> &str
        ensures { result.now ≡ self.now }
    {
        match &self.stored {
            // The bytes are a text's, so they are UTF-8.
            StoredText::Short(len, bytes) => unsafe {
                str::from_utf8_unchecked(&bytes[..usize::from(*len)])
            },
            StoredText::Long(text) => text.as_str(),
        }
    }
}

// By hand, so that what drops a text calls this, and doesn't branch on its form.
impl Drop for Text {
    fn drop(self) {
        let Text { stored } = self;
        drop(stored);
    }
}

impl Clone for Text {
    ghost is_clone = { λ x y. y ≡ x };

    fn clone(&self) -> Result<Text, AllocError> {
        match &self.stored {
            StoredText::Short(len, bytes) => Ok(Text {
                stored: StoredText::Short(*len, *bytes),
            }),
            StoredText::Long(text) => Ok(Text {
                stored: StoredText::Long(text.clone()?),
            }),
        }
    }
}

impl PartialEq for Text {
    ghost eq = { λ a b. pointwise nat_eq a b };

    ghost laws = { partial_equiv_from_equiv nat_list_eq_equiv };

    fn eq(&self, other: &Text) -> bool {
        self.as_str() == other.as_str()
    }
}

impl Eq for Text {
    ghost laws = { nat_list_eq_equiv };
}

/// A borrowed text.
#[derive(Debug, Drop)]
pub struct Str<'a> {
    text: &'a str,
}

impl<'a> Model for Str<'a> {
    ghost Value = { List ℕ };

    ghost view = { λ t. t.text.now };
}

impl<'a> Str<'a> {
    pub fn new(text: &'a str) -> Str<'a>
        ensures { result ≡ text.now }
    {
        Str { text }
    }

    pub fn as_str(&self) -> &'a str
        ensures { result.now ≡ self.now }
    {
        self.text
    }
}

impl<'a> PartialEq for Str<'a> {
    ghost eq = { λ a b. pointwise nat_eq a b };

    ghost laws = { partial_equiv_from_equiv nat_list_eq_equiv };

    fn eq(&self, other: &Str<'a>) -> bool {
        self.as_str() == other.as_str()
    }
}

impl<'a> Eq for Str<'a> {
    ghost laws = { nat_list_eq_equiv };
}

// Where a `Blob` has its bytes: the first ones of a few, or a block of memory.
#[derive(Debug, Drop)]
enum Stored {
    Short(u8, [u8; SHORT]),
    Long(Vec<u8>),
}

/// Owned bytes. Up to 30 take no block of memory.
#[derive(Debug)]
pub struct Blob {
    stored: Stored,
}

impl Model for Blob {
    ghost use Rattle.std.specs.Prelude.{List, ℕ};
    ghost use Rattle.values.specs.Stored.{stored_bytes, IsStored};

    ghost Value = { List ℕ };

    ghost view = { λ b. stored_bytes b.stored };

    ghost invariant = { λ b. IsStored b.stored };
}

impl Blob {
    // The bytes in the value itself, if they are few.
    fn short(bytes: &[u8]) -> Option<Blob>
        ensures { IfSome result (λ b. b ≡ bytes.now) }
    {
        if bytes.len() > SHORT {
            return None;
        }
        let mut room = [0; SHORT];
        room[..bytes.len()].copy_from_slice(bytes);
        Some(Blob {
            stored: Stored::Short(bytes.len() as u8, room),
        })
    }

    /// The bytes of the vector.
    pub fn from_vec(bytes: Vec<u8>) -> Blob
        ensures { result ≡ bytes.items }
    {
        match Blob::short(bytes.as_slice()) {
            Some(short) => short,
            None => Blob {
                stored: Stored::Long(bytes),
            },
        }
    }

    /// A copy of the bytes. Fails only if an allocation is refused.
    pub fn new(alloc: Global, bytes: &[u8]) -> Result<Blob, NoMemory>
        ensures { IfOk result (λ b. b ≡ bytes.now) }
    {
        match Blob::short(bytes) {
            Some(short) => Ok(short),
            None => Ok(Blob {
                stored: Stored::Long(Vec::from_slice(alloc, bytes)?),
            }),
        }
    }

    /// Makes this a copy of the other. It reuses its memory if both are equally long. A refused allocation changes
    /// nothing.
    pub fn copy_from(&mut self, other: &Blob) -> Result<(), NoMemory>
        ensures ok { OnOk result (self.new ≡ other.now) }
        ensures err { OnErr result (self.new ≡ self.old) }
    {
        if let Stored::Long(bytes) = &mut self.stored {
            if bytes.len() == other.as_slice().len() {
                bytes.as_mut_slice().copy_from_slice(other.as_slice());
                return Ok(());
            }
        }
        *self = other.clone()?;
        Ok(())
    }

    pub fn as_slice(&self) -> &[u8]
        ensures { result.now ≡ self.now }
    {
        match &self.stored {
            Stored::Short(len, bytes) => &bytes[..usize::from(*len)],
            Stored::Long(bytes) => bytes.as_slice(),
        }
    }
}

// By hand, as that of `Text`.
impl Drop for Blob {
    fn drop(self) {
        let Blob { stored } = self;
        drop(stored);
    }
}

impl Clone for Blob {
    ghost is_clone = { λ x y. y ≡ x };

    fn clone(&self) -> Result<Blob, AllocError> {
        match &self.stored {
            Stored::Short(len, bytes) => Ok(Blob {
                stored: Stored::Short(*len, *bytes),
            }),
            Stored::Long(bytes) => Ok(Blob {
                stored: Stored::Long(bytes.clone()?),
            }),
        }
    }
}

impl PartialEq for Blob {
    ghost eq = { λ a b. pointwise nat_eq a b };

    ghost laws = { partial_equiv_from_equiv nat_list_eq_equiv };

    fn eq(&self, other: &Blob) -> bool {
        self.as_slice() == other.as_slice()
    }
}

impl Eq for Blob {
    ghost laws = { nat_list_eq_equiv };
}

/// Borrowed bytes.
#[derive(Debug, Drop)]
pub struct Bytes<'a> {
    bytes: &'a [u8],
}

impl<'a> Model for Bytes<'a> {
    ghost Value = { List ℕ };

    ghost view = { λ b. b.bytes.now };
}

impl<'a> Bytes<'a> {
    pub fn new(bytes: &'a [u8]) -> Bytes<'a>
        ensures { result ≡ bytes.now }
    {
        Bytes { bytes }
    }

    pub fn as_slice(&self) -> &'a [u8]
        ensures { result.now ≡ self.now }
    {
        self.bytes
    }
}

impl<'a> PartialEq for Bytes<'a> {
    ghost eq = { λ a b. pointwise nat_eq a b };

    ghost laws = { partial_equiv_from_equiv nat_list_eq_equiv };

    fn eq(&self, other: &Bytes<'a>) -> bool {
        self.as_slice() == other.as_slice()
    }
}

impl<'a> Eq for Bytes<'a> {
    ghost laws = { nat_list_eq_equiv };
}
