//! The texts of one number.

ghost use Rattle.std.specs.Prelude.{◌≡◌, ◌↔◌, OnOk, OnErr, IfOk, IsTrue, not};
ghost use Rattle.std.specs.List.{IsDistinct};
ghost use Rattle.std.specs.Str.{bytes_eq};
ghost use Rattle.std.specs.FinSet as set;

use crate::hash_key::HashKey;
use crate::hashed_texts::HashedTexts;
use crate::text_key::TextKey;
use std::alloc::{AllocError, Global};
use std::boxed::Box;
use std::marker::Model;
use std::slice;
use values::NoMemory;

// Many numbers have one text, which lies in the table itself.
#[derive(Drop)]
pub(crate) enum TableForm {
    Empty,
    One(TextKey),
    Many(Box<HashedTexts>),
}

/// A set of texts.
pub struct TextTable {
    form: TableForm,
}

impl Model for TextTable {
    ghost use Rattle.pairs.specs.Pairs.{TextKeys};
    ghost use Rattle.std.specs.FinSet as set;
    ghost use Rattle.std.specs.Coded.{coded_ℕ, coded_list};

    ghost Value = { TextKeys };

    ghost coded = { set.code (coded_list coded_ℕ) };

    ghost use Rattle.pairs.specs.Inner.TableView.{table_texts};

    ghost view = { λ t. table_texts t.form };
}

// By hand, so that what drops a table calls this, and doesn't branch on its form.
impl Drop for TextTable {
    fn drop(self) {
        let TextTable { form } = self;
        drop(form);
    }
}

impl TextTable {
    /// One text. Allocates nothing.
    pub fn of(text: TextKey) -> TextTable
        ensures { result ≡ set.insert set.empty text }
    {
        TextTable {
            form: TableForm::One(text),
        }
    }

    // Two texts, of which the table of hashes has copies.
    fn with(
        alloc: Global,
        key: HashKey,
        first: &TextKey,
        second: TextKey,
    ) -> Result<TextTable, NoMemory>
        ensures { IfOk result (λ table. table ≡ set.insert (set.insert set.empty first.now) second) }
    {
        let mut texts = HashedTexts::keyed(alloc, key);
        texts.insert(first.clone()?)?;
        texts.insert(second)?;
        Ok(TextTable {
            form: TableForm::Many(Box::new(alloc, texts)?),
        })
    }

    /// The number of texts.
    pub fn len(&self) -> usize
        ensures { result ≡ set.len self.now }
    {
        match &self.form {
            TableForm::Empty => 0,
            TableForm::One(_) => 1,
            TableForm::Many(texts) => texts.len(),
        }
    }

    /// Whether there is no text.
    pub fn is_empty(&self) -> bool
        ensures { IsTrue result ↔ (self.now ≡ set.empty) }
    {
        match &self.form {
            TableForm::Empty => true,
            TableForm::One(_) => false,
            TableForm::Many(texts) => texts.is_empty(),
        }
    }

    /// Whether the text is in the set.
    pub fn contains(&self, text: &str) -> bool
        ensures { result ≡ set.contains self.now text.now }
    {
        match &self.form {
            TableForm::Empty => false,
            TableForm::One(only) => only.as_str() == text,
            TableForm::Many(texts) => texts.contains(text),
        }
    }

    /// Adds a text and returns whether it is new. A refused allocation changes nothing.
    pub fn insert(&mut self, alloc: Global, key: HashKey, text: TextKey) -> Result<bool, NoMemory>
        ensures ok { OnOk result (self.new ≡ set.insert self.old text) }
        ensures added { IfOk result (λ added. added ≡ not (set.contains self.old text)) }
        ensures err { OnErr result (self.new ≡ self.old) }
    {
        match &mut self.form {
            TableForm::Empty => *self = TextTable::of(text),
            TableForm::One(only) => {
                if only.as_str() == text.as_str() {
                    return Ok(false);
                }
                let table = TextTable::with(alloc, key, only, text)?;
                *self = table;
            }
            TableForm::Many(texts) => return texts.insert(text),
        }
        Ok(true)
    }

    /// Removes a text.
    pub fn remove(&mut self, text: &str)
        ensures { self.new ≡ set.remove self.old text.now }
    {
        match &mut self.form {
            TableForm::Empty => return,
            TableForm::One(only) => {
                if only.as_str() == text {
                    *self = TextTable {
                        form: TableForm::Empty,
                    };
                }
            }
            TableForm::Many(texts) => {
                texts.remove(text);
            }
        }
    }

    /// The texts, each once, in no order that a caller may rely on.
    pub fn as_slice(&self) -> &[TextKey]
        ensures texts { set.from_list result.now ≡ self.now }
        ensures once { IsDistinct bytes_eq result.now }
    {
        match &self.form {
            TableForm::Empty => &[],
            TableForm::One(only) => slice::from_ref(only),
            TableForm::Many(texts) => texts.as_slice(),
        }
    }
}

impl Clone for TextTable {
    ghost is_clone = { λ x y. y ≡ x };

    fn clone(&self) -> Result<TextTable, AllocError> {
        match &self.form {
            TableForm::Empty => Ok(TextTable {
                form: TableForm::Empty,
            }),
            TableForm::One(only) => Ok(TextTable::of(only.clone()?)),
            TableForm::Many(texts) => Ok(TextTable {
                form: TableForm::Many(texts.clone()?),
            }),
        }
    }
}
