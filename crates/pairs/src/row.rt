//! The numbers of one text.

ghost use Rattle.std.specs.Prelude.{◌≡◌, ◌↔◌, OnOk, OnErr, IfOk, IsTrue, true, not};
ghost use Rattle.std.specs.FinSet as set;

use crate::number_set::NumberSet;
use std::alloc::{AllocError, Global};
use std::boxed::Box;
use std::marker::Model;
use values::NoMemory;

// Most texts have one number, which takes no memory of its own.
#[derive(Drop)]
pub(crate) enum RowForm {
    Empty,
    One(u64),
    Many(Box<NumberSet>),
}

/// The numbers of one text.
pub struct Row {
    pub(crate) form: RowForm,
}

impl Model for Row {
    ghost use Rattle.pairs.specs.Pairs.{Numbers};
    ghost use Rattle.std.specs.FinSet as set;
    ghost use Rattle.std.specs.Coded.{coded_ℕ};

    ghost Value = { Numbers };

    ghost coded = { set.code coded_ℕ };

    ghost use Rattle.pairs.specs.Inner.RowView.{row_numbers};

    ghost view = { λ r. row_numbers r.form };
}

// By hand, so that what drops a row calls this, and doesn't branch on its form.
impl Drop for Row {
    fn drop(self) {
        let Row { form } = self;
        drop(form);
    }
}

impl Row {
    /// One number. Allocates nothing.
    pub fn of(number: u64) -> Row
        ensures { result ≡ set.insert set.empty number }
    {
        Row {
            form: RowForm::One(number),
        }
    }

    // Two numbers.
    fn with(alloc: Global, first: u64, second: u64) -> Result<Row, NoMemory>
        ensures { IfOk result (λ row. row ≡ set.insert (set.insert set.empty first) second) }
    {
        let mut numbers = NumberSet::new(alloc);
        numbers.insert(first)?;
        numbers.insert(second)?;
        Ok(Row {
            form: RowForm::Many(Box::new(alloc, numbers)?),
        })
    }

    /// How many numbers there are.
    pub fn len(&self) -> usize
        ensures { result ≡ set.len self.now }
    {
        match &self.form {
            RowForm::Empty => 0,
            RowForm::One(_) => 1,
            RowForm::Many(numbers) => numbers.len(),
        }
    }

    /// Whether there is no number.
    pub fn is_empty(&self) -> bool
        ensures { IsTrue result ↔ (self.now ≡ set.empty) }
    {
        match &self.form {
            RowForm::Empty => true,
            RowForm::One(_) => false,
            RowForm::Many(numbers) => numbers.is_empty(),
        }
    }

    /// Whether the number is in the set.
    pub fn contains(&self, number: u64) -> bool
        ensures { result ≡ set.contains self.now number }
    {
        match &self.form {
            RowForm::Empty => false,
            RowForm::One(only) => *only == number,
            RowForm::Many(numbers) => numbers.contains(number),
        }
    }

    /// Adds a number and returns whether it is new. A refused allocation changes nothing.
    pub fn insert(&mut self, alloc: Global, number: u64) -> Result<bool, NoMemory>
        ensures ok { OnOk result (self.new ≡ set.insert self.old number) }
        ensures added { IfOk result (λ added. added ≡ not (set.contains self.old number)) }
        ensures err { OnErr result (self.new ≡ self.old) }
    {
        match &mut self.form {
            RowForm::Empty => *self = Row::of(number),
            RowForm::One(only) => {
                let only = *only;
                if only == number {
                    return Ok(false);
                }
                let row = Row::with(alloc, only, number)?;
                *self = row;
            }
            RowForm::Many(numbers) => return numbers.insert(number),
        }
        Ok(true)
    }

    /// Removes a number.
    pub fn remove(&mut self, number: u64)
        ensures { self.new ≡ set.remove self.old number }
    {
        match &mut self.form {
            RowForm::Empty => return,
            RowForm::One(only) => {
                if *only == number {
                    *self = Row {
                        form: RowForm::Empty,
                    };
                }
            }
            RowForm::Many(numbers) => numbers.remove(number),
        }
    }

    /// Adds these numbers to a set. A refused allocation takes no number away, and may leave some of these
    /// added.
    pub fn add_to(&self, numbers: &mut NumberSet) -> Result<(), NoMemory>
        ensures ok { OnOk result (numbers.new ≡ set.union numbers.old self.now) }
        ensures err_keeps { OnErr result (set.is_subset numbers.old numbers.new ≡ true) }
        ensures err_adds { OnErr result (set.is_subset numbers.new (set.union numbers.old self.now) ≡ true) }
    {
        match &self.form {
            RowForm::Empty => return Ok(()),
            RowForm::One(only) => {
                numbers.insert(*only)?;
                Ok(())
            }
            RowForm::Many(own) => numbers.add_all(own),
        }
    }
}

impl Clone for Row {
    ghost is_clone = { λ x y. y ≡ x };

    fn clone(&self) -> Result<Row, AllocError> {
        match &self.form {
            RowForm::Empty => Ok(Row {
                form: RowForm::Empty,
            }),
            RowForm::One(only) => Ok(Row::of(*only)),
            RowForm::Many(numbers) => Ok(Row {
                form: RowForm::Many(numbers.clone()?),
            }),
        }
    }
}
