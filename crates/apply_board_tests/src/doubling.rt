//! A small work: a number to be doubled.
use apply_board::{Group, Yields};
use apply_workers::Job;
use std::alloc::Global;
use values::NoMemory;

#[derive(Drop)]
pub struct Number {
    pub value: u64,
}

#[derive(Drop)]
pub struct Doubled {
    pub value: u64,
}

impl Yields<Doubled> for Number {
    ghost use Rattle.apply_board_tests.specs.Doubling.{IsDouble};

    ghost gives = { IsDouble };
}

impl Job<Doubled> for Number {
    fn apply(self) -> Doubled {
        Doubled {
            value: self.value.wrapping_add(self.value),
        }
    }
}

/// This many numbers, from 10 on.
pub fn numbers(alloc: Global, count: u64) -> Result<Vec<Number>, NoMemory> {
    let mut works = Vec::new(alloc);
    for k in 0..count {
        works.push(Number {
            value: k.wrapping_add(10),
        })?;
    }
    Ok(works)
}

/// The groups returned: "=20" for a result, "?10" for a work that no worker claimed.
pub fn shown(alloc: Global, groups: &[Group<Number, Doubled>]) -> Result<String, NoMemory> {
    let mut text = String::new(alloc);
    for group in groups {
        match group {
            Group::Home(doubled) => {
                let value = doubled.value;
                text.push_str(format!(in alloc; "={value}")?.as_str())?;
            }
            Group::Unclaimed(number) => {
                let value = number.value;
                text.push_str(format!(in alloc; "?{value}")?.as_str())?;
            }
        }
    }
    Ok(text)
}
