//! The texts of a set, one after the other.

ghost use Rattle.std.specs.Prelude.{◌≡◌, length};
ghost use Rattle.std.specs.Iterator.{at_most};
ghost use Rattle.std.specs.Map.Iter.{TakesFirst, deref};
ghost use Rattle.ephemerals.specs.Inner.Runs.{joined, AreFilled};

use crate::run::Run;
use std::marker::Model;
use values::Text;

/// The texts that are left, in ascending order of their bytes.
#[derive(Drop)]
pub struct Texts<'a> {
    run: &'a [Text],
    runs: &'a [Run],
}

impl<'a> Model for Texts<'a> {
    ghost use Rattle.std.specs.Prelude.{List, ℕ, ◌++◌};
    ghost use Rattle.ephemerals.specs.Inner.Runs.{joined, AreFilled};

    ghost Value = { List (List ℕ) };

    ghost view = { λ t. t.run.now ++ joined t.runs.now };

    ghost invariant = { λ t. AreFilled t.runs.now };
}

impl<'a> Texts<'a> {
    pub(crate) fn of(runs: &'a [Run]) -> Texts<'a>
        requires { AreFilled runs.now }
        ensures { result ≡ joined runs.now }
    {
        Texts { run: &[], runs }
    }
}

impl<'a> Iterator for Texts<'a> {
    type Item = &'a Text;

    ghost next_gives = { TakesFirst deref };

    ghost remaining = { λ s. at_most (length s) };

    fn next(&mut self) -> Option<&'a Text> {
        if self.run.is_empty() {
            let (run, runs) = self.runs.split_first()?;
            self.run = run.as_slice();
            self.runs = runs;
        }
        let (text, run) = self.run.split_first()?;
        self.run = run;
        Some(text)
    }
}
