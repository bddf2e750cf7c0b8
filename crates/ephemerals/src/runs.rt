//! Texts in runs, ascending over all of them.

ghost use Rattle.std.specs.Prelude.{◌≡◌, ◌+◌, ◌<◌, ◌≤◌, ◌∷◌, ◌++◌, [], length, drop, take, OnOk, OnErr, IfOk, IfErr, slice_index_or};
ghost use Rattle.std.specs.List.{insert, remove};
ghost use Rattle.ephemerals.specs.Inner.Runs.{joined, texts_before, AreFilled, AreRuns, AreBelow, AreAbove, IsAt, IsGapFor};
ghost use Rattle.ephemerals.specs.Inner.Placed.{IsTaken, IsOpen, texts_before_place};

use crate::run::Run;
use std::alloc::Global;
use values::{NoMemory, Text};

// How many texts a run may have, and half as many.
const FULL: usize = 64;

const HALF: usize = 32;

/// A run, and a place in it.
#[derive(Clone, Copy)]
pub struct Place {
    pub run: usize,
    pub text: usize,
}

// The first run whose last text isn't below this one, or the number of runs. The last run is asked first, since names
// mostly come in ascending order.
fn run_for(runs: &[Run], text: &str) -> usize
    requires { AreRuns runs.now }
    ensures bound { result ≤ length runs.now }
    ensures below { AreBelow text.now (joined (take result runs.now)) }
    ensures above { result < length runs.now → AreAbove text.now (joined (drop (result + 1) runs.now)) }
{
    if let Some(last) = runs.last() {
        if last.ends_below(text) {
            return runs.len();
        }
    }
    runs.partition_point(|run| run.ends_below(text))
}

/// The place of the text, or the place where it would go, which is in no run where it would go after all.
pub fn find(runs: &[Run], text: &str) -> Result<Place, Place>
    requires { AreRuns runs.now }
    ensures taken { IfOk result (IsTaken runs.now) }
    ensures found { IfOk result (λ place. IsAt text.now (joined runs.now) (texts_before_place runs.now place)) }
    ensures open { IfErr result (IsOpen runs.now) }
    ensures absent { IfErr result
        (λ place. IsGapFor text.now (joined runs.now) (texts_before_place runs.now place)) }
{
    let run = run_for(runs, text);
    if run == runs.len() {
        return Err(Place { run, text: 0 });
    }
    match runs[run].place(text) {
        Ok(place) => Ok(Place { run, text: place }),
        Err(place) => Err(Place { run, text: place }),
    }
}

// Puts the text into a run.
fn put_into(runs: &mut Vec<Run>, run: usize, place: usize, text: Text) -> Result<(), NoMemory>
    requires filled { AreFilled runs.old.items }
    requires run { run < length runs.old.items }
    requires place { place ≤ length (slice_index_or runs.old.items run []) }
    ensures filled { AreFilled runs.new.items }
    ensures ok { OnOk result
        (joined runs.new.items ≡ insert (joined runs.old.items) (texts_before runs.old.items run + place) text) }
    ensures err { OnErr result (joined runs.new.items ≡ joined runs.old.items) }
{
    let own = &mut runs[run];
    own.insert(place, text)?;
    Ok(())
}

// Puts the text after all others.
fn put_last(runs: &mut Vec<Run>, alloc: Global, text: Text) -> Result<(), NoMemory>
    requires filled { AreFilled runs.old.items }
    ensures filled { AreFilled runs.new.items }
    ensures ok { OnOk result (joined runs.new.items ≡ joined runs.old.items ++ text ∷ []) }
    ensures err { OnErr result (joined runs.new.items ≡ joined runs.old.items) }
{
    let count = runs.len();
    if count > 0 {
        let len = runs[count - 1].len();
        if len < FULL {
            return put_into(runs, count - 1, len, text);
        }
    }
    let run = Run::of(alloc, text)?;
    if count == 0 {
        runs.reserve_exact(1)?;
    }
    Ok(runs.push(run)?)
}

// Splits a run in two.
fn split(runs: &mut Vec<Run>, alloc: Global, run: usize) -> Result<(), NoMemory>
    requires run { run < length runs.old.items }
    requires len { 32 < length (slice_index_or runs.old.items run []) }
    ensures ok { OnOk result (runs.new.items ≡ take run runs.old.items
        ++ take 32 (slice_index_or runs.old.items run []) ∷ drop 32 (slice_index_or runs.old.items run [])
        ∷ drop (run + 1) runs.old.items) }
    ensures err { OnErr result (runs.new.items ≡ runs.old.items) }
{
    let later = runs[run].later(alloc, HALF)?;
    runs.insert(run + 1, later)?;
    let own = &mut runs[run];
    own.truncate(HALF);
    Ok(())
}

/// Puts the text at the place. A refused allocation leaves the same texts.
pub fn put(runs: &mut Vec<Run>, alloc: Global, place: Place, text: &str) -> Result<(), NoMemory>
    requires filled { AreFilled runs.old.items }
    requires open { IsOpen runs.old.items place }
    ensures filled { AreFilled runs.new.items }
    ensures ok { OnOk result (joined runs.new.items
        ≡ insert (joined runs.old.items) (texts_before_place runs.old.items place) text.now) }
    ensures err { OnErr result (joined runs.new.items ≡ joined runs.old.items) }
{
    let Place { run, text: at } = place;
    let text = Text::new(alloc, text)?;
    if run == runs.len() {
        return put_last(runs, alloc, text);
    }
    if runs[run].len() < FULL {
        return put_into(runs, run, at, text);
    }
    split(runs, alloc, run)?;
    if at <= HALF {
        return put_into(runs, run, at, text);
    }
    put_into(runs, run + 1, at - HALF, text)
}

/// Removes the text at the place and returns it.
pub fn take(runs: &mut Vec<Run>, place: Place) -> Text
    requires filled { AreFilled runs.old.items }
    requires taken { IsTaken runs.old.items place }
    ensures filled { AreFilled runs.new.items }
    ensures rest { joined runs.new.items
        ≡ remove (joined runs.old.items) (texts_before_place runs.old.items place) }
    ensures text { IsAt result (joined runs.old.items) (texts_before_place runs.old.items place) }
{
    let own = &mut runs[place.run];
    let text = own.remove(place.text);
    if own.len() == 0 {
        runs.remove(place.run);
    }
    text
}
