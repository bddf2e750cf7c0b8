//! A few pairs, step by step.

use pairs::{HashKey, NumberSet, Pairs};
use std::alloc::Global;
use std::process::Abort;
use std::test::Fail;

// Longer than what lies in the set itself.
const LONG: &str = "/a/path/of/more/than/thirty/bytes";

// A text with three numbers, and others with one.
fn some_pairs(alloc: Global) -> Result<Pairs, Fail> {
    let mut pairs = Pairs::keyed(alloc, HashKey::new(3, 5));
    for (text, number) in [("/b", 2), (LONG, 1), ("/b", 7), ("/a", 1), ("/b", 1)] {
        pairs.insert(alloc, text, number)?;
    }
    Ok(pairs)
}

fn one_pair(alloc: Global, text: &str, number: u64) -> Result<Pairs, Fail> {
    let mut pairs = Pairs::new(alloc);
    pairs.insert(alloc, text, number)?;
    Ok(pairs)
}

// The numbers, in their order.
fn listed(alloc: Global, numbers: &NumberSet) -> Result<Vec<u64>, Fail> {
    let mut found = Vec::new(alloc);
    for number in numbers.iter() {
        found.push(*number)?;
    }
    Ok(found)
}

// Whether the text has these numbers.
fn has(alloc: Global, pairs: &Pairs, text: &str, numbers: &[u64]) -> Result<bool, Fail> {
    let found = pairs.numbers_of(alloc, text)?;
    Ok(listed(alloc, &found)?.as_slice() == numbers)
}

// How many pairs there are, texts and numbers.
fn counts(pairs: &Pairs) -> (usize, usize, usize) {
    (pairs.len(), pairs.texts(), pairs.numbers())
}

fn insert_two(rt: &impl Abort, alloc: Global, pairs: &mut Pairs) -> Result<(), Fail> {
    assert!(rt; !pairs.insert(alloc, "/b", 7)?);
    assert!(rt; pairs.insert(alloc, "/b", 3)?);
    assert!(rt; pairs.contains("/b", 3) && !pairs.contains("/a", 3));
    Ok(())
}

fn shows_inserted(rt: &impl Abort, alloc: Global, pairs: &Pairs) -> Result<(), Fail> {
    assert!(rt; has(alloc, pairs, "/b", &[1, 2, 3, 7])?);
    assert!(rt; has(alloc, pairs, LONG, &[1])?);
    assert!(rt; has(alloc, pairs, "/c", &[])?);
    assert!(rt; counts(pairs) == (6, 3, 4));
    assert_eq!(rt; pairs.len_of(1), 3);
    Ok(())
}

fn remove_two(pairs: &mut Pairs) {
    pairs.remove("/b", 2);
    pairs.remove("/b", 2);
    pairs.remove("/a", 1);
}

fn shows_removed(rt: &impl Abort, alloc: Global, pairs: &Pairs) -> Result<(), Fail> {
    assert!(rt; has(alloc, pairs, "/b", &[1, 7])?);
    assert!(rt; counts(pairs) == (3, 2, 2));
    Ok(())
}

// How many texts the number had, and whether the long one was among them.
fn take(pairs: &mut Pairs, number: u64) -> Option<(usize, bool)> {
    match pairs.take_number(number) {
        None => return None,
        Some(texts) => Some((texts.len(), texts.contains(LONG))),
    }
}

// The pairs of one text, in a set that had none.
fn with_one_text(alloc: Global, pairs: &Pairs) -> Result<Pairs, Fail> {
    let mut others = Pairs::new(alloc);
    others.add_of_text(alloc, "/b", pairs)?;
    Ok(others)
}

// All pairs, in a set that had one.
fn with_all(alloc: Global, pairs: &Pairs) -> Result<Pairs, Fail> {
    let mut others = one_pair(alloc, "/c", 9)?;
    others.add_all(alloc, pairs)?;
    Ok(others)
}

// How many texts and numbers are beyond those of the others.
fn beyond(pairs: &Pairs, none: &Pairs, others: &Pairs) -> (usize, usize) {
    let texts = pairs.texts_beyond(none, others, none);
    (texts, pairs.numbers_beyond(none, none, others))
}

#[test]
fn inserting(rt: HostRuntime) -> Result<(), Fail> {
    let alloc = rt.alloc();
    let mut pairs = some_pairs(alloc)?;
    insert_two(&rt, alloc, &mut pairs)?;
    shows_inserted(&rt, alloc, &pairs)
}

#[test]
fn removing(rt: HostRuntime) -> Result<(), Fail> {
    let alloc = rt.alloc();
    let mut pairs = some_pairs(alloc)?;
    remove_two(&mut pairs);
    shows_removed(&rt, alloc, &pairs)
}

#[test]
fn dropping_a_text(rt: HostRuntime) -> Result<(), Fail> {
    let mut pairs = some_pairs(rt.alloc())?;
    pairs.drop_text("/b");
    assert!(rt; counts(&pairs) == (2, 2, 1));
    assert!(rt; pairs.contains(LONG, 1) && !pairs.has_text("/b"));
    Ok(())
}

#[test]
fn taking(rt: HostRuntime) -> Result<(), Fail> {
    let mut pairs = some_pairs(rt.alloc())?;
    assert!(rt; take(&mut pairs, 1) == Some((3, true)));
    assert!(rt; take(&mut pairs, 1).is_none());
    assert!(rt; counts(&pairs) == (2, 1, 2));
    assert!(rt; !pairs.has_text(LONG));
    Ok(())
}

#[test]
fn adding_a_text(rt: HostRuntime) -> Result<(), Fail> {
    let pairs = some_pairs(rt.alloc())?;
    assert!(rt; counts(&with_one_text(rt.alloc(), &pairs)?) == (3, 1, 3));
    Ok(())
}

#[test]
fn adding_all(rt: HostRuntime) -> Result<(), Fail> {
    let pairs = some_pairs(rt.alloc())?;
    assert!(rt; counts(&with_all(rt.alloc(), &pairs)?) == (6, 4, 4));
    Ok(())
}

#[test]
fn others(rt: HostRuntime) -> Result<(), Fail> {
    let pairs = some_pairs(rt.alloc())?;
    let others = one_pair(rt.alloc(), "/b", 2)?;
    assert!(rt; beyond(&pairs, &Pairs::new(rt.alloc()), &others) == (2, 2));
    Ok(())
}

#[test]
fn none(rt: HostRuntime) -> Result<(), Fail> {
    assert!(rt; Pairs::new(rt.alloc()).is_empty());
    Ok(())
}
