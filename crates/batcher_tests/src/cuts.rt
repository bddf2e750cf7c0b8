//! Batches cut from the front of a list.

use crate::{read_txn, read_txns};
use batcher::{HashKey, LentBatch, Limits, cut, cut_front, front_of};
use std::alloc::Global;
use std::collections::VecDeque;
use std::test::Fail;
use txn_codec::Txn;

// The number of transactions in the batch, and each group's places and paths; or the word "barrier".
fn shown(alloc: Global, batch: &LentBatch<'_>) -> Result<String, Fail> {
    let count = batch.txns().len();
    let mut text = format!(in alloc; "{count}")?;
    if batch.is_barrier() {
        text.push_str(" barrier")?;
    }
    for group in batch.groups() {
        text.push_str(";")?;
        for place in group.members() {
            let place = *place;
            text.push_str(format!(in alloc; " {place}")?.as_str())?;
        }
        for path in group.paths().iter() {
            text.push_str(" ")?;
            text.push_str(path.as_str())?;
        }
    }
    Ok(text)
}

// The batch cut from the list with these limits.
fn cut_of(alloc: Global, words: &str, batch: usize, groups: usize) -> Result<String, Fail> {
    let limits = Limits::new(4, batch, groups)?;
    let txns = read_txns(alloc, words)?;
    let batch = cut(alloc, HashKey::default(), txns.as_slice(), &limits)?;
    shown(alloc, &batch.lend())
}

// The batch cut with the default limits.
fn usual(alloc: Global, words: &str) -> Result<String, Fail> {
    cut_of(alloc, words, 256, 64)
}

// The batch at the front of the list, lent from there, with the default limits; and the number of transactions after
// it.
fn lent(alloc: Global, words: &str) -> Result<String, Fail> {
    let txns = read_txns(alloc, words)?;
    let limits = Limits::new(4, 256, 64)?;
    let front = front_of(alloc, HashKey::default(), txns.as_slice(), &limits)?;
    let text = shown(alloc, &front.lend(txns.as_slice()))?;
    let text = text.as_str();
    let rest = txns.len().saturating_sub(front.len());
    Ok(format!(in alloc; "{text} ({rest})")?)
}

// Appends the transactions of these words to the queue.
fn queue_up(alloc: Global, queue: &mut VecDeque<Txn>, words: &str) -> Result<(), Fail> {
    for txn in read_txns(alloc, words)? {
        queue.push_back(txn)?;
    }
    Ok(())
}

// The batch moved out of the queue with the default limits, and the number of transactions left there.
fn moved(alloc: Global, queue: &mut VecDeque<Txn>) -> Result<String, Fail> {
    let batch = cut_front(alloc, HashKey::default(), queue, &Limits::new(4, 256, 64)?)?;
    let text = shown(alloc, &batch.lend())?;
    let text = text.as_str();
    let left = queue.len();
    Ok(format!(in alloc; "{text} ({left})")?)
}

// This many checks.
fn checks(alloc: Global, count: usize) -> Result<Vec<Txn>, Fail> {
    let mut txns = Vec::new(alloc);
    for _ in 0..count {
        txns.push(read_txn(alloc, "?/a")?)?;
    }
    Ok(txns)
}

// The most checks that are cut of this many.
fn most_cut(alloc: Global, count: usize) -> Result<(usize, bool), Fail> {
    let limits = Limits::new(64, 4096, 256)?;
    let txns = checks(alloc, count)?;
    let batch = cut(alloc, HashKey::default(), txns.as_slice(), &limits)?;
    Ok((batch.len(), batch.is_empty()))
}

// Whether these are limits, and are returned as they are.
fn are_limits(workers: usize, batch: usize, groups: usize) -> bool {
    match Limits::new(workers, batch, groups) {
        Ok(limits) => {
            limits.workers() == workers && limits.batch() == batch && limits.groups() == groups
        }
        Err(_) => false,
    }
}

#[test]
fn those_that_share_a_path_are_one_group(rt: HostRuntime) -> Result<(), Fail> {
    let alloc = rt.alloc();
    let two = usual(alloc, "/a/x /a/y /b/z")?;
    assert_eq!(rt; two.as_str(), "3; 0 1 /a /a/x /a/y; 2 /b /b/z");
    let back = usual(alloc, "/a/x /b/y /a/z /b/w /a/x/v")?;
    assert_eq!(rt;
        back.as_str(),
        "5; 0 2 4 /a /a/x /a/x/v /a/z; 1 3 /b /b/w /b/y"
    );
    let multi = usual(alloc, "/a/x /a/y/z +/a/p,/a/q /b/r +/b/s")?;
    assert_eq!(rt;
        multi.as_str(),
        "5; 0 2 /a /a/p /a/q /a/x; 1 /a/y /a/y/z; 3 4 /b /b/r /b/s"
    );
    Ok(())
}

#[test]
fn one_that_meets_two_groups_begins_the_next_batch(rt: HostRuntime) -> Result<(), Fail> {
    let alloc = rt.alloc();
    let front = usual(alloc, "/a/x /b/y +/a/p,/b/q")?;
    assert_eq!(rt; front.as_str(), "2; 0 /a /a/x; 1 /b /b/y");
    assert_eq!(rt;
        usual(alloc, "+/a/p,/b/q")?.as_str(),
        "1; 0 /a /a/p /b /b/q"
    );
    Ok(())
}

#[test]
fn a_barrier_is_alone(rt: HostRuntime) -> Result<(), Fail> {
    let alloc = rt.alloc();
    assert_eq!(rt; usual(alloc, "close /a/x")?.as_str(), "1 barrier");
    assert_eq!(rt; usual(alloc, "/a/x close /a/y")?.as_str(), "1; 0 /a /a/x");
    assert_eq!(rt; usual(alloc, "")?.as_str(), "0");
    Ok(())
}

#[test]
fn what_has_no_path_joins_the_group_opened_last(rt: HostRuntime) -> Result<(), Fail> {
    let alloc = rt.alloc();
    assert_eq!(rt;
        usual(alloc, "open /a/x ?/b open")?.as_str(),
        "4; 0; 1 2 3 /a /a/x"
    );
    assert_eq!(rt;
        usual(alloc, "/a/x /b/y /a/z open")?.as_str(),
        "4; 0 2 /a /a/x /a/z; 1 3 /b /b/y"
    );
    assert_eq!(rt; usual(alloc, "?/a")?.as_str(), "1; 0");
    Ok(())
}

#[test]
fn a_cut_keeps_to_its_limits(rt: HostRuntime) -> Result<(), Fail> {
    let alloc = rt.alloc();
    assert_eq!(rt;
        cut_of(alloc, "/a/x /a/y", 1, 256)?.as_str(),
        "1; 0 /a /a/x"
    );
    assert_eq!(rt;
        cut_of(alloc, "/a/x /b/y", 4096, 1)?.as_str(),
        "1; 0 /a /a/x"
    );
    assert_eq!(rt;
        cut_of(alloc, "/a/x /a/y /b/y", 4096, 1)?.as_str(),
        "2; 0 1 /a /a/x /a/y"
    );
    assert_eq!(rt; most_cut(alloc, 4097)?, (4096, false));
    assert_eq!(rt; most_cut(alloc, 0)?, (0, true));
    Ok(())
}

#[test]
fn limits_are_within_their_bounds(rt: HostRuntime) -> Result<(), Fail> {
    assert!(rt; are_limits(1, 1, 1) && are_limits(64, 4096, 256));
    assert!(rt; !are_limits(0, 1, 1) && !are_limits(65, 1, 1));
    assert!(rt; !are_limits(1, 0, 1) && !are_limits(1, 4097, 1));
    assert!(rt; !are_limits(1, 1, 0) && !are_limits(1, 1, 257));
    Ok(())
}

#[test]
fn a_front_is_lent_where_it_stands(rt: HostRuntime) -> Result<(), Fail> {
    let alloc = rt.alloc();
    let two = lent(alloc, "/a/x /b/y /a/z +/a/p,/b/q")?;
    assert_eq!(rt; two.as_str(), "3; 0 2 /a /a/x /a/z; 1 /b /b/y (1)");
    assert_eq!(rt; lent(alloc, "close /a/x")?.as_str(), "1 barrier (1)");
    assert_eq!(rt; lent(alloc, "")?.as_str(), "0 (0)");
    Ok(())
}

#[test]
fn a_queue_keeps_what_is_behind_the_batch(rt: HostRuntime) -> Result<(), Fail> {
    let alloc = rt.alloc();
    let mut queue = VecDeque::new(alloc);
    queue_up(alloc, &mut queue, "/a/x close /b/y")?;
    assert_eq!(rt; moved(alloc, &mut queue)?.as_str(), "1; 0 /a /a/x (2)");
    // Now the queue wraps around its end.
    queue_up(alloc, &mut queue, "/b/z /c")?;
    assert_eq!(rt; moved(alloc, &mut queue)?.as_str(), "1 barrier (3)");
    assert_eq!(rt;
        moved(alloc, &mut queue)?.as_str(),
        "3; 0 1 /b /b/y /b/z; 2 / /c (0)"
    );
    assert_eq!(rt; moved(alloc, &mut queue)?.as_str(), "0 (0)");
    Ok(())
}
