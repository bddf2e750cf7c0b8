//! Groups are applied at the same time, by workers that share them as they go.
ghost use Rattle.std.specs.Prelude.{◌≤◌};

use crate::words::{answers, batch_of, tree_behind};
use apply_workers::{Gate, apply_batch, apply_list};
use batcher::{Limits, SpreadThreshold};
use batcher_tests::read_txns;
use data_tree::Outcome;
use std::alloc::Global;
use std::sync::atomic::{AtomicU64, Ordering};
use std::test::Fail;
use std::thread::Threads;

const MOST_TURNS: u64 = 1_000_000_000;

// Holds a group until this many others were passed, or notes that they weren't.
#[derive(Drop)]
struct Holding {
    held: usize,
    others: u64,
    passed: AtomicU64,
    missed: AtomicU64,
}

impl Gate for Holding {
    fn pass(&self, _worker: usize, group: usize) {
        if group != self.held {
            self.passed.fetch_add(1, Ordering::SeqCst);
            return;
        }
        for _ in 0..MOST_TURNS {
            if self.passed.load(Ordering::SeqCst) == self.others {
                return;
            }
        }
        self.missed.store(1, Ordering::SeqCst);
    }
}

// The outcomes of the batch of these words by this many workers, after the creates of three nodes.
fn done<R: Threads + Sync, G: Gate + Sync>(
    rt: &R,
    alloc: Global,
    words: &str,
    workers: usize,
    gate: &G,
) -> Result<Vec<Outcome>, Fail>
    requires { (1 ≤ workers) × (workers ≤ 64) }
{
    let batch = batch_of(alloc, words)?;
    let mut tree = tree_behind(alloc, "/a /b /c")?;
    Ok(apply_batch(rt, alloc, &mut tree, batch, workers, gate)?)
}

// The same, applied as a list.
fn listed<R: Threads + Sync, G: Gate + Sync>(
    rt: &R,
    alloc: Global,
    words: &str,
    workers: usize,
    gate: &G,
) -> Result<Vec<Outcome>, Fail> {
    let txns = read_txns(alloc, words)?;
    let limits = Limits::new(workers, 256, 64)?;
    let mut tree = tree_behind(alloc, "/a /b /c")?;
    Ok(apply_list(
        rt,
        alloc,
        &mut tree,
        txns.as_slice(),
        &limits,
        &SpreadThreshold::ALWAYS,
        gate,
    )?)
}

// The outcomes by two workers, of a batch or a list, while one group is held until this many others were passed; or the
// word "missed".
fn held<R: Threads + Sync>(
    rt: &R,
    alloc: Global,
    words: &str,
    held: usize,
    others: u64,
    is_list: bool,
) -> Result<String, Fail> {
    let gate = Holding {
        held,
        others,
        passed: AtomicU64::new(0),
        missed: AtomicU64::new(0),
    };
    let outcomes = if is_list {
        listed(rt, alloc, words, 2, &gate)?
    } else {
        done(rt, alloc, words, 2, &gate)?
    };
    if gate.missed.load(Ordering::SeqCst) != 0 {
        return Ok(String::from_str(alloc, "missed")?);
    }
    answers(alloc, outcomes.as_slice())
}

// Counts the groups that worker 0 passes in their order, and all others.
#[derive(Drop)]
struct Counting {
    in_order: AtomicU64,
    others: AtomicU64,
}

impl Gate for Counting {
    fn pass(&self, worker: usize, group: usize) {
        if worker == 0 && self.in_order.load(Ordering::SeqCst) == group as u64 {
            self.in_order.fetch_add(1, Ordering::SeqCst);
            return;
        }
        self.others.fetch_add(1, Ordering::SeqCst);
    }
}

// The number of groups that one worker passes in their order, and the number of the others.
fn passed<R: Threads + Sync>(rt: &R, alloc: Global, words: &str) -> Result<(u64, u64), Fail> {
    let gate = Counting {
        in_order: AtomicU64::new(0),
        others: AtomicU64::new(0),
    };
    let _outcomes = done(rt, alloc, words, 1, &gate)?;
    Ok((
        gate.in_order.load(Ordering::SeqCst),
        gate.others.load(Ordering::SeqCst),
    ))
}

#[test]
fn one_worker_passes_the_gate_once_for_each_group(rt: HostRuntime) -> Result<(), Fail> {
    let alloc = rt.alloc();
    assert!(rt; passed(&rt, alloc, "/a/x /b/y /a/z /c/w open /b/v")? == (3, 0));
    assert!(rt; passed(&rt, alloc, "close")? == (0, 0));
    Ok(())
}

#[test]
fn a_held_group_holds_no_other(rt: HostRuntime) -> Result<(), Fail> {
    let alloc = rt.alloc();
    for is_list in [false, true] {
        let two = held(&rt, alloc, "/a/x /a/y /b/z", 0, 1, is_list)?;
        assert_eq!(rt; two.as_str(), "0+/a/x~/a;0+/a/y~/a;0+/b/z~/b;");
    }
    for group in 0..3 {
        let three = held(&rt, alloc, "/a/x /b/y /c/z", group, 2, false)?;
        assert_eq!(rt; three.as_str(), "0+/a/x~/a;0+/b/y~/b;0+/c/z~/c;");
    }
    Ok(())
}
