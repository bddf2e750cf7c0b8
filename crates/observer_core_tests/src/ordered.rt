//! Whichever group of an event's transactions is applied first, the watchers are told in the order of the transactions.

use crate::held::{Steps, counts, feed_steps, with_workers};
use crate::helpers::are_replies;
use apply_workers::Gate;
use observer_core::Engine;
use std::alloc::Global;
use std::sync::atomic::{AtomicU64, Ordering};
use std::test::*;
use std::thread::Threads;

const GROUPS: usize = 3;

// For as many workers as groups, which all come to their turn.
const MOST_TURNS: u64 = 1_000_000_000;

// For fewer workers, of which one may wait for a group that nobody has claimed yet.
const FEW_TURNS: u64 = 1_000_000;

// Holds each group until all greater ones were passed, or all smaller ones, and notes that it waited in vain.
#[derive(Drop)]
struct HoldsEach {
    greater_first: bool,
    turns: u64,
    passed: AtomicU64,
    missed: AtomicU64,
}

impl HoldsEach {
    // The number of groups that have to be passed before this one.
    fn before(&self, group: usize) -> u64 {
        if self.greater_first {
            return GROUPS.saturating_sub(1).saturating_sub(group) as u64;
        }
        group as u64
    }
}

impl Gate for HoldsEach {
    fn pass(&self, _worker: usize, group: usize) {
        let before = self.before(group);
        for _ in 0..self.turns {
            if self.passed.load(Ordering::SeqCst) >= before {
                self.passed.fetch_add(1, Ordering::SeqCst);
                return;
            }
        }
        self.missed.fetch_add(1, Ordering::SeqCst);
        self.passed.fetch_add(1, Ordering::SeqCst);
    }
}

// The getChildren of /a, /b and /c and the exists of /a/y, which leave watches.
const ASKED: &[u8] = b"\0\0\0\x0f\0\0\0\x02\0\0\0\x08\0\0\0\x02/a\x01\
    \0\0\0\x0f\0\0\0\x03\0\0\0\x08\0\0\0\x02/b\x01\
    \0\0\0\x0f\0\0\0\x04\0\0\0\x08\0\0\0\x02/c\x01\
    \0\0\0\x11\0\0\0\x05\0\0\0\x03\0\0\0\x04/a/y\x01";

// The replies, and an event for each transaction.
const WANTED: [&[u8]; 8] = [
    b"\0\0\0\x14\0\0\0\x02\0\0\0\x01\0\0\0\x03\0\0\0\0\0\0\0\0",
    b"\0\0\0\x14\0\0\0\x03\0\0\0\x01\0\0\0\x03\0\0\0\0\0\0\0\0",
    b"\0\0\0\x14\0\0\0\x04\0\0\0\x01\0\0\0\x03\0\0\0\0\0\0\0\0",
    b"\0\0\0\x10\0\0\0\x05\0\0\0\x01\0\0\0\x03\xff\xff\xff\x9b",
    b"\0\0\0\x1e\xff\xff\xff\xff\xff\xff\xff\xff\xff\xff\xff\xff\0\0\0\0\0\0\0\x04\0\0\0\x03\0\0\0\x02/a",
    b"\0\0\0\x1e\xff\xff\xff\xff\xff\xff\xff\xff\xff\xff\xff\xff\0\0\0\0\0\0\0\x04\0\0\0\x03\0\0\0\x02/b",
    b"\0\0\0\x1e\xff\xff\xff\xff\xff\xff\xff\xff\xff\xff\xff\xff\0\0\0\0\0\0\0\x04\0\0\0\x03\0\0\0\x02/c",
    b"\0\0\0\x20\xff\xff\xff\xff\xff\xff\xff\xff\xff\xff\xff\xff\0\0\0\0\0\0\0\x01\0\0\0\x03\0\0\0\x04/a/y",
];

// Whether the outputs and the nodes are right. The first and the last child are made in one group, so the watchers
// would be told in another order if they were told group by group.
fn plays_in_order<R: Threads + Sync>(
    rt: &R,
    alloc: Global,
    mut engine: Engine,
    gate: &HoldsEach,
) -> Result<bool, &'static str> {
    let steps = Steps {
        parents: &["/a", "/b", "/c"],
        requests: ASKED,
        children: &["/a/x", "/b/y", "/c/z", "/a/y"],
    };
    let mut outputs = Vec::new(alloc);
    Ok(
        feed_steps(rt, alloc, &mut engine, &steps, gate, &mut outputs)?
            && are_replies(outputs.as_slice(), &WANTED)
            && counts(&engine, "/a") == Some((2, 2, 0x1_0000_0007))
            && counts(&engine, "/b") == Some((1, 1, 0x1_0000_0005))
            && counts(&engine, "/c") == Some((1, 1, 0x1_0000_0006)),
    )
}

// Whether they are by this many workers, in this order of the groups. Where each group has a worker, none waits in
// vain, and one worker passes no gate.
fn is_so<R: Threads + Sync>(
    rt: &R,
    alloc: Global,
    workers: usize,
    greater_first: bool,
) -> Result<bool, &'static str> {
    let turns = if workers < GROUPS {
        FEW_TURNS
    } else {
        MOST_TURNS
    };
    let gate = HoldsEach {
        greater_first,
        turns,
        passed: AtomicU64::new(0),
        missed: AtomicU64::new(0),
    };
    let engine = with_workers(alloc, workers)?;
    let plays = plays_in_order(rt, alloc, engine, &gate)?;
    let is_held = workers < GROUPS || gate.missed.load(Ordering::SeqCst) == 0;
    let wanted = if workers == 1 { 0 } else { 3 };
    Ok(plays && is_held && gate.passed.load(Ordering::SeqCst) == wanted)
}

#[test]
fn watchers_are_told_in_the_order_of_the_transactions(rt: HostRuntime) -> Result<(), Fail> {
    let alloc = rt.alloc();
    for workers in [1, 2, 3, 64] {
        assert!(rt; is_so(&rt, alloc, workers, true)?);
        assert!(rt; is_so(&rt, alloc, workers, false)?);
    }
    Ok(())
}
