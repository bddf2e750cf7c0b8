//! Threads that may not start, and gates that hold.

use crate::words::{CLOSE_SESSION, TWO_GROUPS, batches_of, ending, tree_behind};
use apply_workers::{Gate, Starts, apply_batch_on};
use batcher::Batch;
use data_tree::{Outcome, Tree};
use std::alloc::Global;
use std::sync::atomic::{AtomicU64, Ordering};
use std::test::Fail;
use std::thread::Threads;
use values::NoMemory;

const MOST_TURNS: u64 = 1_000_000;

// The number of workers beside the calling thread.
const OTHERS: usize = 63;

// How many of their threads are refused.
const REFUSED: [usize; 3] = [0, 1, OTHERS];

// Refuses the threads of the first workers, and counts those that it is asked for.
#[derive(Drop)]
struct Refusing {
    threads: usize,
    asked: AtomicU64,
}

impl Starts for Refusing {
    fn may_start(&self, worker: usize) -> bool {
        self.asked.fetch_add(1, Ordering::SeqCst);
        worker > self.threads
    }
}

// Holds each group until all greater ones have passed, or all smaller ones, for a while at most: where there are fewer
// workers than groups, one of these may be claimed by nobody in the meantime.
#[derive(Drop)]
struct Holding {
    groups: usize,
    greater_first: bool,
    passed: AtomicU64,
    // How many were passed by workers other than the first.
    by_others: AtomicU64,
}

impl Holding {
    // The number of groups that pass before this one.
    fn before(&self, group: usize) -> u64 {
        if self.greater_first {
            return self.groups.saturating_sub(1).saturating_sub(group) as u64;
        }
        group as u64
    }
}

impl Gate for Holding {
    fn pass(&self, worker: usize, group: usize) {
        if worker != 0 {
            self.by_others.fetch_add(1, Ordering::SeqCst);
        }
        let before = self.before(group);
        for _ in 0..MOST_TURNS {
            if self.passed.load(Ordering::SeqCst) >= before {
                break;
            }
        }
        self.passed.fetch_add(1, Ordering::SeqCst);
    }
}

// The outcomes of the batch; none if a thread that was refused has worked, or if another number of threads was asked
// for than there are groups for.
fn apply_one<R: Threads + Sync>(
    rt: &R,
    alloc: Global,
    tree: &mut Tree,
    batch: Batch,
    threads: usize,
    greater_first: bool,
) -> Result<Option<Vec<Outcome>>, NoMemory> {
    let groups = batch.groups().len();
    let gate = Holding {
        groups,
        greater_first,
        passed: AtomicU64::new(0),
        by_others: AtomicU64::new(0),
    };
    let starts = Refusing {
        threads,
        asked: AtomicU64::new(0),
    };
    let outcomes = apply_batch_on(rt, alloc, tree, batch, OTHERS + 1, &gate, &starts)?;
    let asked = starts.asked.load(Ordering::SeqCst);
    let by_others = gate.by_others.load(Ordering::SeqCst);
    if asked != groups.saturating_sub(1) as u64 || (threads == OTHERS && by_others != 0) {
        return Ok(None);
    }
    Ok(Some(outcomes))
}

fn apply_in<R: Threads + Sync>(
    rt: &R,
    alloc: Global,
    tree: &mut Tree,
    words: &str,
    threads: usize,
    greater_first: bool,
) -> Result<String, Fail> {
    let mut outcomes: Vec<Outcome> = Vec::new(alloc);
    for batch in batches_of(alloc, words)? {
        match apply_one(rt, alloc, tree, batch, threads, greater_first)? {
            None => return Ok(String::from_str(alloc, "wrong threads")?),
            Some(mut more) => outcomes.append(&mut more)?,
        }
    }
    ending(alloc, outcomes.as_slice(), tree)
}

// The ending of the batches of these words, after the words before, by 64 workers of which this many don't start.
fn ended<R: Threads + Sync>(
    rt: &R,
    alloc: Global,
    (before, words): (&str, &str),
    threads: usize,
    greater_first: bool,
) -> Result<String, Fail> {
    let mut tree = tree_behind(alloc, before)?;
    apply_in(rt, alloc, &mut tree, words, threads, greater_first)
}

// Whether the words have this ending, whichever threads are refused, and whichever groups are held.
fn is_so<R: Threads + Sync>(
    rt: &R,
    alloc: Global,
    words: (&str, &str),
    wanted: &str,
) -> Result<bool, Fail> {
    for threads in REFUSED {
        for greater_first in [false, true] {
            if ended(rt, alloc, words, threads, greater_first)?.as_str() != wanted {
                return Ok(false);
            }
        }
    }
    Ok(true)
}

// Words that create 64 nodes, each with this end of its path.
fn creates(alloc: Global, end: &str) -> Result<String, Fail> {
    let mut words = String::new(alloc);
    for node in 10..74u32 {
        words.push_str(format!(in alloc; "/{node}{end} ")?.as_str())?;
    }
    Ok(words)
}

// The ending of the creates of a child of each: as many groups as there are workers.
fn wanted_of_most(alloc: Global) -> Result<String, Fail> {
    let mut text = String::new(alloc);
    for node in 10..74u32 {
        text.push_str(format!(in alloc; "0+/{node}/x~/{node};")?.as_str())?;
    }
    text.push_str("131")?;
    for node in 10..74u32 {
        text.push_str(format!(in alloc; " {node}")?.as_str())?;
    }
    text.push_str(" zookeeper;;; -1 - -")?;
    Ok(text)
}

// Whether a group for each worker has this ending.
fn is_so_of_most<R: Threads + Sync>(rt: &R, alloc: Global) -> Result<bool, Fail> {
    let parents = creates(alloc, "")?;
    let children = creates(alloc, "/x")?;
    let wanted = wanted_of_most(alloc)?;
    is_so(
        rt,
        alloc,
        (parents.as_str(), children.as_str()),
        wanted.as_str(),
    )
}

#[test]
fn refused_threads_change_nothing(rt: HostRuntime) -> Result<(), Fail> {
    let alloc = rt.alloc();
    let (words, wanted) = TWO_GROUPS;
    assert!(rt; is_so(&rt, alloc, words, wanted)?);
    let (words, wanted) = CLOSE_SESSION;
    assert!(rt; is_so(&rt, alloc, words, wanted)?);
    Ok(())
}

#[test]
fn each_thread_may_be_refused(rt: HostRuntime) -> Result<(), Fail> {
    assert!(rt; is_so_of_most(&rt, rt.alloc())?);
    Ok(())
}
