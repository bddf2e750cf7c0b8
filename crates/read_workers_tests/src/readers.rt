//! Readers look at the same time, and each answer is that of its own ask.
ghost use Rattle.std.specs.Prelude.{◌≤◌};

use apply_workers::{Gate, OpenGate};
use client_records::ReadKind;
use data_tree::Tree;
use read_processor::{Ask, Look, Request};
use read_workers::{look_all, look_run};
use settings::Dialect;
use std::alloc::Global;
use std::sync::atomic::{AtomicU64, Ordering};
use std::test::Fail;
use std::thread::Threads;
use values::{NoMemory, Str};

const MOST_TURNS: u64 = 1_000_000_000;

// The asks of `asks`, by their errors: 0 for a node that is there, and -101 for one that isn't.
const ERRORS: &[i32] = &[0, -101, 0];

// How often these are asked, one after the other, so that they are more than a reader takes at a time.
const TIMES: usize = 40;

// Holds the first piece until another one was passed, or notes that none was.
#[derive(Drop)]
struct Holding {
    passed: AtomicU64,
    missed: AtomicU64,
}

impl Gate for Holding {
    fn pass(&self, _reader: usize, piece: usize) {
        if piece != 0 {
            self.passed.store(1, Ordering::SeqCst);
            return;
        }
        for _ in 0..MOST_TURNS {
            if self.passed.load(Ordering::SeqCst) == 1 {
                return;
            }
        }
        self.missed.store(1, Ordering::SeqCst);
    }
}

fn exists(path: &str) -> Ask<'_> {
    let request = Request {
        kind: ReadKind::Exists,
        path: Some(Str::new(path)),
        watch: false,
        rules: Dialect::Zk34,
    };
    Ask { ids: &[], request }
}

// Reads of a node that is there, of one that isn't, and of a node that is there, so often.
fn asks(alloc: Global, times: usize) -> Result<Vec<Ask<'static>>, NoMemory> {
    let mut asks = Vec::new(alloc);
    for _ in 0..times {
        asks.push(exists("/zookeeper"))?;
        asks.push(exists("/q"))?;
        asks.push(exists("/"))?;
    }
    Ok(asks)
}

fn have_errors(looks: &[Look], times: usize) -> bool {
    looks.len() == ERRORS.len().saturating_mul(times)
        && looks
            .iter()
            .zip(ERRORS.iter().cycle())
            .all(|(look, error)| look.error == *error)
}

// Whether the answers are right, each of its own ask.
fn are_right<R: Threads + Sync, G: Gate + Sync>(
    rt: &R,
    alloc: Global,
    readers: usize,
    gate: &G,
) -> Result<bool, NoMemory>
    requires { (1 ≤ readers) × (readers ≤ 64) }
{
    let tree = Tree::fresh(alloc)?;
    let asks = asks(alloc, TIMES)?;
    let looks = look_all(rt, alloc, &tree, asks.as_slice(), readers, gate)?;
    Ok(have_errors(looks.as_slice(), TIMES))
}

// The same below a threshold of four reads, with a gate that would be held.
fn are_right_below_threshold<R: Threads + Sync, G: Gate + Sync>(
    rt: &R,
    alloc: Global,
    gate: &G,
) -> Result<bool, NoMemory> {
    let tree = Tree::fresh(alloc)?;
    let asks = asks(alloc, 1)?;
    let looks = look_run(rt, alloc, &tree, asks.as_slice(), 2, 4, gate)?;
    Ok(have_errors(looks.as_slice(), 1))
}

fn new_gate() -> Holding {
    Holding {
        passed: AtomicU64::new(0),
        missed: AtomicU64::new(0),
    }
}

#[test]
fn a_held_read_holds_no_other(rt: HostRuntime) -> Result<(), Fail> {
    let gate = new_gate();
    assert!(rt; are_right(&rt, rt.alloc(), 2, &gate)?);
    assert!(rt; gate.missed.load(Ordering::SeqCst) == 0);
    Ok(())
}

#[test]
fn any_number_of_readers_answers_the_same(rt: HostRuntime) -> Result<(), Fail> {
    assert!(rt; are_right(&rt, rt.alloc(), 1, &OpenGate)?);
    assert!(rt; are_right(&rt, rt.alloc(), 64, &OpenGate)?);
    Ok(())
}

#[test]
fn few_reads_pass_no_gate(rt: HostRuntime) -> Result<(), Fail> {
    let gate = new_gate();
    assert!(rt; are_right_below_threshold(&rt, rt.alloc(), &gate)?);
    assert!(rt; gate.passed.load(Ordering::SeqCst) == 0);
    Ok(())
}
