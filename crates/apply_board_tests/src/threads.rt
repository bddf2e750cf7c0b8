//! Workers on threads.
ghost use Rattle.std.specs.Prelude.{◌<◌};

use crate::doubling::{numbers, shown};
use apply_board::Group;
use apply_workers::{Gate, OpenGate, run};
use std::alloc::Global;
use std::sync::atomic::{AtomicU64, Ordering};
use std::test::Fail;
use std::thread::Threads;

const MOST_TURNS: u64 = 1_000_000_000;

// Holds a work until both others of three were passed, or notes that they weren't.
#[derive(Drop)]
struct Holding {
    held: usize,
    passed: AtomicU64,
    missed: AtomicU64,
}

impl Gate for Holding {
    fn pass(&self, _worker: usize, group: usize) {
        if group != self.held {
            self.passed.fetch_add(1, Ordering::SeqCst);
            return;
        }
        for _ in 0..MOST_TURNS {
            if self.passed.load(Ordering::SeqCst) == 2 {
                return;
            }
        }
        self.missed.store(1, Ordering::SeqCst);
    }
}

// Whether two workers do the others of three works while one is held.
fn passes<R: Threads + Sync>(rt: &R, alloc: Global, held: usize) -> Result<bool, Fail> {
    let gate = Holding {
        held,
        passed: AtomicU64::new(0),
        missed: AtomicU64::new(0),
    };
    let groups = run(rt, alloc, numbers(alloc, 3)?, 2, &gate)?;
    let text = shown(alloc, groups.as_slice())?;
    Ok(text.as_str() == "=20=22=24" && gate.missed.load(Ordering::SeqCst) == 0)
}

#[test]
fn a_held_work_holds_no_other(rt: HostRuntime) -> Result<(), Fail> {
    let alloc = rt.alloc();
    assert!(rt; passes(&rt, alloc, 0)?);
    assert!(rt; passes(&rt, alloc, 1)?);
    assert!(rt; passes(&rt, alloc, 2)?);
    Ok(())
}

// The sum of all results of this many works, done by this many workers.
fn sum_of<R: Threads + Sync>(rt: &R, alloc: Global, works: u64, workers: usize) -> Result<u64, Fail>
    requires { 0 < workers }
{
    let mut sum = 0u64;
    for group in run(rt, alloc, numbers(alloc, works)?, workers, &OpenGate)? {
        if let Group::Home(doubled) = group {
            sum = sum.wrapping_add(doubled.value);
        }
    }
    Ok(sum)
}

#[test]
fn all_works_are_done_by_any_number_of_workers(rt: HostRuntime) -> Result<(), Fail> {
    let alloc = rt.alloc();
    assert!(rt; sum_of(&rt, alloc, 200, 1)? == 43_800);
    assert!(rt; sum_of(&rt, alloc, 200, 2)? == 43_800);
    assert!(rt; sum_of(&rt, alloc, 200, 64)? == 43_800);
    assert!(rt; sum_of(&rt, alloc, 0, 2)? == 0);
    Ok(())
}
