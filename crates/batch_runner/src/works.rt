//! Empty works.

use crate::tally::Tally;
use anyhow::{Result, ensure};
use apply_board::{Group, Yields};
use apply_workers::{Job, OpenGate, run};
use std::alloc::Global;
use std::rt::Clock;
use std::thread::Threads;
use std::time::Instant;

#[derive(Drop)]
struct Nothing;

impl Yields<Nothing> for Nothing {
    ghost gives = { λ _ _. Unit };
}

impl Job<Nothing> for Nothing {
    fn apply(self) -> Nothing {
        self
    }
}

fn nothings(alloc: Global, works: u32) -> Result<Vec<Nothing>> {
    let mut nothings = Vec::with_capacity(alloc, works as usize)?;
    for _ in 0..works {
        nothings.push(Nothing)?;
    }
    Ok(nothings)
}

// Counts the works that were given back.
fn count_home(groups: &[Group<Nothing, Nothing>], tally: &mut Tally) {
    for group in groups {
        if matches!(group, Group::Home(_)) {
            tally.count(0);
        }
    }
}

/// Opens a board, has up to this many workers claim and give the works, and closes it; all of that `times` times.
pub fn claimed<R: Threads + Clock + Sync>(
    rt: &R,
    alloc: Global,
    works: u32,
    times: u32,
    workers: usize,
) -> Result<Tally> {
    ensure!(workers > 0, "there is no worker");
    let mut tally = Tally::new();
    for _ in 0..times {
        let nothings = nothings(alloc, works)?;
        let since = Instant::now(rt)?;
        let groups = run(rt, alloc, nothings, workers, &OpenGate)?;
        tally.end_work(rt, since)?;
        count_home(groups.as_slice(), &mut tally);
    }
    Ok(tally)
}
