//! Reads by several readers.

ghost use Rattle.std.specs.Prelude.{◌≡◌, ◌≤◌, IfOk, OnOk, length};
ghost use Rattle.std.specs.List.{flat_map};
ghost use Rattle.read_processor.specs.Asking.{looks_at};
ghost use Rattle.read_workers.specs.Working.{looks_for_work, answers_of, AreAnswered};

use crate::work::{LookWork, Looked};
use apply_board::Group;
use apply_workers::{AllStart, Gate, Starts, run_on};
use data_tree::Tree;
use read_processor::{Ask, Look, look_each};
use std::alloc::Global;
use std::thread::Threads;
use values::NoMemory;

/// The most asks of a work. Claiming a work, and giving its answers back, costs as much as some of its reads.
const PIECE: usize = 64;

// The asks in pieces, each of which is a work.
fn look_works<'a>(
    alloc: Global,
    tree: &'a Tree,
    asks: &'a [Ask<'a>],
) -> Result<Vec<LookWork<'a>>, NoMemory>
    ensures looks { IfOk result (λ v. flat_map looks_for_work v.items ≡ looks_at tree.now asks.now) }
{
    let mut works = Vec::with_capacity(alloc, asks.len() / PIECE + 1)?;
    for asks in asks.chunks(PIECE) {
        works.push(LookWork { alloc, tree, asks })?;
    }
    Ok(works)
}

// The answers of all works, in order. Fails if an allocation was refused in one.
fn all_answers(
    alloc: Global,
    count: usize,
    groups: Vec<Group<LookWork<'_>, Looked>>,
) -> Result<Vec<Look>, NoMemory>
    ensures answers { IfOk result (λ v. v.items ≡ answers_of groups.entry.items) }
    ensures answered { OnOk result (AreAnswered groups.entry.items) }
{
    let mut looks = Vec::with_capacity(alloc, count)?;
    for group in groups {
        match group {
            Group::Home(Looked::Answered(answers)) => {
                let mut answers = answers;
                looks.append(&mut answers)?;
            }
            _ => return Err(NoMemory),
        }
    }
    Ok(looks)
}

/// The answers to all asks, in order, by up to this many readers (1 to 64), each of which takes up to 64 asks at a time.
/// Reader 0 is the calling thread; the gate is passed before each of these pieces, with the reader's number and the
/// piece's. If a thread can't be started, fewer read.
///
/// Fails only if an allocation is refused.
pub fn look_all<G: Gate + Sync, R: Threads + Sync>(
    rt: &R,
    alloc: Global,
    tree: &Tree,
    asks: &[Ask<'_>],
    readers: usize,
    gate: &G,
) -> Result<Vec<Look>, NoMemory>
    requires readers { (1 ≤ readers) × (readers ≤ 64) }
    ensures looks { IfOk result (λ v. v.items ≡ looks_at tree.now asks.now) }
{
    look_all_on(rt, alloc, tree, asks, readers, gate, &AllStart)
}

/// The same, with only those of the readers' threads started that may be. Whichever these are, the answers are the
/// same.
pub fn look_all_on<G: Gate + Sync, R: Threads + Sync, S: Starts>(
    rt: &R,
    alloc: Global,
    tree: &Tree,
    asks: &[Ask<'_>],
    readers: usize,
    gate: &G,
    starts: &S,
) -> Result<Vec<Look>, NoMemory>
    requires readers { (1 ≤ readers) × (readers ≤ 64) }
    ensures looks { IfOk result (λ v. v.items ≡ looks_at tree.now asks.now) }
{
    let works = look_works(alloc, tree, asks)?;
    // More readers than works would have nothing to do.
    let most = readers.min(works.len()).max(1);
    let groups = run_on(rt, alloc, works, most, gate, starts)?;
    all_answers(alloc, asks.len(), groups)
}

/// The answers of [`look_all`], without readers, and without the gate, where there are fewer than `threshold` asks.
pub fn look_run<G: Gate + Sync, R: Threads + Sync>(
    rt: &R,
    alloc: Global,
    tree: &Tree,
    asks: &[Ask<'_>],
    readers: usize,
    threshold: usize,
    gate: &G,
) -> Result<Vec<Look>, NoMemory>
    requires readers { (1 ≤ readers) × (readers ≤ 64) }
    ensures looks { IfOk result (λ v. v.items ≡ looks_at tree.now asks.now) }
{
    if asks.len() < threshold {
        return look_each(alloc, tree, asks);
    }
    look_all(rt, alloc, tree, asks, readers, gate)
}
