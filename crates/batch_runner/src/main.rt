//! Cuts and applies batches of transactions that are made in memory, so that they can be timed. Standard output has the
//! counts, standard error the nanoseconds spent on cutting and on work; making the transactions and the tree isn't
//! included.
//!
//! `batch_runner cut KIND COUNT BYTES TIMES`: COUNT transactions are cut into batches, which own copies of them.
//!
//! `batch_runner move KIND COUNT BYTES TIMES`: they are moved out of a queue into batches.
//!
//! `batch_runner lend KIND COUNT BYTES TIMES`: they are applied to a tree, one after the other, and stay.
//!
//! `batch_runner apply KIND COUNT BYTES TIMES`: they are moved out of a queue, applied to a tree, one after the other,
//! and dropped.
//!
//! `batch_runner keep KIND COUNT BYTES TIMES`: the same, but as many as a batch has are kept with their outcomes and
//! dropped together, as with a batch.
//!
//! `batch_runner batch KIND COUNT BYTES TIMES WORKERS LENGTH`: they are moved into batches of up to LENGTH, each of
//! which is applied by up to WORKERS workers and dropped.
//!
//! `batch_runner inline KIND COUNT BYTES TIMES LIST`: they are applied as lists of up to LIST, one after the other, and
//! stay.
//!
//! `batch_runner list KIND COUNT BYTES TIMES WORKERS LENGTH LIST`: the same with lists of up to LIST, each of which is
//! applied in batches of up to LENGTH by up to WORKERS workers; by one worker it isn't cut.
//!
//! `batch_runner board WORKS TIMES WORKERS`: WORKS empty works are claimed at a board and given back, by up to WORKERS
//! workers.
//!
//! Each of these is done TIMES times, in batches of up to 256 if no LENGTH is given. KIND is `creates` (of nodes below
//! 64 parents in turn), `sets` (of the data of these parents in turn), `leaves` (sets of 8 nodes below each of them in
//! turn) or `multis` (of 8 such sets each, of the nodes below one parent). A node has BYTES bytes of data.
#![tactic(auto)]

mod asked;
mod batches;
mod cutting;
mod lists;
mod making;
mod plain;
mod tally;
mod works;

use anyhow::{Context, Error, Result, bail};
use asked::{Load, kind_of};
use batcher::Limits;
use batches::{GROUPS, by_workers};
use cutting::{cut_all, move_all};
use lists::{lists_by_workers, lists_inline};
use making::txns;
use plain::{each_kept, each_lent, each_moved};
use std::alloc::{AllocError, Global};
use std::env;
use std::process::ExitCode;
use std::rt::Clock;
use std::thread::Threads;
use tally::Tally;
use txn_codec::Txn;
use works::claimed;

const USAGE: &str =
    "wanted: cut KIND COUNT BYTES TIMES, or move KIND COUNT BYTES TIMES, or lend KIND COUNT BYTES TIMES, \
    or apply KIND COUNT BYTES TIMES, or keep KIND COUNT BYTES TIMES, \
    or batch KIND COUNT BYTES TIMES WORKERS LENGTH, or inline KIND COUNT BYTES TIMES LIST, \
    or list KIND COUNT BYTES TIMES WORKERS LENGTH LIST, or board WORKS TIMES WORKERS";

// The words after the program's name.
fn words(rt: &HostRuntime) -> Result<Vec<String>> {
    let mut words = Vec::new(rt.alloc());
    for word in env::args(rt)?.skip(1) {
        words.push(word).map_err(AllocError::from)?;
    }
    Ok(words)
}

fn number(words: &[String], place: usize) -> Result<u32> {
    let text = words.get(place).context(USAGE)?;
    text.as_str().parse::<u32>().context("no number of 32 bits")
}

fn load_of(words: &[String]) -> Result<Load> {
    let kind = words.get(1).context(USAGE)?;
    Ok(Load {
        kind: kind_of(kind.as_str()).context(USAGE)?,
        count: number(words, 2)?,
        bytes: number(words, 3)? as usize,
        times: number(words, 4)?,
    })
}

// The number of workers, and the limits of a batch.
fn limits_of(words: &[String]) -> Result<Limits> {
    let workers = number(words, 5)? as usize;
    let length = number(words, 6)? as usize;
    Ok(Limits::new(workers, length, GROUPS)?)
}

// Applies the transactions in batches or lists, as the words ask for.
fn apply_together<R: Threads + Clock + Sync>(
    rt: &R,
    alloc: Global,
    words: &[String],
    txns: &[Txn],
    times: u32,
) -> Result<Tally> {
    let word = words.first().context(USAGE)?.as_str();
    if word == "inline" {
        let length = number(words, 5)? as usize;
        return lists_inline(rt, alloc, txns, times, length);
    }
    if word == "list" {
        let length = number(words, 7)? as usize;
        return lists_by_workers(rt, alloc, txns, times, length, &limits_of(words)?);
    }
    if word == "batch" {
        return by_workers(rt, alloc, txns, times, &limits_of(words)?);
    }
    bail!("{USAGE}")
}

// Does what the words ask for.
fn run<R: Threads + Clock + Sync>(rt: &R, alloc: Global, words: &[String]) -> Result<Tally> {
    let word = words.first().context(USAGE)?.as_str();
    if word == "board" {
        let workers = number(words, 3)? as usize;
        return claimed(rt, alloc, number(words, 1)?, number(words, 2)?, workers);
    }
    let load = load_of(words)?;
    let txns = txns(alloc, &load)?;
    if word == "cut" {
        return cut_all(rt, alloc, txns.as_slice(), load.times);
    }
    if word == "move" {
        return move_all(rt, alloc, txns.as_slice(), load.times);
    }
    if word == "lend" {
        return each_lent(rt, alloc, txns.as_slice(), load.times);
    }
    if word == "apply" {
        return each_moved(rt, alloc, txns.as_slice(), load.times);
    }
    if word == "keep" {
        return each_kept(rt, alloc, txns.as_slice(), load.times);
    }
    apply_together(rt, alloc, words, txns.as_slice(), load.times)
}

// Prints the counts and the times.
fn print(rt: &HostRuntime, tally: &Tally) -> Result<()> {
    let done = tally.done;
    let errors = tally.errors;
    let batches = tally.batches;
    let groups = tally.groups;
    println!(rt; "done={done} errors={errors} batches={batches} groups={groups}")?;
    let cut = tally.cut.as_nanos();
    let worked = tally.worked.as_nanos();
    eprintln!(rt; "cut={cut} worked={worked}")?;
    Ok(())
}

// Ends the program when nothing was measured.
fn fail(rt: &HostRuntime, error: &Error) -> ExitCode {
    let _ = eprintln!(rt; "{error}");
    ExitCode::FAILURE
}

fn main(rt: HostRuntime) -> ExitCode {
    let words = match words(&rt) {
        Ok(words) => words,
        Err(error) => return fail(&rt, &error),
    };
    let tally = match run(&rt, rt.alloc(), words.as_slice()) {
        Ok(tally) => tally,
        Err(error) => return fail(&rt, &error),
    };
    match print(&rt, &tally) {
        Ok(()) => ExitCode::SUCCESS,
        Err(error) => fail(&rt, &error),
    }
}
