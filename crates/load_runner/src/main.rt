//! Feeds the engine with transactions and requests that are made in memory, and measures it.
//!
//! All messages are made before the measured part begins, so what this takes is what the engine takes, and the counting
//! of its outputs. Standard output has only counts: of the leader's transactions, of answers and events for clients, of
//! the tree's paths, the last zxid, of packets to the leader, and of the bytes for clients. Standard error has what the
//! measured part took: nanoseconds by the clock (`took`) and of the processor (`processor`, up to the last tick), and
//! by how many KiB the resident set grew at most (`memory`). That of the messages isn't in it.
//!
//! `load_runner PARENTS CHILDREN SETS EVERY`: the leader sends PARENTS creates below the root and CHILDREN below each
//! of these, then SETS setDatas of children; a client reads a child at each EVERY of them, and never if EVERY is 0.
//!
//! `load_runner reads PARENTS CHILDREN READS TIMES PIECE`: after such creates, of 100 bytes of data each, a client
//! makes READS getDatas of children, and sends all of them TIMES times, in pieces of PIECE bytes.
//!
//! `load_runner turns PARENTS CHILDREN CONNECTIONS TURNS EVERY`: after such creates, CONNECTIONS connections are
//! opened; then each makes a getData of a child in its turn, TURNS times. One of EVERY connections watches what it
//! reads, and none if EVERY is 0.
//!
//! `load_runner writes KIND PARENTS CHILDREN WRITES CONNECTIONS TOGETHER`: after creates as at first, CONNECTIONS
//! connections are opened; then these send WRITES requests in turn, of `creates` of nodes or `sets` of children. The
//! leader's transactions come when TOGETHER requests have gone to it, and answer them.
//!
//! `load_runner watches CONNECTIONS WATCHES NODES SETS OTHERS`: OTHERS watches are left, and CONNECTIONS connections
//! opened, each of which leaves WATCHES watches; then each of these connections watches the same NODES nodes, and the
//! leader sets the first SETS of them.
//!
//! `load_runner lists CHILDREN TIMES`: after creates of CHILDREN nodes below one, a client lists these TIMES times.
//!
//! `load_runner pings CONNECTIONS`: CONNECTIONS connections are opened, and each sends a ping of the greatest frame
//! length, in two pieces.
//!
//! `load_runner images PARENTS CHILDREN CONTENT PIECE CHECKPOINTS`: a leader connects and sends an image of PARENTS
//! nodes below the root, and CHILDREN below each of these, each with CONTENT bytes of data, in pieces of PIECE bytes;
//! then CHECKPOINTS checkpoints are taken.
//!
//! `load_runner logs PARENTS CHILDREN KEPT TIMES`: after creates of such nodes TIMES leaders connect, each of which
//! truncates all of these transactions but the first KEPT.
//!
//! `load_runner spread KIND PARENTS CHILDREN CONTENT COUNT TIMES WORKERS LENGTH LEAST`: after creates of such nodes,
//! those below the root with CONTENT bytes of data, TIMES events come, each with COUNT transactions of the leader
//! (`creates` or `sets`) or reads of a client (`gets` or `names`). The engine has WORKERS workers and batches of up to
//! LENGTH transactions, and spreads only batches with LEAST bytes of data or more and runs of LEAST reads or more; with
//! 0 workers it does all on the calling thread. Of these events `took` has what the engine took, and nothing else is
//! measured.
//!
//! Where creates or connections come first and something happens after them (`reads`, `turns`, `writes`, `lists`,
//! `spread`), that is the measured part. In the other loads all is measured.
//!
//! `load_runner made ..` does the same but for the measured part. The difference is what this takes, by whatever means
//! it is counted.
#![tactic(auto)]

mod choice;
mod counts;
mod figures;
mod following;
mod images;
mod leading;
mod listing;
mod load;
mod logs;
mod messages;
mod pings;
mod reads;
mod sets;
mod spread;
mod supply;
mod tree;
mod turns;
mod usage;
mod watches;
mod words;
mod writes;

use anyhow::{Result, bail};
use batcher::{Limits, SpreadThreshold};
use counts::Counts;
use figures::{Figures, measured};
use load::Load;
use observer_core::default_limits;
use std::alloc::{AllocError, Global};
use std::env;
use std::rt::{Clock, Files};
use std::thread::Threads;
use supply::Supply;
use words::{begins_with, make, numbers};

// The most groups of a batch.
const MOST_GROUPS: usize = 256;

// The words after the program's name.
fn given_words(rt: &HostRuntime) -> Result<Vec<String>> {
    let mut given = Vec::new(rt.alloc());
    for word in env::args(rt)?.skip(1) {
        given.push(word).map_err(AllocError::from)?;
    }
    Ok(given)
}

// The engine's limits, and the least work that is spread over workers: for a `spread` those that it names, with one
// worker in place of none.
fn limits_of(alloc: Global, words: &[String]) -> Result<(Limits, SpreadThreshold)> {
    if !begins_with(words, "spread") {
        return Ok((default_limits(), SpreadThreshold::ALWAYS));
    }
    let given = numbers(alloc, words, 7)?;
    let &[workers, length, least] = given.as_slice() else {
        bail!("a spread has three numbers too few");
    };
    let limits = Limits::new(workers.max(1) as usize, length as usize, MOST_GROUPS)?;
    let threshold = SpreadThreshold {
        transactions: 0,
        bytes: least as usize,
        reads: least as usize,
    };
    Ok((limits, threshold))
}

// Feeds the steps of the measured part, and measures that.
fn run<R: Threads + Clock + Files + Sync>(
    rt: &R,
    alloc: Global,
    load: &mut Load,
    supply: &Supply,
    words: &[String],
) -> Result<Figures> {
    if !begins_with(words, "spread") {
        return measured(rt, alloc, load, supply);
    }
    let is_spread = numbers(alloc, words, 7)?.first() != Some(&0);
    let took = load.play_spread(rt, alloc, supply, is_spread)?;
    Ok(Figures {
        took,
        processor: None,
        memory: None,
    })
}

// Tells what the measured part took, as far as the system tells that.
fn tell(rt: &HostRuntime, figures: &Figures) -> Result<()> {
    let took = figures.took.as_nanos();
    eprint!(rt; "took={took}")?;
    if let Some(processor) = figures.processor {
        eprint!(rt; " processor={processor}")?;
    }
    if let Some(memory) = figures.memory {
        eprint!(rt; " memory={memory}")?;
    }
    Ok(eprintln!(rt;)?)
}

// What is told of a load.
struct Told {
    transactions: u64,
    counts: Counts,
    paths: usize,
    zxid: i64,
    // Nothing, if the measured part was only made.
    figures: Option<Figures>,
}

// Puts the load on the engine; the measured part may only be made.
fn put<R: Threads + Clock + Files + Sync>(
    rt: &R,
    alloc: Global,
    load: &mut Load,
    supply: &Supply,
    words: &[String],
    is_only_made: bool,
) -> Result<Told> {
    load.play(alloc, supply, supply.before.as_slice())?;
    let (transactions, figures) = if is_only_made {
        (supply.transactions_before, None)
    } else {
        let figures = run(rt, alloc, load, supply, words)?;
        (supply.transactions, Some(figures))
    };
    Ok(Told {
        transactions,
        counts: load.counts,
        paths: load.engine.tree().paths(),
        zxid: load.engine.learner().last_zxid(),
        figures,
    })
}

// The load is dropped at the single end of this function, since each drop of it is proved anew.
fn run_load<R: Threads + Clock + Files + Sync>(
    rt: &R,
    alloc: Global,
    supply: &Supply,
    words: &[String],
    is_only_made: bool,
) -> Result<Told> {
    let (limits, threshold) = limits_of(alloc, words)?;
    let mut load = Load::new(alloc, limits, threshold)?;
    put(rt, alloc, &mut load, supply, words, is_only_made)
}

fn main(rt: HostRuntime) -> Result<()> {
    let given = given_words(&rt)?;
    let is_only_made = begins_with(given.as_slice(), "made");
    let words = given
        .as_slice()
        .get(usize::from(is_only_made)..)
        .unwrap_or(&[]);
    let mut supply = Supply::new(rt.alloc());
    make(rt.alloc(), words, &mut supply)?;
    let Told {
        transactions,
        counts,
        paths,
        zxid,
        figures,
    } = run_load(&rt, rt.alloc(), &supply, words, is_only_made)?;
    let Counts {
        replies,
        events,
        packets,
        bytes,
    } = counts;
    println!(rt;
        "transactions={transactions} replies={replies} events={events} paths={paths} zxid=0x{zxid:x} \
        packets={packets} bytes={bytes}"
    )?;
    match figures {
        None => Ok(()),
        Some(figures) => tell(&rt, &figures),
    }
}
