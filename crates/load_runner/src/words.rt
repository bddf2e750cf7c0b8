//! The words of the command line, and the load that they ask for.

use crate::images::Images;
use crate::logs::Logs;
use crate::reads::Reads;
use crate::sets::Sets;
use crate::spread::{Spread, kind_of};
use crate::supply::Supply;
use crate::turns::Turns;
use crate::watches::Watched;
use crate::writes::Writes;
use anyhow::{Context, Result, bail};
use std::alloc::Global;

const USAGE: &str =
    "wanted: PARENTS CHILDREN SETS EVERY, or reads PARENTS CHILDREN READS TIMES PIECE, \
    or turns PARENTS CHILDREN CONNECTIONS TURNS EVERY, \
    or writes KIND PARENTS CHILDREN WRITES CONNECTIONS TOGETHER, \
    or watches CONNECTIONS WATCHES NODES SETS OTHERS, or lists CHILDREN TIMES, or pings CONNECTIONS, \
    or images PARENTS CHILDREN CONTENT PIECE CHECKPOINTS, or logs PARENTS CHILDREN KEPT TIMES, \
    or spread KIND PARENTS CHILDREN CONTENT COUNT TIMES WORKERS LENGTH LEAST; or made, and then one of these";

/// Whether this is the first word.
pub fn begins_with(words: &[String], wanted: &str) -> bool {
    match words.first() {
        None => false,
        Some(word) => word.as_str() == wanted,
    }
}

/// The numbers from a place on.
pub fn numbers(alloc: Global, words: &[String], from: usize) -> Result<Vec<u32>> {
    let mut numbers = Vec::new(alloc);
    for word in words.iter().skip(from) {
        let number = word.as_str().parse::<u32>();
        numbers.push(number.context("no number of 32 bits")?)?;
    }
    Ok(numbers)
}

// Makes the messages of clients that read.
fn make_reads(alloc: Global, word: &str, numbers: &[u32], supply: &mut Supply) -> Result<()> {
    match (word, numbers) {
        ("reads", &[parents, children, reads, times, piece]) => {
            let sizes = Reads {
                parents,
                children,
                reads,
                times,
                piece,
            };
            supply.read(alloc, &sizes)
        }
        ("turns", &[parents, children, connections, turns, every]) => {
            let sizes = Turns {
                parents,
                children,
                connections,
                turns,
                every,
            };
            supply.take_turns(alloc, &sizes)
        }
        ("lists", &[children, times]) => supply.list(alloc, children, times),
        _ => bail!(USAGE),
    }
}

// Makes the messages of clients that watch, or send pings.
fn make_watches(alloc: Global, word: &str, numbers: &[u32], supply: &mut Supply) -> Result<()> {
    match (word, numbers) {
        ("watches", &[connections, watches, nodes, sets, others]) => {
            let sizes = Watched {
                connections,
                watches,
                nodes,
                sets,
                others,
            };
            supply.watch(alloc, &sizes)
        }
        ("pings", &[connections]) => supply.ping(alloc, connections),
        _ => bail!(USAGE),
    }
}

// Makes the messages of leaders that come one after the other.
fn make_leaders(alloc: Global, word: &str, numbers: &[u32], supply: &mut Supply) -> Result<()> {
    match (word, numbers) {
        ("images", &[parents, children, content, piece, checkpoints]) => {
            let sizes = Images {
                parents,
                children,
                content,
                piece,
                checkpoints,
            };
            supply.load_image(alloc, &sizes)
        }
        ("logs", &[parents, children, kept, times]) => {
            let sizes = Logs {
                parents,
                children,
                kept,
                times,
            };
            supply.undo(alloc, &sizes)
        }
        _ => bail!(USAGE),
    }
}

// Makes the messages of a load whose second word names a kind of work.
fn make_kind(alloc: Global, words: &[String], numbers: &[u32], supply: &mut Supply) -> Result<()> {
    let [word, kind, ..] = words else {
        bail!(USAGE);
    };
    let kind = kind_of(kind.as_str()).context(USAGE)?;
    match (word.as_str(), numbers) {
        ("writes", &[parents, children, writes, connections, together]) => {
            let sizes = Writes {
                kind,
                parents,
                children,
                writes,
                connections,
                together,
            };
            supply.write(alloc, &sizes)
        }
        ("spread", &[parents, children, content, count, times, _, _, _]) => {
            let sizes = Spread {
                kind,
                parents,
                children,
                content,
                count,
                times,
            };
            supply.spread(alloc, &sizes)
        }
        _ => bail!(USAGE),
    }
}

// Makes the messages of a leader's transactions, with reads in between.
fn make_sets(alloc: Global, numbers: &[u32], supply: &mut Supply) -> Result<()> {
    let &[parents, children, sets, every] = numbers else {
        bail!(USAGE);
    };
    let sizes = Sets {
        parents,
        children,
        sets,
        every,
    };
    supply.set(alloc, &sizes)
}

/// Makes the messages of the load that the words ask for.
pub fn make(alloc: Global, words: &[String], supply: &mut Supply) -> Result<()> {
    let word = words.first().context(USAGE)?.as_str();
    let from = match word {
        "writes" | "spread" => 2,
        "reads" | "turns" | "lists" | "watches" | "pings" | "images" | "logs" => 1,
        _ => 0,
    };
    let given = numbers(alloc, words, from)?;
    let numbers = given.as_slice();
    match word {
        "reads" | "turns" | "lists" => make_reads(alloc, word, numbers, supply),
        "watches" | "pings" => make_watches(alloc, word, numbers, supply),
        "images" | "logs" => make_leaders(alloc, word, numbers, supply),
        "writes" | "spread" => make_kind(alloc, words, numbers, supply),
        _ => make_sets(alloc, numbers, supply),
    }
}
