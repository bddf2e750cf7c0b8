//! Whichever of the readers' threads start, each answer is that of its own ask.

use apply_workers::{Gate, Starts};
use client_records::ReadKind;
use data_tree::Tree;
use read_processor::{Ask, Look, Request};
use read_workers::look_all_on;
use settings::Dialect;
use std::alloc::Global;
use std::sync::atomic::{AtomicU64, Ordering};
use std::test::Fail;
use std::thread::Threads;
use values::{NoMemory, Str};

// The most readers that there may be.
const READERS: usize = 64;

// 65 pieces of 64 asks: more than readers, so that each of these would have one.
const ASKS: usize = 4160;

const PIECES: u64 = 65;

// How many of the threads beside the calling one are refused.
const REFUSED: [usize; 3] = [0, 1, 63];

// A read of the fresh tree, and the reply to it with the xid 1 and the zxid 0.
#[derive(Clone, Copy)]
struct Row {
    kind: ReadKind,
    path: &'static str,
    reply: &'static [u8],
}

const MISSING: Row = Row {
    kind: ReadKind::Exists,
    path: "/q",
    reply: b"\0\0\0\x10\0\0\0\x01\0\0\0\0\0\0\0\0\xff\xff\xff\x9b",
};

// The Stat of a node that has one child, all other fields being 0: its cversion is twice 0 less 1.
const STAT: Row = Row {
    kind: ReadKind::Exists,
    path: "/",
    reply: b"\0\0\0\x54\0\0\0\x01\0\0\0\0\0\0\0\0\0\0\0\0\
        \0\0\0\0\0\0\0\0\0\0\0\0\0\0\0\0\0\0\0\0\0\0\0\0\0\0\0\0\0\0\0\0\
        \0\0\0\0\xff\xff\xff\xff\0\0\0\0\0\0\0\0\0\0\0\0\0\0\0\0\0\0\0\x01\0\0\0\0\0\0\0\0",
};

const NAMES: Row = Row {
    kind: ReadKind::GetChildren,
    path: "/",
    reply: b"\0\0\0\x21\0\0\0\x01\0\0\0\0\0\0\0\0\0\0\0\0\0\0\0\x01\0\0\0\x09zookeeper",
};

// The row of the ask with this number.
fn row_of(number: usize) -> Row {
    match number % 3 {
        0 => STAT,
        1 => MISSING,
        _ => NAMES,
    }
}

fn asks(alloc: Global) -> Result<Vec<Ask<'static>>, NoMemory> {
    let mut asks = Vec::new(alloc);
    for number in 0..ASKS {
        let row = row_of(number);
        let request = Request {
            kind: row.kind,
            path: Some(Str::new(row.path)),
            watch: false,
            rules: Dialect::Zk34,
        };
        asks.push(Ask { ids: &[], request })?;
    }
    Ok(asks)
}

// Refuses the threads of the first readers, and counts those that it is asked for.
#[derive(Drop)]
struct Refusing {
    threads: usize,
    asked: AtomicU64,
}

impl Starts for Refusing {
    fn may_start(&self, reader: usize) -> bool {
        self.asked.fetch_add(1, Ordering::SeqCst);
        reader > self.threads
    }
}

// Counts the pieces, and those of readers past this number.
#[derive(Drop)]
struct Counting {
    last: usize,
    pieces: AtomicU64,
    past: AtomicU64,
}

impl Gate for Counting {
    fn pass(&self, reader: usize, _piece: usize) {
        self.pieces.fetch_add(1, Ordering::SeqCst);
        if reader > self.last {
            self.past.fetch_add(1, Ordering::SeqCst);
        }
    }
}

fn is_reply(look: Look, wanted: &[u8]) -> bool {
    match look.into_frame(1, 0) {
        None => false,
        Some(frame) => frame.as_slice() == wanted,
    }
}

// Whether each answer is that of the row with its number.
fn are_replies(looks: Vec<Look>) -> bool {
    let mut are_right = looks.len() == ASKS;
    for (number, look) in looks.into_iter().enumerate() {
        let is_right = is_reply(look, row_of(number).reply);
        are_right = are_right && is_right;
    }
    are_right
}

// Whether the answers are right, each piece was passed once, and no more readers passed one than there were, where this
// many threads are refused.
fn are_right<R: Threads + Sync>(
    rt: &R,
    alloc: Global,
    tree: &Tree,
    threads: usize,
) -> Result<bool, NoMemory> {
    let asks = asks(alloc)?;
    let gate = Counting {
        last: READERS.saturating_sub(1).saturating_sub(threads),
        pieces: AtomicU64::new(0),
        past: AtomicU64::new(0),
    };
    let starts = Refusing {
        threads,
        asked: AtomicU64::new(0),
    };
    let looks = look_all_on(rt, alloc, tree, asks.as_slice(), READERS, &gate, &starts)?;
    Ok(
        are_replies(looks)
            && gate.pieces.load(Ordering::SeqCst) == PIECES
            && gate.past.load(Ordering::SeqCst) == 0
            && starts.asked.load(Ordering::SeqCst) == 63,
    )
}

// Whether the answers are right whichever threads are refused.
fn are_right_each_time<R: Threads + Sync>(rt: &R, alloc: Global) -> Result<bool, NoMemory> {
    let tree = Tree::fresh(alloc)?;
    for threads in REFUSED {
        if !are_right(rt, alloc, &tree, threads)? {
            return Ok(false);
        }
    }
    Ok(true)
}

#[test]
fn refused_threads_change_no_answer(rt: HostRuntime) -> Result<(), Fail> {
    assert!(rt; are_right_each_time(&rt, rt.alloc())?);
    Ok(())
}
