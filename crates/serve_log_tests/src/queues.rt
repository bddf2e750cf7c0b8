//! Lines that are put and taken, in words: `a` to `z` for lines, and a number for so many that were dropped.

use serve_log::{Dropped, Item, LineQueue, WaitingLines};
use std::alloc::{AllocError, Global};
use std::test::Fail;

// Puts so many lines of so many bytes. Returns how many were kept.
fn put(alloc: Global, queue: &mut LineQueue, count: u32, bytes: usize) -> Result<u32, AllocError> {
    let mut kept = 0u32;
    for _ in 0..count {
        if queue.put("x".repeat(alloc, bytes)?, None) {
            kept = kept.saturating_add(1);
        }
    }
    Ok(kept)
}

// Takes so many items. Returns how many lines they were, and how many lines were told as dropped.
fn take(lines: &mut WaitingLines, count: u32) -> (u32, u64) {
    let mut taken = 0u32;
    let mut dropped = 0u64;
    for _ in 0..count {
        match lines.next() {
            Some(Item::Line(_)) => taken = taken.saturating_add(1),
            Some(Item::Dropped(Dropped { count, .. })) => dropped = dropped.saturating_add(count),
            None => break,
        }
    }
    (taken, dropped)
}

// A queue takes 1,024 lines. Once some were dropped it takes none, until half of it is empty; then what was dropped is
// told first, once, and at its end what was dropped since.
fn by_lines(alloc: Global) -> Result<String, AllocError> {
    let (queue, mut lines) = LineQueue::new(alloc)?;
    let mut queue = queue;
    let first = put(alloc, &mut queue, 1030, 1)?;
    let few = take(&mut lines, 511).0;
    let none = put(alloc, &mut queue, 1, 1)?;
    let one = take(&mut lines, 1).0;
    queue.miss(None);
    let again = put(alloc, &mut queue, 600, 1)?;
    drop(queue);
    let (old, _) = take(&mut lines, 512);
    let told = take(&mut lines, 1);
    let rest = take(&mut lines, 5000);
    format!(in alloc; "{first} {few} {none} {one} {again} {old} {told:?} {rest:?}")
}

// Lines that wait have at most 262,144 bytes together; a longer one is never kept.
fn by_bytes(alloc: Global) -> Result<String, AllocError> {
    let (queue, mut lines) = LineQueue::new(alloc)?;
    let mut queue = queue;
    let four = put(alloc, &mut queue, 5, 65_536)?;
    let one = take(&mut lines, 1).0;
    let none = put(alloc, &mut queue, 1, 1)?;
    let more = take(&mut lines, 1).0;
    let small = put(alloc, &mut queue, 1, 1)?;
    let rest = take(&mut lines, 5000);
    let longest = put(alloc, &mut queue, 1, 262_144)?;
    let emptied = take(&mut lines, 5000);
    let long = put(alloc, &mut queue, 1, 262_145)?;
    format!(in alloc; "{four} {one} {none} {more} {small} {rest:?} {longest} {emptied:?} {long}")
}

#[test]
fn lines_are_kept_dropped_and_counted(rt: HostRuntime) -> Result<(), Fail> {
    let text = by_lines(rt.alloc())?;
    assert_eq!(rt; text.as_str(), "1024 511 0 1 511 512 (0, 8) (511, 89)");
    let text = by_bytes(rt.alloc())?;
    assert_eq!(rt; text.as_str(), "4 1 0 1 1 (3, 2) 1 (1, 0) 0");
    Ok(())
}
