//! The descriptors of this process, as Linux tells them.

use server_tally::Tally;
use server_words::Descriptors;
use std::alloc::Global;
use std::fs::File;
use std::io::{Seek, SeekFrom};
use std::rt::Files;
use std::time::{Clock, Instant};
use std::{fs, io};

// The folder that has an entry for each descriptor of the process that reads it.
const OPEN: &str = "/proc/self/fd";

// The file with the limits of the process that opened it.
const LIMITS: &str = "/proc/self/limits";

// How the line with the limit of descriptors begins.
const MOST: &str = "Max open files";

// The least time between two counts, in milliseconds.
const BETWEEN_COUNTS: u64 = 1000;

// The time between two counts is so many times as long as the last one took: where there are thousands of entries to be
// counted, that takes tens of milliseconds.
const REST: u64 = 100;

/// Counts the descriptors of this process now and then.
#[derive(Drop)]
pub struct DescriptorCount {
    alloc: Global,
    // It stays open, so that it can be read when no descriptor is left.
    limits: Option<File>,
    // The next count is no sooner, in milliseconds of the server's stopwatch.
    due: u64,
}

// The number that a line of the limits names first, the soft one, if it is that of descriptors.
fn most_in(line: &str) -> Option<u64> {
    let rest = line.strip_prefix(MOST)?;
    rest.split_whitespace().next()?.parse::<u64>().ok()
}

// How many descriptors there may be now.
fn most_descriptors(alloc: Global, limits: &mut File) -> Option<u64> {
    limits.seek(SeekFrom::Start(0)).ok()?;
    let text = io::read_to_string(alloc, limits).ok()?;
    text.as_str().lines().find_map(|line| most_in(line))
}

// How many entries the folder has, but for the descriptor by which it is read.
fn count_entries<R: Files>(rt: &R, alloc: Global) -> Option<u64> {
    let mut count = 0_u64;
    for entry in fs::read_dir(&(rt, alloc), OPEN).ok()? {
        entry.ok()?;
        count = count.saturating_add(1);
    }
    count.checked_sub(1)
}

// How many descriptors are open. Since Linux 6.2 this is the folder's size, which was 0 before.
fn open_descriptors<R: Files>(rt: &R, alloc: Global) -> Option<u64> {
    match fs::metadata(rt, OPEN).ok()?.len() {
        0 => count_entries(rt, alloc),
        size => Some(size),
    }
}

impl DescriptorCount {
    /// Counts them for the first time.
    pub fn begin<R: Files<File = File>>(rt: &R, alloc: Global, tally: &Tally) -> DescriptorCount {
        let mut count = DescriptorCount {
            alloc,
            limits: fs::open(rt, LIMITS).ok(),
            due: BETWEEN_COUNTS,
        };
        count.store(rt, tally);
        count
    }

    // Stores how many there are. Where the system doesn't tell, what it told last stays.
    fn store<R: Files>(&mut self, rt: &R, tally: &Tally) {
        let Some(limits) = &mut self.limits else {
            return;
        };
        let count = open_descriptors(rt, self.alloc);
        let most = most_descriptors(self.alloc, limits);
        if let (Some(count), Some(most)) = (count, most) {
            tally.store_descriptors(Descriptors { count, most });
        }
    }

    /// Counts them, if it is time by the server's stopwatch. Returns for how many milliseconds there is nothing to do.
    pub fn count<R: Files + Clock>(&mut self, rt: &R, tally: &Tally, now: u64) -> u64 {
        let rest = self.due.saturating_sub(now);
        if rest > 0 {
            return rest;
        }
        let began = Instant::now(rt).ok();
        self.store(rt, tally);
        let took = match (began, Instant::now(rt)) {
            (Some(began), Ok(ended)) => {
                u64::try_from(ended.duration_since(began).as_millis()).unwrap_or(u64::MAX)
            }
            _ => 0,
        };
        let rest = took.saturating_mul(REST).max(BETWEEN_COUNTS);
        self.due = now.saturating_add(rest);
        rest
    }
}
