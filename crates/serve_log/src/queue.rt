//! The lines that wait to be written, and what becomes of those for which there is no room.

ghost use Rattle.std.specs.Prelude.{◌≡◌, ◌+◌, ◌<◌, ◌≤◌, [], ◌∷◌, ◌++◌, length, IsTrue, IsFalse, IfOk, IfSome, IfNone};
ghost use Rattle.rtrb.specs.Ring.{IsPair, known_free, received, sent};
ghost use Rattle.serve_log.specs.Queue.{IsDropped, IsKept, accounted_lines, has_room_for, most_count, told_items};

use crate::backlog::Backlog;
use crate::time::Stamp;
use rtrb::{Consumer, Producer, RingBuffer};
use std::alloc::{AllocError, Global};
use std::sync::Arc;

/// Lines that were dropped, one after the other: how many, and when the last of them was to be written.
#[derive(Clone, Copy, Debug)]
pub struct Dropped {
    pub count: u64,
    pub time: Option<Stamp>,
}

/// What waits to be written.
#[derive(Debug, Drop)]
pub enum Item {
    Line(String),
    /// These lines were dropped here.
    Dropped(Dropped),
}

// How many lines may wait. The ring has one place more, for what is told at the end of lines that were dropped.
const MOST_LINES: usize = 1024;

// How many bytes the lines that wait may have together.
const MOST_BYTES: u64 = 262_144;

/// The end of a queue of lines at which they are put. It never waits: a line that finds no room is dropped, and counted.
pub struct LineQueue {
    ring: Producer<Item>,
    // What was dropped since a line was kept last.
    dropped: Dropped,
    backlog: Arc<Backlog, Global>,
}

/// The other end of the queue.
#[derive(Drop)]
pub struct WaitingLines {
    items: Consumer<Item>,
    pub(crate) backlog: Arc<Backlog, Global>,
}

impl WaitingLines {
    /// Takes what waits longest, or None if nothing waits.
    pub fn next(&mut self) -> Option<Item>
        ensures some { IfSome result (λ item. received self.new.items ≡ received self.old.items ++ item ∷ []) }
        ensures none { IfNone result (received self.new.items ≡ received self.old.items) }
    {
        match self.items.pop() {
            Ok(item) => {
                self.backlog.went(bytes_of(&item));
                Some(item)
            }
            Err(_) => None,
        }
    }
}

// How many bytes an item takes of those that may wait.
fn bytes_of(item: &Item) -> u64 {
    match item {
        Item::Line(line) => line.len() as u64,
        Item::Dropped(_) => 0,
    }
}

impl Drop for LineQueue {
    fn drop(self) {
        let LineQueue {
            mut ring,
            dropped,
            backlog,
        } = self;
        if dropped.count > 0 {
            // There is a place for it.
            let _ = ring.push(Item::Dropped(dropped));
        }
        drop(ring);
        drop(backlog);
    }
}

// Whether a line of so many bytes is kept, where so many more lines and bytes may wait. Once lines were dropped, none is
// kept until half of the queue is empty: so what is lost of a log is lost in few pieces.
fn has_room(dropped: u64, lines: usize, bytes: u64, line: usize) -> bool
    ensures { result ≡ has_room_for dropped lines bytes line }
{
    let fits = lines >= 1 && line as u64 <= bytes;
    fits && (dropped == 0 || lines >= MOST_LINES / 2 && bytes >= MOST_BYTES / 2)
}

impl LineQueue {
    /// An empty queue, and its other end. Fails only if an allocation is refused.
    pub fn new(alloc: Global) -> Result<(LineQueue, WaitingLines), AllocError>
        ensures empty { IfOk result (λ ends. (sent ends.0.ring ≡ []) × (ends.0.dropped.count ≡ 0)) }
        ensures pair { IfOk result (λ ends. IsPair ends.0.ring ends.1.items) }
    {
        let (ring, items) = RingBuffer::new(alloc, MOST_LINES + 1)?;
        let backlog = Arc::new(alloc, Backlog::new())?;
        let queue = LineQueue {
            ring,
            dropped: Dropped {
                count: 0,
                time: None,
            },
            backlog: Arc::try_clone(&backlog)?,
        };
        Ok((queue, WaitingLines { items, backlog }))
    }

    // Puts what is to be told of dropped lines.
    fn tell_dropped(&mut self)
        requires place { 0 < known_free self.old.ring }
        ensures sent { sent self.new.ring ≡ sent self.old.ring ++ told_items self.old.dropped }
        ensures told { self.new.dropped.count ≡ 0 }
        ensures free { known_free self.old.ring ≤ known_free self.new.ring + 1 }
    {
        if self.dropped.count > 0 {
            self.ring.push_reserved(Item::Dropped(self.dropped));
            self.dropped.count = 0;
        }
    }

    /// A line is dropped.
    pub fn miss(&mut self, time: Option<Stamp>)
        ensures { IsDropped self.old time self.new }
    {
        self.dropped = Dropped {
            count: self.dropped.count.saturating_add(1),
            time,
        };
    }

    // Puts a line where so many more lines and bytes may wait, or drops it.
    #[tactic(auto, using(crate::proofs::Counting::kept_lines))]
    fn offer(&mut self, line: String, time: Option<Stamp>, lines: usize, bytes: u64) -> bool
        requires place { lines < known_free self.old.ring }
        ensures chosen { result ≡ has_room_for self.old.dropped.count lines bytes (length line.bytes.items) }
        ensures kept { IsTrue result → IsKept self.old line self.new }
        ensures dropped { IsFalse result → IsDropped self.old time self.new }
        ensures accounted { self.old.dropped.count < most_count →
            accounted_lines self.new ≡ accounted_lines self.old + 1 }
    {
        let size = line.len();
        if !has_room(self.dropped.count, lines, bytes, size) {
            self.miss(time);
            return false;
        }
        self.backlog.came(size as u64);
        self.tell_dropped();
        self.ring.push_reserved(Item::Line(line));
        true
    }

    /// Puts a line, and returns whether there was room. If there wasn't, the line is dropped.
    pub fn put(&mut self, line: String, time: Option<Stamp>) -> bool
        ensures kept { IsTrue result → IsKept self.old line self.new }
        ensures dropped { IsFalse result → IsDropped self.old time self.new }
        ensures accounted { self.old.dropped.count < most_count →
            accounted_lines self.new ≡ accounted_lines self.old + 1 }
    {
        let slots = self.ring.slots();
        if slots == 0 {
            self.miss(time);
            return false;
        }
        let bytes = MOST_BYTES.saturating_sub(self.backlog.bytes());
        let is_kept = self.offer(line, time, slots - 1, bytes);
        self.backlog.ring();
        is_kept
    }
}
