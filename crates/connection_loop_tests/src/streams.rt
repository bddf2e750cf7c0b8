//! Streams in memory, and a hub that makes its turns while their connection reads or rests.

ghost use Rattle.std.specs.Prelude.{◌≤◌, length};
ghost use Rattle.std.specs.Io.{WritesAtMost};

use crate::others::Others;
use connection_loop::{Close, Rest};
use intake::{Hub, Message};
use std::alloc::Global;
use std::cell::RefCell;
use std::io;
use std::io::{ErrorKind, Read, Write};

/// How the streams and the hub go. Reads and writes count from 1.
#[derive(Clone, Copy)]
pub struct Way {
    /// The number of the read that fails, or 0.
    pub read_fails: usize,
    /// The number of the write that fails, or 0: all after it fail, too.
    pub write_fails: usize,
    /// The number of the rest that fails, or 0.
    pub rest_fails: usize,
    /// The most bytes of a read, and of a write.
    pub most: usize,
    /// How many messages the port has room for.
    pub capacity: usize,
    /// From this place on the bytes are given, or the stream ends, once `answered` bytes were written.
    pub pause: usize,
    pub answered: usize,
    /// How many rests there are before the hub's first turn.
    pub idle: usize,
    /// After so many writes, so many find no room.
    pub stuck_after: usize,
    pub stuck: usize,
}

/// Nothing fails or waits.
pub const WELL: Way = Way {
    read_fails: 0,
    write_fails: 0,
    rest_fails: 0,
    most: 100_000,
    capacity: 64,
    pause: usize::MAX,
    answered: 0,
    idle: 0,
    stuck_after: 0,
    stuck: 0,
};

/// What was written, and how.
#[derive(Drop)]
pub struct Wire {
    pub bytes: Vec<u8>,
    /// How many writes there were.
    pub writes: usize,
    /// How many of them came after the one that failed.
    pub late: usize,
    /// How many reads there were, and how many messages of the connection were taken, while writes found no room.
    pub done_while_stuck: usize,
}

impl Wire {
    pub fn new(alloc: Global) -> Wire {
        Wire {
            bytes: Vec::new(alloc),
            writes: 0,
            late: 0,
            done_while_stuck: 0,
        }
    }

    // Notes so much that the connection has done, where the last write found no room and the next one won't.
    fn note(&mut self, way: Way, done: usize) {
        if self.writes > way.stuck_after && self.writes - way.stuck_after < way.stuck {
            self.done_while_stuck = self.done_while_stuck.saturating_add(done);
        }
    }

    fn put(&mut self, way: Way, buf: &[u8]) -> io::Result<usize>
        ensures { WritesAtMost result buf.now }
    {
        self.writes = self.writes.saturating_add(1);
        if way.write_fails > 0 && self.writes >= way.write_fails {
            if self.writes > way.write_fails {
                self.late = self.late.saturating_add(1);
            }
            return Err(io::Error::from(ErrorKind::BrokenPipe));
        }
        if self.writes > way.stuck_after && self.writes - way.stuck_after <= way.stuck {
            return Err(io::Error::from(ErrorKind::WouldBlock));
        }
        let count = buf.len().min(way.most);
        self.bytes.extend_from_slice(&buf[..count])?;
        Ok(count)
    }
}

/// The side of a stream that takes bytes.
#[derive(Drop)]
pub struct Target<'a> {
    pub way: Way,
    pub wire: &'a RefCell<Wire>,
}

impl Write for Target<'_> {
    fn write(&mut self, buf: &[u8]) -> io::Result<usize> {
        match self.wire.try_borrow_mut() {
            Ok(mut wire) => wire.put(self.way, buf),
            Err(_) => Err(io::Error::from(ErrorKind::Other)),
        }
    }

    fn flush(&mut self) -> io::Result<()> {
        Ok(())
    }
}

impl Close for Target<'_> {
    fn close(self) {
        drop(self);
    }
}

/// What makes a turn of a hub, and returns whether it was made. Each test makes one of its runtime: a reader's methods
/// are proved for any runtime, also for one that threads may not share, and a turn wants one that they may.
#[derive(Drop)]
pub struct Turns {
    make: Box<dyn Fn(&mut Hub) -> bool>,
    ghost callable: { IsAlwaysCallable make },
}

impl Turns {
    pub fn new(make: Box<dyn Fn(&mut Hub) -> bool>) -> Turns
        requires { IsAlwaysCallable make }
    {
        Turns { make }
    }

    pub fn make(&self, hub: &mut Hub) -> bool {
        (self.make)(hub)
    }
}

/// The side of a stream that brings bytes, with the hub.
#[derive(Drop)]
pub struct Source<'a> {
    pub turns: &'a Turns,
    pub alloc: Global,
    pub way: Way,
    pub wire: &'a RefCell<Wire>,
    pub hub: &'a mut Hub,
    pub others: &'a mut Others,
    /// The number of the connection's port.
    pub port: usize,
    pub bytes: &'a [u8],
    pub at: usize,
    pub reads: usize,
    pub rests: usize,
}

// How many of the messages are of a port.
fn count_of(messages: &[(usize, Message)], port: usize) -> usize {
    let mut count = 0usize;
    for message in messages {
        if message.0 == port {
            count = count.saturating_add(1);
        }
    }
    count
}

// Copies at most so many bytes from this place on, as many as there is room for, and returns their number.
fn copy_front(bytes: &[u8], at: usize, most: usize, room: &mut [u8]) -> usize
    ensures { result ≤ length room.new }
{
    let rest = bytes.get(at..).unwrap_or(&[]);
    let count = rest.len().min(most).min(room.len());
    room[..count].copy_from_slice(&rest[..count]);
    count
}

impl Source<'_> {
    // The hub makes a turn, and the other ports say and hear what they may. The hub that can't is at its end.
    fn turn(&mut self) {
        if self.rests < self.way.idle {
            return;
        }
        self.others.step(self.alloc, self.hub);
        let before = count_of(self.hub.taken(), self.port);
        if !self.turns.make(self.hub) {
            self.rests = usize::MAX;
        }
        let came = count_of(self.hub.taken(), self.port).saturating_sub(before);
        if let Ok(mut wire) = self.wire.try_borrow_mut() {
            wire.note(self.way, came);
        }
    }

    // The most bytes of the next read, which doesn't go past the pause.
    fn most(&self) -> usize {
        if self.at < self.way.pause {
            return self.way.most.min(self.way.pause - self.at);
        }
        self.way.most
    }

    // Whether what comes next waits for what isn't written yet.
    fn is_waiting(&self) -> bool {
        let Ok(mut wire) = self.wire.try_borrow_mut() else {
            return true;
        };
        wire.note(self.way, 1);
        self.at >= self.way.pause.min(self.bytes.len()) && wire.bytes.len() < self.way.answered
    }
}

impl Read for Source<'_> {
    fn read(&mut self, buf: &mut [u8]) -> io::Result<usize> {
        if buf.is_empty() {
            return Ok(0);
        }
        self.turn();
        if self.is_waiting() {
            return Err(io::Error::from(ErrorKind::WouldBlock));
        }
        self.reads = self.reads.saturating_add(1);
        if self.reads == self.way.read_fails {
            return Err(io::Error::from(ErrorKind::ConnectionReset));
        }
        let count = copy_front(self.bytes, self.at, self.most(), buf);
        self.at = self.at.saturating_add(count);
        Ok(count)
    }
}

impl Rest for Source<'_> {
    // A connection that rests for so often has no end.
    fn rest(&mut self, _longest: u64) -> io::Result<()> {
        self.rests = self.rests.saturating_add(1);
        if self.rests > 500 {
            return Err(io::Error::from(ErrorKind::ConnectionAborted));
        }
        self.turn();
        if self.rests == self.way.rest_fails {
            return Err(io::Error::from(ErrorKind::ConnectionReset));
        }
        Ok(())
    }

    fn is_hurried(&self) -> bool {
        false
    }
}
