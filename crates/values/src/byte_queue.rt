//! Bytes between a connection and a reader.

ghost use Rattle.std.specs.Prelude.{◌≡◌, ◌≤◌, ◌+◌, ◌++◌, ◌↔◌, [], IsTrue, OnOk, OnErr, length, drop};

use crate::fault::NoMemory;
use std::alloc::Global;
use std::marker::Model;

/// Bytes that wait to be read. Its model is their list: pieces are added at the end, and what was read is dropped at
/// the front.
///
/// Dropped bytes stay in the buffer until they are more than the waiting ones; then the rest moves to the buffer's
/// start. So at most as many bytes are moved as are dropped, however small the pieces are, and the buffer has at most
/// twice the length of the waiting bytes. When none waits any more, a buffer above `KEPT` bytes is freed, so an idle
/// connection holds no more memory after a long frame than any other.
#[derive(Debug, Drop)]
pub struct ByteQueue {
    buffer: Vec<u8>,
    start: usize,
}

/// The longest buffer, in bytes, that an empty queue keeps.
const KEPT: usize = 512;

impl Model for ByteQueue {
    ghost use Rattle.std.specs.Prelude.{◌+◌, ◌≤◌, List, ℕ, length, drop};

    ghost Value = { List ℕ };

    ghost view = { λ q. drop q.start q.buffer.items };

    ghost invariant = { λ q. q.start + q.start ≤ length q.buffer.items };
}

// Drops that many bytes at the front. They are at least as many as the others, so that these are moved at once, by a
// copy that doesn't overlap.
fn drop_bytes(bytes: &mut Vec<u8>, count: usize)
    requires front { count ≤ length bytes.old.items }
    requires half { length bytes.old.items ≤ count + count }
    ensures { bytes.new.items ≡ drop count bytes.old.items }
{
    let rest = bytes.len() - count;
    let (front, back) = bytes.split_at_mut(count);
    front[..rest].copy_from_slice(back);
    bytes.truncate(rest);
}

impl ByteQueue {
    pub fn new(alloc: Global) -> ByteQueue
        ensures { result ≡ [] }
    {
        ByteQueue {
            buffer: Vec::new(alloc),
            start: 0,
        }
    }

    /// Adds a piece at the end. A refused allocation leaves the queue as it was.
    pub fn add(&mut self, piece: &[u8]) -> Result<(), NoMemory>
        ensures ok { OnOk result (self.new ≡ self.old ++ piece.now) }
        ensures err { OnErr result (self.new ≡ self.old) }
    {
        Ok(self.buffer.extend_from_slice(piece)?)
    }

    pub fn as_slice(&self) -> &[u8]
        ensures { result.now ≡ self.now }
    {
        &self.buffer[self.start..]
    }

    pub fn len(&self) -> usize
        ensures { result ≡ length self.now }
    {
        self.buffer.len() - self.start
    }

    pub fn is_empty(&self) -> bool
        ensures { IsTrue result ↔ (self.now ≡ []) }
    {
        self.len() == 0
    }

    /// Drops that many bytes at the front.
    pub fn drop_front(&mut self, count: usize)
        requires { count ≤ length self.old }
        ensures { self.new ≡ drop count self.old }
    {
        self.start += count;
        let waiting = self.buffer.len() - self.start;
        if waiting < self.start {
            drop_bytes(&mut self.buffer, self.start);
            self.start = 0;
        }
        if waiting == 0 && self.buffer.capacity() > KEPT {
            self.buffer.shrink_to_fit();
        }
    }
}
