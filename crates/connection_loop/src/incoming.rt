//! The bytes of a connection, until they are sent on.

ghost use Rattle.std.specs.Prelude.{◌≡◌, ◌≢◌, ◌≤◌, ◌<◌, ◌+◌, ◌-◌, ◌/◌, ◌↔◌, IfSome, IsSome, IsTrue, true, IfOk, OnOk, OnErr, length, take, drop, vec_len};
ghost use Rattle.std.specs.Bool.{OnFalse};
ghost use Rattle.std.specs.Io.{StartsWith, appended_bytes};
ghost use Rattle.std.specs.Io.KnownBytes.{Keeps, Consumes, IsAtEnd};
ghost use Rattle.connection_loop.specs.Frames.{whole_frames_length, frames_going};
ghost use Rattle.connection_loop.specs.Incoming.{buffer_length, nothing_unsent, first_frame_length, may_begin, piece_for_client, last_piece, next_piece};

use crate::frames::{frames_going, goes_with, whole_frames};
use crate::kind::{Gate, after_int, kind_of_frame};
use settings::Dialect;
use std::alloc::Global;
use std::io;
use std::io::Read;
use std::marker::Model;
use values::{Blob, NoMemory};

/// The most bytes that are read at once and wait to be sent on.
pub(crate) const READ_LEN: usize = 16_384;

/// The length of the buffer until a read fills it. A connection that only pings needs no more.
const SHORT_LEN: usize = 512;

/// How a connection's bytes are cut into messages.
#[derive(Clone, Copy, Debug, PartialEq, Eq)]
pub enum Cutting {
    /// A client's, which speaks a dialect: whole frames, and one message at a time.
    Frames(Dialect),
    /// The leader's: whatever was read.
    Reads,
}

/// A prefix of the waiting bytes, to be sent on as one message.
#[derive(Clone, Copy, Debug, PartialEq, Eq)]
pub struct Piece {
    pub len: usize,
    /// The number of frames that begin in it, as far as frames are cut.
    pub frames: usize,
    /// Whether a frame ends in it.
    pub ends_frame: bool,
    /// The number of bytes of its last frame that come after it, if that frame is longer than the buffer.
    pub missing: usize,
}

/// The bytes of a connection that weren't sent on yet. Its model has them in the order in which they were read: what is
/// read is added at the end, and a piece is taken off the front.
#[derive(Drop)]
pub struct Incoming {
    cutting: Cutting,
    buffer: Vec<u8>,
    start: usize,
    end: usize,
    // The number of bytes still to come of a frame that is longer than the buffer.
    missing: usize,
}

impl Model for Incoming {
    ghost use Rattle.std.specs.Prelude.{◌≤◌, slice_range, vec_len};
    ghost use Rattle.connection_loop.specs.Incoming.{Unsent, buffer_length};

    ghost Value = { Unsent };

    ghost view = { λ i. record {
      bytes = slice_range i.buffer.items i.start i.end;
      missing = i.missing;
      cutting = i.cutting;
    } };

    ghost invariant = { λ i. (i.start ≤ i.end) × (i.end ≤ vec_len i.buffer) × (vec_len i.buffer ≤ buffer_length) };
}

// The length of the frame that the bytes begin with, its length prefix included.
fn frame_len(bytes: &[u8]) -> usize
    ensures { result ≡ first_frame_length bytes.now }
{
    match bytes.first_chunk::<4>() {
        Some(length) => (u32::from_be_bytes(*length) as usize).saturating_add(4),
        None => 0,
    }
}

// Whether a frame that fills the buffer may be sent on. All of its bytes come as pieces of their own.
fn may_begin(dialect: Dialect, waiting: &[u8], most: usize, gate: Gate) -> bool
    ensures { result ≡ may_begin dialect most gate waiting.now }
{
    most > 0 && goes_with(kind_of_frame(dialect, after_int(waiting)), gate)
}

// The next piece of a client's bytes. The first `missing` bytes belong to a frame that was sent on in part.
fn next_frames(
    dialect: Dialect,
    waiting: &[u8],
    missing: usize,
    most: usize,
    gate: Gate,
) -> Option<Piece>
    requires { 0 < length waiting.now }
    ensures piece { result ≡ piece_for_client dialect most gate waiting.now missing }
    ensures frames { missing ≡ 0 → IfSome result (λ p. IsTrue p.ends_frame
        → p.len ≡ whole_frames_length (frames_going dialect most gate waiting.now) waiting.now) }
    ensures most { IfSome result (λ p. p.frames ≤ most) }
    ensures rest { missing ≢ 0 → IfSome result (λ p. p.len + p.missing ≡ missing) }
    ensures within { IfSome result (λ p. (0 < p.len) × (p.len ≤ length waiting.now)) }
    ensures full { buffer_length ≤ length waiting.now → 0 < most → gate ≡ Gate.Open → IsSome result }
    ensures ends { IfSome result (λ p. IsTrue p.ends_frame ↔ (p.missing ≡ 0)) }
{
    if missing > 0 {
        let len = waiting.len().min(missing);
        return Some(Piece {
            len,
            frames: 0,
            ends_frame: len == missing,
            missing: missing - len,
        });
    }
    let frames = frames_going(dialect, waiting, most, gate);
    let len = whole_frames(waiting, frames);
    if len > 0 {
        return Some(Piece {
            len,
            frames,
            ends_frame: true,
            missing: 0,
        });
    }
    let missing = frame_len(waiting).saturating_sub(waiting.len());
    if waiting.len() < READ_LEN || missing == 0 || !may_begin(dialect, waiting, most, gate) {
        return None;
    }
    Some(Piece {
        len: waiting.len(),
        frames: 1,
        ends_frame: false,
        missing,
    })
}

// Moves the bytes from one place up to another to the start: at once where they don't overlap it.
fn move_to_start(bytes: &mut [u8], start: usize, end: usize)
    requires order { start ≤ end }
    requires inside { end ≤ length bytes.old }
    ensures { take (end - start) bytes.new ≡ take (end - start) (drop start bytes.old) }
{
    let len = end - start;
    if len > start {
        bytes.copy_within(start..end, 0);
        return;
    }
    let (front, back) = bytes.split_at_mut(start);
    front[..len].copy_from_slice(&back[..len]);
}

// How long the buffer is for the next read: short at first, and as long as it may be once a read has filled it.
fn len_to_read(len: usize, end: usize) -> usize
    requires inside { end ≤ len }
    requires bound { len ≤ buffer_length }
    ensures kept { len ≤ result }
    ensures bound { result ≤ buffer_length }
    ensures room { end < buffer_length → end < result }
{
    if len == 0 {
        return SHORT_LEN;
    }
    if end == len {
        return READ_LEN;
    }
    len
}

// Moves the waiting bytes to the buffer's start if there is no room after them, and returns where they begin then.
// Mostly at most half of the buffer waits then, so at most as many bytes are moved as were sent on.
fn make_room(buffer: &mut Vec<u8>, start: usize, end: usize) -> usize
    requires order { start ≤ end }
    requires inside { end ≤ vec_len buffer.old }
    ensures waiting { take (end - start) (drop result buffer.new.items)
        ≡ take (end - start) (drop start buffer.old.items) }
    ensures len { vec_len buffer.new ≡ vec_len buffer.old }
    ensures inside { result + (end - start) ≤ vec_len buffer.new }
    ensures down { result ≤ start }
    ensures room { end - start < buffer_length → result + (end - start) < buffer_length }
{
    if start == end {
        return 0;
    }
    if end < READ_LEN {
        return start;
    }
    move_to_start(buffer.as_mut_slice(), start, end);
    0
}

impl Incoming {
    /// No bytes yet. The buffer is allocated for the first read.
    pub fn new(alloc: Global, cutting: Cutting) -> Incoming
        ensures { result ≡ nothing_unsent cutting }
    {
        Incoming {
            cutting,
            buffer: Vec::new(alloc),
            start: 0,
            end: 0,
            missing: 0,
        }
    }

    /// The bytes that weren't sent on yet.
    pub fn waiting(&self) -> &[u8]
        ensures bytes { result.now ≡ self.now.bytes }
        ensures fits { length self.now.bytes ≤ buffer_length }
    {
        &self.buffer[self.start..self.end]
    }

    /// Whether something can be sent on, once all frames before it are answered.
    pub fn is_ready(&self) -> bool
        ensures ready { IsTrue result ↔ IsSome (next_piece self.now 1 Gate.Open) }
        ensures full { buffer_length ≤ length self.now.bytes → result ≡ true }
    {
        self.next(1, Gate::Open).is_some()
    }

    /// Whether nothing more has to be read before something is sent on: a piece is ready, and more than half of the
    /// buffer waits.
    pub fn is_full(&self) -> bool
        ensures full { IsTrue result
            ↔ ((buffer_length / 2 < length self.now.bytes) × IsSome (next_piece self.now 1 Gate.Open)) }
        ensures room { OnFalse result (length self.now.bytes < buffer_length) }
    {
        self.waiting().len() > READ_LEN / 2 && self.is_ready()
    }

    /// Reads as much as there is room for, which mustn't be none, and adds it at the end. Returns the number of bytes,
    /// which is 0 at the end of the stream. An error leaves the bytes as they were.
    pub(crate) fn read_from<R: Read>(&mut self, reader: &mut R) -> io::Result<usize>
        requires { length self.old.bytes < buffer_length }
        ensures kept { OnOk result (StartsWith self.new.bytes self.old.bytes) }
        ensures count { IfOk result (λ n. length self.new.bytes ≡ length self.old.bytes + n) }
        ensures read { OnOk result (Consumes (R.remaining reader.old) (R.remaining reader.new)
            (appended_bytes self.old.bytes self.new.bytes)) }
        ensures end { IfOk result (λ n. n ≡ 0 → IsAtEnd (R.remaining reader.new)) }
        ensures err { OnErr result (self.new.bytes ≡ self.old.bytes) }
        ensures unread { OnErr result (Keeps (R.remaining reader.old) (R.remaining reader.new)) }
        ensures cut { (self.new.missing ≡ self.old.missing) × (self.new.cutting ≡ self.old.cutting) }
        ensures fits { length self.new.bytes ≤ buffer_length }
    {
        let len = self.end - self.start;
        let room = len_to_read(self.buffer.len(), self.end);
        self.start = make_room(&mut self.buffer, self.start, self.end);
        self.end = self.start + len;
        self.buffer.resize(room, 0)?;
        let count = reader.read(&mut self.buffer[self.end..])?;
        self.end += count;
        Ok(count)
    }

    /// Frees a long buffer if no byte waits in it.
    pub(crate) fn free_if_empty(&mut self, alloc: Global)
        ensures { self.new ≡ self.old }
    {
        if self.start == self.end && self.buffer.len() > SHORT_LEN {
            self.buffer = Vec::new(alloc);
            self.start = 0;
            self.end = 0;
        }
    }

    /// The next piece to send on: of a client's bytes at most `most` frames, which pass the gate. A frame waits until it
    /// is complete, or fills the buffer; the rest of one that was sent on in part doesn't wait.
    pub fn next(&self, most: usize, gate: Gate) -> Option<Piece>
        ensures piece { result ≡ next_piece self.now most gate }
        ensures most { IfSome result (λ p. p.frames ≤ most) }
        ensures within { IfSome result (λ p. (0 < p.len) × (p.len ≤ length self.now.bytes)) }
        ensures full { buffer_length ≤ length self.now.bytes → 0 < most → gate ≡ Gate.Open → IsSome result }
        ensures ends { (dialect : Dialect) → self.now.cutting ≡ Cutting.Frames dialect
            → IfSome result (λ p. IsTrue p.ends_frame ↔ (p.missing ≡ 0)) }
    {
        let waiting = self.waiting();
        if waiting.is_empty() {
            return None;
        }
        match self.cutting {
            Cutting::Frames(dialect) => next_frames(dialect, waiting, self.missing, most, gate),
            Cutting::Reads => self.last(),
        }
    }

    /// All waiting bytes, for a connection that brings no more.
    pub fn last(&self) -> Option<Piece>
        ensures piece { result ≡ last_piece self.now.bytes }
        ensures within { IfSome result (λ p. (0 < p.len) × (p.len ≤ length self.now.bytes)) }
        ensures some { 0 < length self.now.bytes → IsSome result }
        ensures frames { IfSome result (λ p. p.frames ≡ 0) }
    {
        let len = self.waiting().len();
        if len == 0 {
            return None;
        }
        Some(Piece {
            len,
            frames: 0,
            ends_frame: false,
            missing: 0,
        })
    }

    /// Takes the piece off the front. Fails only if an allocation is refused, and changes nothing then.
    pub fn take(&mut self, alloc: Global, piece: Piece) -> Result<Blob, NoMemory>
        requires { piece.len ≤ length self.old.bytes }
        ensures bytes { IfOk result (λ blob. blob ≡ take piece.len self.old.bytes) }
        ensures rest { OnOk result (self.new
            ≡ record self.old { bytes = drop piece.len self.old.bytes; missing = piece.missing }) }
        ensures err { OnErr result (self.new ≡ self.old) }
    {
        let blob = Blob::new(alloc, &self.waiting()[..piece.len])?;
        self.start += piece.len;
        self.missing = piece.missing;
        Ok(blob)
    }
}
