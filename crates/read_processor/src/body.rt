//! The body of a reply, after room for a frame's length and a header.

ghost use Rattle.std.specs.Prelude.{◌≡◌, ◌≤◌, ◌<◌, ◌^◌, ◌++◌, [], length, drop, IfOk};
ghost use Rattle.ephemerals.specs.Orders.{sorted_names};
ghost use Rattle.jute.specs.Format.{int, long};
ghost use Rattle.jute.specs.Frame.{frame_bytes};
ghost use Rattle.jute.specs.Records.{reply_header, stat_format};
ghost use Rattle.client_records.specs.Fields.{names_format};
ghost use Rattle.read_processor.specs.Limits.{body_limit, fitting_body};
ghost use Rattle.read_processor.specs.Reply.{with_header};

use byteorder::{BigEndian, ByteOrder};
use client_records::put_names;
use ephemerals::TextSet;
use jute::{ReplyHeader, Stat, WriteRecord};
use std::alloc::Global;
use std::marker::Model;
use values::{Blob, NoMemory};

// The bytes of a frame's length and of a reply's header: 4 and 16.
const ROOM: usize = 20;

/// The longest body in bytes: what a frame holds after the header.
pub const BODY_LIMIT: usize = 2_147_483_631;

/// The body of a reply. There is room before it for the frame's length and the header, so the frame is made without a
/// copy.
#[derive(Drop)]
pub struct Body {
    bytes: Vec<u8>,
}

impl Model for Body {
    ghost use Rattle.std.specs.Prelude.{List, ℕ, drop};
    ghost use Rattle.read_processor.specs.Inner.Room.{HasHeaderRoom};

    ghost Value = { List ℕ };

    ghost view = { λ b. drop 20 b.bytes.items };

    ghost invariant = { λ b. HasHeaderRoom b.bytes.items };
}

// Overwrites the first 4 bytes with an int. The number is borrowed, since a number passed by value comes back as its
// bits.
#[tactic(auto, unfolding(jute::specs::Format::number_bytes))]
fn fill_int(bytes: &mut [u8], number: &i32)
    requires { 4 ≤ length bytes.old }
    ensures { bytes.new ≡ int.written number.now ++ drop 4 bytes.old }
{
    BigEndian::write_i32(bytes, *number);
}

// Overwrites the first 8 bytes with a long.
#[tactic(auto, unfolding(jute::specs::Format::number_bytes))]
fn fill_long(bytes: &mut [u8], number: &i64)
    requires { 8 ≤ length bytes.old }
    ensures { bytes.new ≡ long.written number.now ++ drop 8 bytes.old }
{
    BigEndian::write_i64(bytes, *number);
}

// Overwrites the first 12 bytes with the end of a header: the zxid and the error.
#[tactic(auto, unfolding(jute::specs::Format::number_bytes))]
fn fill_end(bytes: &mut [u8], header: &ReplyHeader)
    requires { 12 ≤ length bytes.old }
    ensures { bytes.new ≡
        (long.written header.now.zxid ++ int.written header.now.err) ++ drop 12 bytes.old }
{
    fill_long(bytes, &header.zxid);
    fill_int(&mut bytes[8..], &header.err);
}

// Overwrites the first 16 bytes with a header.
fn fill_header(bytes: &mut [u8], header: &ReplyHeader)
    requires { 16 ≤ length bytes.old }
    ensures { bytes.new ≡ reply_header.written header.now ++ drop 16 bytes.old }
{
    fill_int(bytes, &header.xid);
    fill_end(&mut bytes[4..], header);
}

// Fills the room before the body.
fn fill(bytes: &mut [u8], size: i32, header: &ReplyHeader)
    requires { 20 ≤ length bytes.old }
    ensures { bytes.new ≡
        (int.written size ++ reply_header.written header.now) ++ drop 20 bytes.old }
{
    fill_int(bytes, &size);
    fill_header(&mut bytes[4..], header);
}

// The room, and capacity for that many bytes after it.
fn room(alloc: Global, more: usize) -> Result<Vec<u8>, NoMemory>
    requires { more ≤ body_limit }
    ensures { IfOk result (λ bytes. length bytes.items ≡ 20) }
{
    let mut bytes = Vec::with_capacity(alloc, ROOM + more)?;
    bytes.extend_from_slice(&[0; ROOM])?;
    Ok(bytes)
}

impl Body {
    /// An empty body.
    pub fn empty(alloc: Global) -> Result<Body, NoMemory>
        ensures { IfOk result (λ body. body ≡ []) }
    {
        Ok(Body {
            bytes: room(alloc, 0)?,
        })
    }

    /// The bytes of a record; None if they are too many for a frame. Fails only if an allocation is refused.
    pub fn of<T: WriteRecord>(alloc: Global, response: &T) -> Result<Option<Body>, NoMemory>
        requires writable { T.format.Writable response.now }
        requires small { length (T.format.written response.now) < 2 ^ 63 }
        ensures { IfOk result (λ body. body ≡ fitting_body (T.format.written response.now)) }
    {
        let length = response.written_len();
        if length > BODY_LIMIT {
            return Ok(None);
        }
        let mut bytes = room(alloc, length)?;
        response.write(&mut bytes)?;
        Ok(Some(Body { bytes }))
    }

    // The names of a set in its order, with capacity for that many bytes after the room.
    pub(crate) fn of_names(alloc: Global, size: usize, texts: &TextSet) -> Result<Body, NoMemory>
        requires within { size ≤ body_limit }
        requires whole { length (names_format.written (sorted_names texts.now)) ≤ size }
        ensures { IfOk result (λ body. body ≡ names_format.written (sorted_names texts.now)) }
    {
        let mut bytes = room(alloc, size)?;
        put_names(&mut bytes, texts)?;
        Ok(Body { bytes })
    }

    // Appends a Stat to the body.
    #[tactic(auto, unfolding(jute::specs::Format::number_bytes, jute::specs::Records::stat_format))]
    pub(crate) fn with_stat(self, numbers: &Stat) -> Result<Body, NoMemory>
        requires { length (self ++ stat_format.written numbers.now) ≤ body_limit }
        ensures { IfOk result (λ body. body ≡ self ++ stat_format.written numbers.now) }
    {
        let mut bytes = self.bytes;
        numbers.write(&mut bytes)?;
        Ok(Body { bytes })
    }

    // Appends these bytes; None if they are too many for a frame.
    fn with_bytes(self, more: &[u8]) -> Result<Option<Body>, NoMemory>
        ensures { IfOk result (λ body. body ≡ fitting_body (self ++ more.now)) }
    {
        let mut bytes = self.bytes;
        if more.len() > ROOM + BODY_LIMIT - bytes.len() {
            return Ok(None);
        }
        bytes.extend_from_slice(more)?;
        Ok(Some(Body { bytes }))
    }

    // Appends another body; None if it is too long for a frame.
    pub(crate) fn followed_by(self, other: &Body) -> Result<Option<Body>, NoMemory>
        ensures { IfOk result (λ body. body ≡ fitting_body (self ++ other.now)) }
    {
        self.with_bytes(&other.bytes[ROOM..])
    }

    /// Appends a record; None if it is too long for a frame. Fails only if an allocation is refused.
    pub fn with_record<T: WriteRecord>(self, item: &T) -> Result<Option<Body>, NoMemory>
        requires writable { T.format.Writable item.now }
        requires small { length (T.format.written item.now) < 2 ^ 63 }
        ensures { IfOk result (λ body. body ≡ fitting_body (self ++ T.format.written item.now)) }
    {
        let mut bytes = self.bytes;
        if item.written_len() > ROOM + BODY_LIMIT - bytes.len() {
            return Ok(None);
        }
        item.write(&mut bytes)?;
        Ok(Some(Body { bytes }))
    }

    /// The frame of a reply with this header. Allocates nothing.
    pub fn into_frame(self, header: &ReplyHeader) -> Blob
        ensures { result ≡ frame_bytes (with_header header.now self) }
    {
        let mut bytes = self.bytes;
        let size = (bytes.len() - 4) as i32;
        fill(&mut bytes, size, header);
        Blob::from_vec(bytes)
    }
}
