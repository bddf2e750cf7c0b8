//! The frames of a client's connection.

ghost use Rattle.jute.specs.Frame.{frame_format, frame_length, frame_bytes};
ghost use Rattle.jute.specs.Format.{ReadsValue};
ghost use Rattle.std.specs.Prelude.{◌≡◌, ◌<◌, ◌^◌, length};
ghost use Rattle.values.specs.Gains.{Puts};

use crate::reader::Reader;
use crate::writer::{WriteRecord, put_int};
use values::{Fault, NoMemory};

// The length that a number encodes.
fn frame_length(length: i32, limit: u32) -> Result<u32, Fault>
    ensures { result ≡ frame_length limit length }
{
    if length < 0 {
        return Err(Fault::BadLength);
    }
    let length = length.cast_unsigned();
    if length > limit {
        return Err(Fault::BadLength);
    }
    Ok(length)
}

/// Reads a frame: an int length from 0 to `limit`, and that many bytes. The faults are `BadLength` for a length out of
/// these bounds, and `Short` if there are fewer bytes. A refused read leaves the reader's place.
#[tactic(auto, unfolding(crate::specs::Frame::frame_at, crate::specs::Format::judged_at))]
pub fn read_frame<'a>(reader: &mut Reader<'a>, limit: u32) -> Result<&'a [u8], Fault>
    ensures { ReadsValue (frame_format limit) (λ b. b.now) result reader.old reader.new }
{
    let mut ahead = reader.ahead();
    let length = frame_length(ahead.read_int()?, limit)? as usize;
    let bytes = ahead.rest();
    if bytes.len() < length {
        return Err(Fault::Short);
    }
    let (front, rest) = bytes.split_at(length);
    *reader = Reader::new(rest);
    Ok(front)
}

/// Appends a frame that holds the record: its length as an int, and its bytes. A refused allocation leaves a prefix of
/// the bytes appended.
pub fn put_frame<T: WriteRecord>(out: &mut Vec<u8>, value: &T) -> Result<(), NoMemory>
    requires writable { T.format.Writable value.now }
    requires small { length (T.format.written value.now) < 2 ^ 31 }
    ensures { Puts result out.old.items (frame_bytes (T.format.written value.now)) out.new.items }
{
    put_int(out, value.written_len() as i32)?;
    value.write(out)
}
