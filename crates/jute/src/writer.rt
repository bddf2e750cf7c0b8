//! Appending fields to a vector of bytes. A refused allocation leaves a prefix of the new bytes appended.

ghost use Rattle.std.specs.Prelude.{◌≡◌, ◌<◌, ◌^◌, length, Some, List, ℕ, All};
ghost use Rattle.std.specs.List.{flat_map};
ghost use Rattle.values.specs.Gains.{Puts};
ghost use Rattle.jute.specs.Format.{Format, int, long, boolean, buffer, vector_of};

use byteorder::{BigEndian, ByteOrder};
use values::{Listed, NoMemory};

/// Appends an int: 4 bytes, big-endian two's complement.
#[tactic(auto, using(values::proofs::Gaining::gains_nothing), unfolding(crate::specs::Format::number_bytes))]
pub fn put_int(out: &mut Vec<u8>, n: i32) -> Result<(), NoMemory>
    ensures { Puts result out.old.items (int.written n) out.new.items }
{
    let mut bytes = [0; 4];
    BigEndian::write_i32(&mut bytes, n);
    Ok(out.extend_from_slice(&bytes)?)
}

/// Appends a long: 8 bytes, big-endian two's complement.
#[tactic(auto, using(values::proofs::Gaining::gains_nothing), unfolding(crate::specs::Format::number_bytes))]
pub fn put_long(out: &mut Vec<u8>, n: i64) -> Result<(), NoMemory>
    ensures { Puts result out.old.items (long.written n) out.new.items }
{
    let mut bytes = [0; 8];
    BigEndian::write_i64(&mut bytes, n);
    Ok(out.extend_from_slice(&bytes)?)
}

/// Appends a boolean: one byte, 1 or 0.
#[tactic(auto, using(values::proofs::Gaining::gains_nothing))]
pub fn put_bool(out: &mut Vec<u8>, b: bool) -> Result<(), NoMemory>
    ensures { Puts result out.old.items (boolean.written b) out.new.items }
{
    out.push(if b { 1 } else { 0 })?;
    Ok(())
}

/// Appends a buffer that isn't null: an int length, and the bytes.
pub fn put_bytes(out: &mut Vec<u8>, bytes: &[u8]) -> Result<(), NoMemory>
    requires { length bytes.now < 2 ^ 31 }
    ensures { Puts result out.old.items (buffer.written (Some bytes.now)) out.new.items }
{
    put_int(out, bytes.len() as i32)?;
    out.extend_from_slice(bytes)?;
    Ok(())
}

/// Appends a ustring that isn't null: an int length, and the bytes of its UTF-8.
pub fn put_string(out: &mut Vec<u8>, text: &str) -> Result<(), NoMemory>
    requires { length text.now < 2 ^ 31 }
    ensures { Puts result out.old.items (buffer.written (Some text.now)) out.new.items }
{
    put_bytes(out, text.as_bytes())
}

/// A value that is written in the one spelling that its format defines.
pub trait WriteRecord: Sized {
    ghost format: { Format Self };

    /// The number of bytes that `write` appends.
    fn written_len(&self) -> usize
        requires writable { format.Writable self.now }
        requires small { length (format.written self.now) < 2 ^ 63 }
        ensures { result ≡ length (format.written self.now) };

    fn write(&self, out: &mut Vec<u8>) -> Result<(), NoMemory>
        requires { format.Writable self.now }
        ensures { Puts result out.old.items (format.written self.now) out.new.items };
}

impl WriteRecord for i32 {
    ghost format = { int };

    #[tactic(auto, unfolding(crate::specs::Format::number_bytes))]
    fn written_len(&self) -> usize {
        4
    }

    #[tactic(auto, using(crate::proofs::Writing::puts_number))]
    fn write(&self, out: &mut Vec<u8>) -> Result<(), NoMemory> {
        put_int(out, *self)
    }
}

impl WriteRecord for i64 {
    ghost format = { long };

    #[tactic(auto, unfolding(crate::specs::Format::number_bytes))]
    fn written_len(&self) -> usize {
        8
    }

    #[tactic(auto, using(crate::proofs::Writing::puts_number))]
    fn write(&self, out: &mut Vec<u8>) -> Result<(), NoMemory> {
        put_long(out, *self)
    }
}

/// Appends records, one after the other.
pub fn put_items<T: WriteRecord>(out: &mut Vec<u8>, items: &[T]) -> Result<(), NoMemory>
    requires { All T.format.Writable items.now }
    ensures { Puts result out.old.items (flat_map T.format.written items.now) out.new.items }
{
    for item in items {
        item.write(out)?;
    }
    Ok(())
}

/// The length of records in bytes.
pub fn items_len<T: WriteRecord>(items: &[T]) -> usize
    requires writable { All T.format.Writable items.now }
    requires small { length (flat_map T.format.written items.now) < 2 ^ 63 }
    ensures { result ≡ length (flat_map T.format.written items.now) }
{
    let mut len = 0;
    for item in items {
        len += item.written_len();
    }
    len
}

/// The length in bytes of a vector with its count, or of null.
#[tactic(auto, unfolding(crate::specs::Format::number_bytes))]
pub fn vector_len<T: WriteRecord>(items: &Option<Listed<T>>) -> usize
    requires writable { (vector_of T.format).Writable items.now }
    requires small { length ((vector_of T.format).written items.now) < 2 ^ 63 }
    ensures { result ≡ length ((vector_of T.format).written items.now) }
{
    match items {
        None => 4,
        Some(items) => 4 + items_len(items.as_slice()),
    }
}

/// Appends a vector: an int count, and the records; `None` is null, the count -1.
pub fn put_vector<T: WriteRecord>(
    out: &mut Vec<u8>,
    items: &Option<Listed<T>>,
) -> Result<(), NoMemory>
    requires { (vector_of T.format).Writable items.now }
    ensures { Puts result out.old.items ((vector_of T.format).written items.now) out.new.items }
{
    match items {
        None => put_int(out, -1),
        Some(items) => {
            put_int(out, items.len() as i32)?;
            put_items(out, items.as_slice())
        }
    }
}
