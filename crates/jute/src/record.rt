//! Records, each read from the front of bytes by one function.

ghost use Rattle.std.specs.Prelude.{◌≡◌, List, ℕ, Result};
ghost use Rattle.values.specs.declared.fault.Fault.{Fault as TheFault};
ghost use Rattle.jute.specs.Reads.{ReadsOwned};
ghost use Rattle.jute.specs.Format.{name_in, text_or_empty, read_n, vector_at, ReadsValue};

use crate::reader::Reader;
use std::alloc::Global;
use values::{Bytes, Fault, Listed, ReadError, Str};

/// A value that is read from the front of bytes. Its faults are those of its fields, in the order of the fields. A
/// refused read leaves the place unchanged.
pub trait ReadRecord<'a>: Sized + Drop {
    ghost read_of: { List ℕ → Result (Self × List ℕ) TheFault };

    fn read(alloc: Global, reader: &mut Reader<'a>) -> Result<Self, ReadError>
        ensures { ReadsOwned read_of (λ v. v) result reader.old reader.new };
}

// Reads this many records, one after the other.
fn read_items<'a, T: ReadRecord<'a>>(
    alloc: Global,
    count: u32,
    reader: &mut Reader<'a>,
) -> Result<Vec<T>, ReadError>
    ensures { ReadsOwned (read_n T.read_of count) (λ v. v.items) result reader.old reader.new }
{
    let mut ahead = reader.ahead();
    let mut items = Vec::new(alloc);
    for _ in 0..count {
        items.push(T::read(alloc, &mut ahead)?)?;
    }
    *reader = ahead;
    Ok(items)
}

/// Reads a vector of records: an int count, and the records; `None` is null, the count -1. The faults are those of the
/// count, as in [`Reader::read_count`], and of the records. Fails with `NoMemory` if an allocation is refused.
#[tactic(auto, unfolding(crate::specs::Format::vector_at))]
pub fn read_vector<'a, T: ReadRecord<'a>>(
    alloc: Global,
    reader: &mut Reader<'a>,
) -> Result<Option<Listed<T>>, ReadError>
    ensures { ReadsOwned (vector_at T.read_of) (λ v. v) result reader.old reader.new }
{
    let mut ahead = reader.ahead();
    let Some(count) = ahead.read_count()? else {
        *reader = ahead;
        return Ok(None);
    };
    let items = read_items(alloc, count, &mut ahead)?;
    *reader = ahead;
    Ok(Some(Listed::from_vec(items)))
}

/// Reads a ustring, in which surrogates may stand or not, as bytes; null is read as empty.
#[tactic(auto, unfolding(crate::specs::Format::judged_at))]
pub fn read_name_in<'a>(surrogates: bool, reader: &mut Reader<'a>) -> Result<Bytes<'a>, Fault>
    ensures { ReadsValue (name_in surrogates) (λ t. t) result reader.old reader.new }
{
    Ok(Bytes::new(reader.read_text(surrogates)?.unwrap_or(&[])))
}

/// Reads a ustring; null is read as empty.
#[tactic(auto, unfolding(crate::specs::Format::judged_at))]
pub fn read_name<'a>(reader: &mut Reader<'a>) -> Result<Str<'a>, Fault>
    ensures { ReadsValue text_or_empty (λ t. t) result reader.old reader.new }
{
    Ok(Str::new(reader.read_string()?.unwrap_or("")))
}
