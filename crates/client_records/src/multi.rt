//! Several reads in one request, and the headers before the parts of such a request and of the answer to a multi.

ghost use Rattle.std.specs.Prelude.{◌≡◌, ◌++◌};
ghost use Rattle.values.specs.Gains.{Puts};
ghost use Rattle.jute.specs.Format.{int, boolean};
ghost use Rattle.jute.specs.Reads.{ReadsOwned};
ghost use Rattle.client_records.specs.Multi.{multi_header, read_part_kind, part_or_end, multi_read};

use crate::kind::ReadKind;
use crate::request::PathAndWatch;
use jute::{ReadRecord, Reader, WriteRecord, put_bool};
use std::alloc::Global;
use values::{Fault, Listed, NoMemory, ReadError, Str};

/// The MultiHeader of zookeeper.jute, which stands before each part and at the end.
#[derive(Drop, Clone, Copy, PartialEq)]
pub struct MultiHeader {
    /// The type of the part; -1 at the end, and in an answer for an error.
    pub kind: i32,
    /// Whether this is the end.
    pub done: bool,
    /// The error of the part in an answer, else -1.
    pub err: i32,
}

impl<'a> ReadRecord<'a> for MultiHeader {
    ghost read_of = { multi_header.read };

    #[tactic(auto, unfolding(crate::specs::Multi::multi_header))]
    fn read(_alloc: Global, reader: &mut Reader<'a>) -> Result<MultiHeader, ReadError> {
        let mut ahead = reader.ahead();
        let kind = ahead.read_int()?;
        let done = ahead.read_bool()?;
        let err = ahead.read_int()?;
        *reader = ahead;
        Ok(MultiHeader { kind, done, err })
    }
}

// Appends the fields after the type.
fn put_end(out: &mut Vec<u8>, done: bool, err: &i32) -> Result<(), NoMemory>
    ensures { Puts result out.old.items (boolean.written done ++ int.written err.now) out.new.items }
{
    put_bool(out, done)?;
    err.write(out)
}

impl WriteRecord for MultiHeader {
    ghost format = { multi_header };

    #[tactic(auto, unfolding(crate::specs::Multi::multi_header, jute::specs::Format::number_bytes))]
    fn written_len(&self) -> usize {
        9
    }

    #[tactic(auto, unfolding(crate::specs::Multi::multi_header))]
    fn write(&self, out: &mut Vec<u8>) -> Result<(), NoMemory> {
        self.kind.write(out)?;
        put_end(out, self.done, &self.err)
    }
}

/// A read in a multiRead. It leaves no watch, whatever its flag says.
#[derive(Drop)]
pub struct ReadPart<'a> {
    /// `GetData` or `GetChildren`.
    pub kind: ReadKind,
    /// The path of the node; `None` is null.
    pub path: Option<Str<'a>>,
}

// The kind of a part of this type.
fn read_part_kind(code: i32) -> Option<ReadKind>
    ensures { result ≡ read_part_kind code }
{
    match code {
        4 => Some(ReadKind::GetData),
        8 => Some(ReadKind::GetChildren),
        _ => None,
    }
}

// The next part; `None` at the end.
#[tactic(auto, unfolding(crate::specs::Multi::part_or_end))]
fn read_part_or_end<'a>(
    alloc: Global,
    reader: &mut Reader<'a>,
) -> Result<Option<ReadPart<'a>>, ReadError>
    ensures { ReadsOwned part_or_end (λ v. v) result reader.old reader.new }
{
    let mut ahead = reader.ahead();
    let header = MultiHeader::read(alloc, &mut ahead)?;
    if header.done {
        *reader = ahead;
        return Ok(None);
    }
    let Some(kind) = read_part_kind(header.kind) else {
        return Err(ReadError::Fault(Fault::BadTxnType));
    };
    let asked = PathAndWatch::read(alloc, &mut ahead)?;
    *reader = ahead;
    Ok(Some(ReadPart {
        kind,
        path: asked.path,
    }))
}

/// Reads the parts of a multiRead up to its end. A part of another type than getData and getChildren is a fault. Fails
/// with `NoMemory` if an allocation is refused.
pub fn read_parts<'a>(
    alloc: Global,
    reader: &mut Reader<'a>,
) -> Result<Listed<ReadPart<'a>>, ReadError>
    ensures { ReadsOwned multi_read (λ v. v) result reader.old reader.new }
{
    let mut ahead = reader.ahead();
    let mut parts = Vec::new(alloc);
    // A part has more than one byte, so that many parts can't follow.
    for _ in 0..ahead.rest().len() {
        match read_part_or_end(alloc, &mut ahead)? {
            None => {
                *reader = ahead;
                return Ok(Listed::from_vec(parts));
            }
            Some(part) => parts.push(part)?,
        }
    }
    Err(ReadError::Fault(Fault::Short))
}
