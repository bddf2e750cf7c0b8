//! Values that own the bytes that were read: buffers, ids and access control lists.

ghost use Rattle.std.specs.Prelude.{◌≡◌, length};
ghost use Rattle.jute.specs.Format.{buffer, read_n, vector_of};
ghost use Rattle.jute.specs.Owned.{id_in, acl_in, id_format, acl_format};
ghost use Rattle.jute.specs.Reads.{ReadsOwned};
ghost use Rattle.values.specs.Gains.{Puts};

use crate::reader::Reader;
use crate::record::{ReadRecord, read_name_in};
use crate::writer::{WriteRecord, put_bytes, put_int};
use std::alloc::Global;
use values::{Blob, Listed, NoMemory, ReadError};

/// Reads a buffer, which may be null, and copies its bytes. A refused read leaves the reader's place.
pub fn read_blob(alloc: Global, reader: &mut Reader<'_>) -> Result<Option<Blob>, ReadError>
    ensures { ReadsOwned buffer.read (λ b. b) result reader.old reader.new }
{
    let mut ahead = reader.ahead();
    let bytes = match ahead.read_buffer()? {
        None => None,
        Some(bytes) => Some(Blob::new(alloc, bytes)?),
    };
    *reader = ahead;
    Ok(bytes)
}

/// The length in bytes of a buffer, or of null, with its length prefix.
#[tactic(auto, unfolding(crate::specs::Format::number_bytes))]
pub fn blob_len(bytes: &Option<Blob>) -> usize
    requires { buffer.Writable bytes.now }
    ensures { result ≡ length (buffer.written bytes.now) }
{
    match bytes {
        None => 4,
        Some(bytes) => 4 + bytes.as_slice().len(),
    }
}

/// Appends a buffer, or null. A refused allocation leaves a prefix of the bytes appended.
pub fn put_blob(out: &mut Vec<u8>, bytes: &Option<Blob>) -> Result<(), NoMemory>
    requires { buffer.Writable bytes.now }
    ensures { Puts result out.old.items (buffer.written bytes.now) out.new.items }
{
    match bytes {
        None => put_int(out, -1),
        Some(bytes) => put_bytes(out, bytes.as_slice()),
    }
}

/// The Id of zookeeper.jute: the client that an ACL entry is about. Null texts are read as empty.
///
/// Its texts are held as bytes, since in an entry of a later leader they may be generalized UTF-8. Nothing asks for
/// their characters.
#[derive(Clone, Debug, Drop, PartialEq, Eq)]
pub struct Id {
    /// The scheme that the id belongs to, such as `world` or `digest`.
    pub scheme: Blob,
    /// The id within its scheme, such as `anyone` in `world`.
    pub id: Blob,
}

/// The ACL of zookeeper.jute: the permissions of an id.
#[derive(Clone, Debug, Drop, PartialEq, Eq)]
pub struct Acl {
    /// The bits READ 1, WRITE 2, CREATE 4, DELETE 8 and ADMIN 16.
    pub perms: i32,
    pub id: Id,
}

#[tactic(auto, unfolding(crate::specs::Owned::id_in))]
fn read_id(surrogates: bool, alloc: Global, reader: &mut Reader<'_>) -> Result<Id, ReadError>
    ensures { ReadsOwned (id_in surrogates).read (λ v. v) result reader.old reader.new }
{
    let mut ahead = reader.ahead();
    let scheme = Blob::new(alloc, read_name_in(surrogates, &mut ahead)?.as_slice())?;
    let id = Blob::new(alloc, read_name_in(surrogates, &mut ahead)?.as_slice())?;
    *reader = ahead;
    Ok(Id { scheme, id })
}

#[tactic(auto, unfolding(crate::specs::Owned::acl_in))]
fn read_acl(surrogates: bool, alloc: Global, reader: &mut Reader<'_>) -> Result<Acl, ReadError>
    ensures { ReadsOwned (acl_in surrogates).read (λ v. v) result reader.old reader.new }
{
    let mut ahead = reader.ahead();
    let perms = ahead.read_int()?;
    let id = read_id(surrogates, alloc, &mut ahead)?;
    *reader = ahead;
    Ok(Acl { perms, id })
}

// Reads this many entries, one after the other.
fn read_each_acl(
    surrogates: bool,
    alloc: Global,
    count: u32,
    reader: &mut Reader<'_>,
) -> Result<Vec<Acl>, ReadError>
    ensures { ReadsOwned (read_n (acl_in surrogates).read count) (λ v. v.items) result reader.old reader.new }
{
    let mut ahead = reader.ahead();
    let mut entries = Vec::new(alloc);
    for _ in 0..count {
        entries.push(read_acl(surrogates, alloc, &mut ahead)?)?;
    }
    *reader = ahead;
    Ok(entries)
}

/// Reads the entries of an access control list, in whose texts surrogates may stand or not; `None` is null. The faults
/// are those of the count, as in [`Reader::read_count`], and of the entries. Fails with `NoMemory` if an allocation is
/// refused.
#[tactic(auto, unfolding(crate::specs::Format::vector_at))]
pub fn read_acls(
    surrogates: bool,
    alloc: Global,
    reader: &mut Reader<'_>,
) -> Result<Option<Listed<Acl>>, ReadError>
    ensures { ReadsOwned (vector_of (acl_in surrogates)).read (λ v. v) result reader.old reader.new }
{
    let mut ahead = reader.ahead();
    let Some(count) = ahead.read_count()? else {
        *reader = ahead;
        return Ok(None);
    };
    let entries = read_each_acl(surrogates, alloc, count, &mut ahead)?;
    *reader = ahead;
    Ok(Some(Listed::from_vec(entries)))
}

// Without surrogates, as in the packets of any leader.
impl<'a> ReadRecord<'a> for Id {
    ghost read_of = { id_format.read };

    fn read(alloc: Global, reader: &mut Reader<'a>) -> Result<Id, ReadError> {
        read_id(false, alloc, reader)
    }
}

// Without surrogates, as those of ZooKeeper 3.4 are.
impl<'a> ReadRecord<'a> for Acl {
    ghost read_of = { acl_format.read };

    fn read(alloc: Global, reader: &mut Reader<'a>) -> Result<Acl, ReadError> {
        read_acl(false, alloc, reader)
    }
}

impl WriteRecord for Id {
    ghost format = { id_format };

    #[tactic(auto, unfolding(crate::specs::Owned::id_in, crate::specs::Format::number_bytes))]
    fn written_len(&self) -> usize {
        4 + self.scheme.as_slice().len() + 4 + self.id.as_slice().len()
    }

    #[tactic(auto, unfolding(crate::specs::Owned::id_in))]
    fn write(&self, out: &mut Vec<u8>) -> Result<(), NoMemory> {
        put_bytes(out, self.scheme.as_slice())?;
        put_bytes(out, self.id.as_slice())
    }
}

impl WriteRecord for Acl {
    ghost format = { acl_format };

    #[tactic(auto, unfolding(crate::specs::Owned::acl_in, crate::specs::Format::number_bytes))]
    fn written_len(&self) -> usize {
        4 + self.id.written_len()
    }

    #[tactic(auto, unfolding(crate::specs::Owned::acl_in))]
    fn write(&self, out: &mut Vec<u8>) -> Result<(), NoMemory> {
        self.perms.write(out)?;
        self.id.write(out)
    }
}
