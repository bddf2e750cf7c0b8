//! Reading transactions field by field.

ghost use Rattle.std.specs.Prelude.{◌≡◌, IfOk, IfErr, Ok, Some};
ghost use Rattle.jute.specs.Reads.{ReadsOwned, ReadsOwnedWhole};
ghost use Rattle.jute.specs.Format.{int, read_n};
ghost use Rattle.txn_codec.specs.Endings.{value_in_buffer};
ghost use Rattle.paths_and_acls.specs.Fields.{path_format, child_path};
ghost use Rattle.txn_codec.specs.Spelling.{last_field, kind_format_in, part_kind_in, flagged_owner, timed_owner, owner_format, create_with, created_operation, create_format, delete_with, set_data_with, set_data as set_data_format, set_acl_in, set_acl as set_acl_format, check_format, header_in, operation_format, is_lenient, multi_part, part_content, part_format_in, parts_format_in, body_fields, body_content, body_in, txn_in, txn_format, value_of_whole};
ghost use Rattle.txn_codec.specs.Parents.{HaveParents};
ghost use Rattle.txn_codec.specs.Refusals.{IfFault, AgainstIn, AgainstTxn};
ghost use Rattle.txn_codec.specs.declared.txn.Txn.{Txn as TheTxn};

use crate::ending::{pass_trailer, read_closing};
use crate::kind::TxnKind;
use crate::place::Place;
use crate::txn::{Body, Check, Create, Delete, Operation, Owner, SetAcl, SetData, Txn, TxnHeader};
use jute::{ReadRecord, Reader, read_blob};
use paths_and_acls::{AclField, Path};
use settings::{Dialect, Reads};
use std::alloc::Global;
use values::{Fault, Listed, ReadError};

#[tactic(auto, unfolding(jute::specs::Format::judged_at))]
fn read_path(alloc: Global, reader: &mut Reader<'_>) -> Result<Path, ReadError>
    ensures { ReadsOwned path_format.read (λ p. p) result reader.old reader.new }
{
    let mut ahead = reader.ahead();
    let Some(text) = ahead.read_string()? else {
        return Err(ReadError::Fault(Fault::BadPath));
    };
    let path = Path::new(alloc, text)?;
    *reader = ahead;
    Ok(path)
}

#[tactic(auto, unfolding(jute::specs::Format::judged_at))]
fn read_child_path(alloc: Global, reader: &mut Reader<'_>) -> Result<Path, ReadError>
    ensures { ReadsOwned child_path.read (λ p. p) result reader.old reader.new }
{
    let mut ahead = reader.ahead();
    let Some(text) = ahead.read_string()? else {
        return Err(ReadError::Fault(Fault::BadPath));
    };
    let path = Path::new_child(alloc, text)?;
    *reader = ahead;
    Ok(path)
}

#[tactic(auto, unfolding(jute::specs::Format::judged_at))]
fn read_kind(reads: Reads, place: Place, reader: &mut Reader<'_>) -> Result<TxnKind, ReadError>
    ensures { ReadsOwned (kind_format_in reads place).read (λ k. k) result reader.old reader.new }
{
    let mut ahead = reader.ahead();
    let kind = TxnKind::at(reads, place, ahead.read_int()?)?;
    *reader = ahead;
    Ok(kind)
}

#[tactic(auto, unfolding(jute::specs::Format::judged_at))]
fn read_part_kind(reads: Reads, reader: &mut Reader<'_>) -> Result<TxnKind, ReadError>
    ensures { ReadsOwned (part_kind_in reads).read (λ k. k) result reader.old reader.new }
{
    let mut ahead = reader.ahead();
    let kind = read_kind(reads, Place::Part, &mut ahead)?.of_part()?;
    *reader = ahead;
    Ok(kind)
}

// The header of a transaction that is applied by these rules.
#[tactic(auto, unfolding(jute::specs::Format::judged_at))]
fn read_header(rules: Dialect, reader: &mut Reader<'_>) -> Result<TxnHeader, ReadError>
    ensures { ReadsOwned (header_in rules).read (λ h. h) result reader.old reader.new }
{
    let mut ahead = reader.ahead();
    let client_id = ahead.read_long()?;
    let cxid = ahead.read_int()?;
    let zxid = ahead.read_long()?;
    let time = ahead.read_long()?;
    *reader = ahead;
    Ok(TxnHeader {
        client_id,
        cxid,
        zxid,
        time,
        rules,
    })
}

// The last field of a create. In an operation outside a multi it may be missing, which means -1.
#[tactic(auto, using(crate::proofs::Endings::trailed))]
fn read_parent_cversion(
    reads: Reads,
    place: Place,
    reader: &mut Reader<'_>,
) -> Result<i32, ReadError>
    ensures { ReadsOwned (last_field reads place).read (λ z. z) result reader.old reader.new }
{
    if matches!(place, Place::Part) {
        return Ok(reader.read_int()?);
    }
    if reader.rest().is_empty() {
        return Ok(-1);
    }
    let mut ahead = reader.ahead();
    let cversion = ahead.read_int()?;
    pass_trailer(reads.trailer, &mut ahead)?;
    *reader = ahead;
    Ok(cversion)
}

// Whether the session owns the node, and the parent's cversion.
#[tactic(auto, unfolding(jute::specs::Format::judged_at))]
fn read_flagged(
    reads: Reads,
    place: Place,
    reader: &mut Reader<'_>,
) -> Result<(Owner, i32), ReadError>
    ensures { ReadsOwned (flagged_owner (last_field reads place)).read (λ v. v) result reader.old reader.new }
{
    let mut ahead = reader.ahead();
    let owner = if ahead.read_bool()? {
        Owner::Client
    } else {
        Owner::Nobody
    };
    let parent_cversion = read_parent_cversion(reads, place, &mut ahead)?;
    *reader = ahead;
    Ok((owner, parent_cversion))
}

// The parent's cversion, and the node's time to live.
#[tactic(auto, unfolding(jute::specs::Format::judged_at))]
fn read_timed(reader: &mut Reader<'_>) -> Result<(Owner, i32), ReadError>
    ensures { ReadsOwned timed_owner.read (λ v. v) result reader.old reader.new }
{
    let mut ahead = reader.ahead();
    let parent_cversion = ahead.read_int()?;
    let milliseconds = ahead.read_long()?;
    *reader = ahead;
    Ok((Owner::Ttl(milliseconds), parent_cversion))
}

// The node's owner, and the parent's cversion, in a create of this type.
#[tactic(auto, unfolding(jute::specs::Format::judged_at))]
fn read_owner(
    reads: Reads,
    kind: TxnKind,
    place: Place,
    reader: &mut Reader<'_>,
) -> Result<(Owner, i32), ReadError>
    ensures { ReadsOwned (owner_format (last_field reads place) kind).read (λ v. v) result reader.old reader.new }
{
    match kind {
        TxnKind::Create => read_flagged(reads, place, reader),
        TxnKind::Create2 => read_flagged(reads, Place::Part, reader),
        TxnKind::CreateContainer => Ok((Owner::Container, reader.read_int()?)),
        TxnKind::CreateTtl => read_timed(reader),
        TxnKind::Delete
        | TxnKind::SetData
        | TxnKind::SetAcl
        | TxnKind::Check
        | TxnKind::Multi
        | TxnKind::Reconfig
        | TxnKind::DeleteContainer
        | TxnKind::CreateSession
        | TxnKind::CloseSession
        | TxnKind::Error => Err(ReadError::Fault(Fault::BadTxnType)),
    }
}

#[tactic(auto, unfolding(jute::specs::Format::judged_at))]
fn read_create(
    reads: Reads,
    alloc: Global,
    kind: TxnKind,
    place: Place,
    reader: &mut Reader<'_>,
) -> Result<Create, ReadError>
    ensures { ReadsOwned (create_with reads.surrogates (last_field reads place) kind).read (λ c. c) result reader.old reader.new }
{
    let mut ahead = reader.ahead();
    let path = read_child_path(alloc, &mut ahead)?;
    let bytes = read_blob(alloc, &mut ahead)?;
    let acl = AclField::read(reads.surrogates, alloc, &mut ahead)?;
    let (owner, parent_cversion) = read_owner(reads, kind, place, &mut ahead)?;
    *reader = ahead;
    Ok(Create {
        path,
        bytes,
        acl,
        owner,
        asks_stat: kind.shows_stat(),
        parent_cversion,
    })
}

impl<'a> ReadRecord<'a> for Create {
    ghost read_of = { create_format.read };

    fn read(alloc: Global, reader: &mut Reader<'a>) -> Result<Create, ReadError> {
        read_create(
            Dialect::Zk34.reads(),
            alloc,
            TxnKind::Create,
            Place::Part,
            reader,
        )
    }
}

// A delete, whose type was read.
#[tactic(auto, unfolding(jute::specs::Format::judged_at))]
fn read_delete(
    of_container: bool,
    alloc: Global,
    reader: &mut Reader<'_>,
) -> Result<Delete, ReadError>
    ensures { ReadsOwned (delete_with of_container).read (λ d. d) result reader.old reader.new }
{
    Ok(Delete {
        path: read_child_path(alloc, reader)?,
        of_container,
    })
}

// A write of data, whose type was read.
#[tactic(auto, unfolding(jute::specs::Format::judged_at))]
fn read_set_data(
    is_reconfig: bool,
    alloc: Global,
    reader: &mut Reader<'_>,
) -> Result<SetData, ReadError>
    ensures { ReadsOwned (set_data_with is_reconfig).read (λ s. s) result reader.old reader.new }
{
    let mut ahead = reader.ahead();
    let path = read_path(alloc, &mut ahead)?;
    let bytes = read_blob(alloc, &mut ahead)?;
    let version = ahead.read_int()?;
    *reader = ahead;
    Ok(SetData {
        path,
        bytes,
        version,
        is_reconfig,
    })
}

impl<'a> ReadRecord<'a> for SetData {
    ghost read_of = { set_data_format.read };

    fn read(alloc: Global, reader: &mut Reader<'a>) -> Result<SetData, ReadError> {
        read_set_data(false, alloc, reader)
    }
}

fn read_set_acl(
    surrogates: bool,
    alloc: Global,
    reader: &mut Reader<'_>,
) -> Result<SetAcl, ReadError>
    ensures { ReadsOwned (set_acl_in surrogates).read (λ s. s) result reader.old reader.new }
{
    let mut ahead = reader.ahead();
    let path = read_path(alloc, &mut ahead)?;
    let acl = AclField::read(surrogates, alloc, &mut ahead)?;
    let version = ahead.read_int()?;
    *reader = ahead;
    Ok(SetAcl { path, acl, version })
}

impl<'a> ReadRecord<'a> for SetAcl {
    ghost read_of = { set_acl_format.read };

    fn read(alloc: Global, reader: &mut Reader<'a>) -> Result<SetAcl, ReadError> {
        read_set_acl(false, alloc, reader)
    }
}

impl<'a> ReadRecord<'a> for Check {
    ghost read_of = { check_format.read };

    fn read(alloc: Global, reader: &mut Reader<'a>) -> Result<Check, ReadError> {
        let mut ahead = reader.ahead();
        let path = read_path(alloc, &mut ahead)?;
        let version = ahead.read_int()?;
        *reader = ahead;
        Ok(Check { path, version })
    }
}

#[tactic(auto, unfolding(jute::specs::Format::judged_at))]
fn read_created(
    reads: Reads,
    alloc: Global,
    kind: TxnKind,
    place: Place,
    reader: &mut Reader<'_>,
) -> Result<Operation, ReadError>
    ensures { ReadsOwned (created_operation reads.surrogates (last_field reads place) kind).read (λ o. o) result reader.old reader.new }
{
    Ok(Operation::Create(read_create(reads, alloc, kind, place, reader)?))
}

// An operation of this type, alone or in a multi.
#[tactic(auto, unfolding(jute::specs::Format::judged_at))]
fn read_operation(
    reads: Reads,
    alloc: Global,
    kind: TxnKind,
    place: Place,
    reader: &mut Reader<'_>,
) -> Result<Operation, ReadError>
    ensures { ReadsOwned (operation_format reads.surrogates (last_field reads place) kind).read (λ o. o) result reader.old reader.new }
{
    match kind {
        TxnKind::Create | TxnKind::Create2 | TxnKind::CreateContainer | TxnKind::CreateTtl =>
            read_created(reads, alloc, kind, place, reader),
        TxnKind::Delete => Ok(Operation::Delete(read_delete(false, alloc, reader)?)),
        TxnKind::DeleteContainer => Ok(Operation::Delete(read_delete(true, alloc, reader)?)),
        TxnKind::SetData => Ok(Operation::SetData(read_set_data(false, alloc, reader)?)),
        TxnKind::Reconfig => Ok(Operation::SetData(read_set_data(true, alloc, reader)?)),
        TxnKind::Check => Ok(Operation::Check(Check::read(alloc, reader)?)),
        TxnKind::Error => Ok(Operation::Error(reader.read_int()?)),
        TxnKind::SetAcl | TxnKind::Multi | TxnKind::CreateSession | TxnKind::CloseSession => {
            Err(ReadError::Fault(Fault::BadTxnType))
        }
    }
}

// Bytes that are a part of this type, or of which the front is.
#[tactic(auto, unfolding(jute::specs::Sums::whole_value))]
fn read_held(
    reads: Reads,
    alloc: Global,
    kind: TxnKind,
    bytes: &[u8],
) -> Result<Operation, ReadError>
    ensures { ReadsOwnedWhole
        (value_in_buffer (is_lenient reads kind) (operation_format reads.surrogates int kind) (Some bytes.now)) result }
{
    let mut ahead = Reader::new(bytes);
    let operation = read_operation(reads, alloc, kind, Place::Part, &mut ahead)?;
    if !kind.is_lenient(reads) && !ahead.rest().is_empty() {
        return Err(ReadError::Fault(Fault::TrailingBytes));
    }
    Ok(operation)
}

// The buffer of a part of this type.
#[tactic(auto, unfolding(jute::specs::Format::judged_at))]
fn read_buffered(
    reads: Reads,
    alloc: Global,
    kind: TxnKind,
    reader: &mut Reader<'_>,
) -> Result<Operation, ReadError>
    ensures { ReadsOwned (part_content reads kind).read (λ o. o) result reader.old reader.new }
{
    let mut ahead = reader.ahead();
    let Some(bytes) = ahead.read_buffer()? else {
        return Err(ReadError::Fault(Fault::Short));
    };
    let operation = read_held(reads, alloc, kind, bytes)?;
    *reader = ahead;
    Ok(operation)
}

// A part of a multi: a type, and a buffer with the operation.
#[tactic(auto, unfolding(jute::specs::Sums::tagged_at))]
fn read_part(reads: Reads, alloc: Global, reader: &mut Reader<'_>) -> Result<Operation, ReadError>
    ensures { ReadsOwned (part_format_in reads).read (λ o. o) result reader.old reader.new }
{
    let mut ahead = reader.ahead();
    let kind = read_part_kind(reads, &mut ahead)?;
    let operation = read_buffered(reads, alloc, kind, &mut ahead)?;
    *reader = ahead;
    Ok(operation)
}

impl<'a> ReadRecord<'a> for Operation {
    ghost read_of = { multi_part.read };

    // A part of a multi of ZooKeeper 3.4.
    fn read(alloc: Global, reader: &mut Reader<'a>) -> Result<Operation, ReadError> {
        read_part(Dialect::Zk34.reads(), alloc, reader)
    }
}

// Reads this many parts, one after the other.
fn read_each_part(
    reads: Reads,
    alloc: Global,
    count: u32,
    reader: &mut Reader<'_>,
) -> Result<Vec<Operation>, ReadError>
    ensures { ReadsOwned (read_n (part_format_in reads).read count) (λ v. v.items) result reader.old reader.new }
{
    let mut ahead = reader.ahead();
    let mut parts = Vec::new(alloc);
    for _ in 0..count {
        parts.push(read_part(reads, alloc, &mut ahead)?)?;
    }
    *reader = ahead;
    Ok(parts)
}

// The parts of a multi; null is an empty list.
#[tactic(auto, unfolding(jute::specs::Format::judged_at, jute::specs::Format::vector_at))]
fn read_parts(
    reads: Reads,
    alloc: Global,
    reader: &mut Reader<'_>,
) -> Result<Listed<Operation>, ReadError>
    ensures { ReadsOwned (parts_format_in reads).read (λ p. p) result reader.old reader.new }
{
    let mut ahead = reader.ahead();
    let Some(count) = ahead.read_count()? else {
        *reader = ahead;
        return Ok(Listed::from_vec(Vec::new(alloc)));
    };
    let parts = read_each_part(reads, alloc, count, &mut ahead)?;
    *reader = ahead;
    Ok(Listed::from_vec(parts))
}

// The fields after a transaction's type.
#[tactic(auto, unfolding(jute::specs::Format::judged_at))]
fn read_fields(
    reads: Reads,
    alloc: Global,
    kind: TxnKind,
    reader: &mut Reader<'_>,
) -> Result<Body, ReadError>
    ensures { ReadsOwned (body_fields reads kind).read (λ b. b) result reader.old reader.new }
{
    match kind {
        TxnKind::Create
        | TxnKind::Create2
        | TxnKind::CreateContainer
        | TxnKind::CreateTtl
        | TxnKind::Delete
        | TxnKind::DeleteContainer
        | TxnKind::SetData
        | TxnKind::Reconfig
        | TxnKind::Check
        | TxnKind::Error => {
            Ok(Body::Single(read_operation(reads, alloc, kind, Place::Alone, reader)?))
        }
        TxnKind::SetAcl => { Ok(Body::SetAcl(read_set_acl(reads.surrogates, alloc, reader)?)) }
        TxnKind::Multi => Ok(Body::Multi(read_parts(reads, alloc, reader)?)),
        TxnKind::CreateSession => Ok(Body::CreateSession(reader.read_int()?)),
        TxnKind::CloseSession => {
            Ok(Body::CloseSession(read_closing(reads.lists_paths, alloc, reader)?))
        }
    }
}

// The fields after a transaction's type, and what may follow them.
#[tactic(auto, using(crate::proofs::Endings::trailed))]
fn read_content(
    reads: Reads,
    alloc: Global,
    kind: TxnKind,
    reader: &mut Reader<'_>,
) -> Result<Body, ReadError>
    ensures { ReadsOwned (body_content reads kind).read (λ b. b) result reader.old reader.new }
{
    let mut ahead = reader.ahead();
    let body = read_fields(reads, alloc, kind, &mut ahead)?;
    pass_trailer(reads.trailer && !kind.has_own_end(), &mut ahead)?;
    *reader = ahead;
    Ok(body)
}

#[tactic(auto, unfolding(jute::specs::Sums::tagged_at))]
fn read_body(reads: Reads, alloc: Global, reader: &mut Reader<'_>) -> Result<Body, ReadError>
    ensures { ReadsOwned (body_in reads).read (λ b. b) result reader.old reader.new }
{
    let mut ahead = reader.ahead();
    let kind = read_kind(reads, Place::Alone, &mut ahead)?;
    let body = read_content(reads, alloc, kind, &mut ahead)?;
    *reader = ahead;
    Ok(body)
}

fn read_txn(dialect: Dialect, alloc: Global, reader: &mut Reader<'_>) -> Result<Txn, ReadError>
    ensures { ReadsOwned (txn_in dialect).read (λ t. t) result reader.old reader.new }
{
    let mut ahead = reader.ahead();
    let header = read_header(dialect, &mut ahead)?;
    let body = read_body(dialect.reads(), alloc, &mut ahead)?;
    *reader = ahead;
    Ok(Txn { header, body })
}

#[tactic(auto, unfolding(jute::specs::Sums::whole_value))]
fn read_whole(dialect: Dialect, alloc: Global, bytes: &[u8]) -> Result<Txn, ReadError>
    ensures { ReadsOwnedWhole (value_of_whole (txn_in dialect) bytes.now) result }
{
    let mut ahead = Reader::new(bytes);
    let txn = read_txn(dialect, alloc, &mut ahead)?;
    if !ahead.rest().is_empty() {
        return Err(ReadError::Fault(Fault::TrailingBytes));
    }
    Ok(txn)
}

/// Decodes a transaction from all of the bytes, as [`decode_txn`] does, in this dialect. In a later one a digest of the
/// leader's tree may follow the transaction, which isn't kept, and the paths of a session's nodes may follow its end,
/// which are. The header has the dialect as the rules by which the transaction is applied.
pub fn decode_txn_in(dialect: Dialect, alloc: Global, bytes: &[u8]) -> Result<Txn, ReadError>
    // What is read was spelled so.
    ensures found { IfOk result (λ t. (txn_in dialect).Spells t bytes.now) }
    // A spelling is read, unless an allocation is refused.
    ensures only { (t : TheTxn) → (txn_in dialect).Spells t bytes.now → ReadsOwnedWhole (Ok t) result }
    // The result is that of the definition.
    ensures exact { ReadsOwnedWhole (value_of_whole (txn_in dialect) bytes.now) result }
    // The bytes of a refusal spell no transaction.
    ensures none { IfErr result (λ e. IfFault e (λ fault.
        (t : TheTxn) → (txn_in dialect).Spells t bytes.now → ⊥)) }
    // A refusal names the first field that isn't spelled.
    ensures named { IfErr result (λ e. IfFault e (λ fault. AgainstIn dialect fault bytes.now)) }
    // What is read is within the limits, so it may be written and is read back.
    ensures fits { IfOk result (λ t. (txn_in dialect).Fits t) }
    ensures writable { IfOk result (λ t. (txn_in dialect).Writable t) }
    // A node that is created or deleted isn't "/".
    ensures parents { IfOk result (λ t. HaveParents t.body) }
{
    read_whole(dialect, alloc, bytes)
}

/// Decodes a transaction of ZooKeeper 3.4 from all of the bytes: a TxnHeader and the body of its type (zookeeper.jute).
/// The fault is that of the first field that isn't spelled, or `TrailingBytes`. Fails with `NoMemory` if an allocation
/// is refused.
pub fn decode_txn(alloc: Global, bytes: &[u8]) -> Result<Txn, ReadError>
    // What is read was spelled so.
    ensures found { IfOk result (λ t. txn_format.Spells t bytes.now) }
    // A spelling is read, unless an allocation is refused.
    ensures only { (t : TheTxn) → txn_format.Spells t bytes.now → ReadsOwnedWhole (Ok t) result }
    // The result is that of the definition.
    ensures exact { ReadsOwnedWhole (value_of_whole txn_format bytes.now) result }
    // The bytes of a refusal spell no transaction.
    ensures none { IfErr result (λ e. IfFault e (λ fault.
        (t : TheTxn) → txn_format.Spells t bytes.now → ⊥)) }
    // A refusal names the first field that isn't spelled.
    ensures named { IfErr result (λ e. IfFault e (λ fault. AgainstTxn fault bytes.now)) }
    // What is read is within the limits, so it may be written and is read back.
    ensures fits { IfOk result (λ t. txn_format.Fits t) }
    ensures writable { IfOk result (λ t. txn_format.Writable t) }
    // A node that is created or deleted isn't "/".
    ensures parents { IfOk result (λ t. HaveParents t.body) }
{
    decode_txn_in(Dialect::Zk34, alloc, bytes)
}
