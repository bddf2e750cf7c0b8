//! Writing transactions.

ghost use Rattle.std.specs.Prelude.{◌≡◌, ◌<◌, ◌^◌, length, Some};
ghost use Rattle.values.specs.Gains.{Puts};
ghost use Rattle.jute.specs.Format.{buffer, vector_of};
ghost use Rattle.jute.specs.Owned.{acl_format};
ghost use Rattle.jute.specs.Sums.{held_in_buffer};
ghost use Rattle.paths_and_acls.specs.Fields.{child_path};
ghost use Rattle.txn_codec.specs.Endings.{closing_bytes};
ghost use Rattle.txn_codec.specs.Inner.{owner_bytes, create_bytes};
ghost use Rattle.txn_codec.specs.Spelling.{create_format, set_data as set_data_format, set_acl as set_acl_format, check_format, txn_header as header_format, kind_format, format_of_operation, multi_part as part_format, multi_parts as parts_format, format_of_body, txn_format};

use crate::kind::TxnKind;
use crate::txn::{Body, Check, Create, Operation, Owner, SetAcl, SetData, Txn, TxnHeader};
use jute::{WriteRecord, blob_len, items_len, put_blob, put_bool, put_int, put_items, put_string};
use paths_and_acls::Path;
use values::{Listed, NoMemory};

impl WriteRecord for TxnHeader {
    ghost format = { header_format };

    #[tactic(auto, unfolding(jute::specs::Format::number_bytes))]
    fn written_len(&self) -> usize {
        28
    }

    fn write(&self, out: &mut Vec<u8>) -> Result<(), NoMemory> {
        self.client_id.write(out)?;
        self.cxid.write(out)?;
        self.zxid.write(out)?;
        self.time.write(out)
    }
}

// The length in bytes of what a create has after its list.
#[tactic(auto, unfolding(jute::specs::Format::number_bytes))]
fn owner_len(create: &Create) -> usize
    ensures { result ≡ length (owner_bytes create.now.owner create.now.parent_cversion) }
{
    match create.owner {
        Owner::Nobody | Owner::Client => 5,
        Owner::Container => 4,
        Owner::Ttl(_) => 12,
    }
}

// Appends what a create has after its list.
fn put_owner(out: &mut Vec<u8>, create: &Create) -> Result<(), NoMemory>
    ensures { Puts result out.old.items (owner_bytes create.now.owner create.now.parent_cversion) out.new.items }
{
    match create.owner {
        Owner::Nobody => {
            put_bool(out, false)?;
            create.parent_cversion.write(out)
        }
        Owner::Client => {
            put_bool(out, true)?;
            create.parent_cversion.write(out)
        }
        Owner::Container => create.parent_cversion.write(out),
        Owner::Ttl(milliseconds) => {
            create.parent_cversion.write(out)?;
            milliseconds.write(out)
        }
    }
}

// The length in bytes of a create.
#[tactic(auto, unfolding(jute::specs::Format::number_bytes))]
fn create_len(create: &Create) -> usize
    requires path { length create.now.path < 2 ^ 31 }
    requires data { buffer.Writable create.now.bytes }
    requires list { (vector_of acl_format).Writable create.now.acl }
    requires small { length (create_bytes create.now) < 2 ^ 63 }
    ensures { result ≡ length (create_bytes create.now) }
{
    create.path.as_str().len()
        + blob_len(&create.bytes)
        + create.acl.written_len()
        + 4
        + owner_len(create)
}

// Appends a create.
fn put_create(out: &mut Vec<u8>, create: &Create) -> Result<(), NoMemory>
    requires path { length create.now.path < 2 ^ 31 }
    requires data { buffer.Writable create.now.bytes }
    requires list { (vector_of acl_format).Writable create.now.acl }
    ensures { Puts result out.old.items (create_bytes create.now) out.new.items }
{
    put_string(out, create.path.as_str())?;
    put_blob(out, &create.bytes)?;
    create.acl.write(out)?;
    put_owner(out, create)
}

impl WriteRecord for Create {
    ghost format = { create_format };

    #[tactic(auto, using(crate::proofs::Written::create_written))]
    fn written_len(&self) -> usize {
        create_len(self)
    }

    #[tactic(auto, using(crate::proofs::Written::create_written))]
    fn write(&self, out: &mut Vec<u8>) -> Result<(), NoMemory> {
        put_create(out, self)
    }
}

impl WriteRecord for SetData {
    ghost format = { set_data_format };

    #[tactic(auto, unfolding(jute::specs::Format::number_bytes))]
    fn written_len(&self) -> usize {
        self.path.as_str().len() + blob_len(&self.bytes) + 8
    }

    fn write(&self, out: &mut Vec<u8>) -> Result<(), NoMemory> {
        put_string(out, self.path.as_str())?;
        put_blob(out, &self.bytes)?;
        self.version.write(out)
    }
}

impl WriteRecord for SetAcl {
    ghost format = { set_acl_format };

    #[tactic(auto, unfolding(jute::specs::Format::number_bytes))]
    fn written_len(&self) -> usize {
        self.path.as_str().len() + self.acl.written_len() + 8
    }

    fn write(&self, out: &mut Vec<u8>) -> Result<(), NoMemory> {
        put_string(out, self.path.as_str())?;
        self.acl.write(out)?;
        self.version.write(out)
    }
}

impl WriteRecord for Check {
    ghost format = { check_format };

    #[tactic(auto, unfolding(jute::specs::Format::number_bytes))]
    fn written_len(&self) -> usize {
        self.path.as_str().len() + 8
    }

    fn write(&self, out: &mut Vec<u8>) -> Result<(), NoMemory> {
        put_string(out, self.path.as_str())?;
        self.version.write(out)
    }
}

// The length in bytes of an operation after its type, or in a part's buffer.
#[tactic(auto, using(crate::proofs::Written::created_written, crate::proofs::Written::created_writable, crate::proofs::Written::delete_written, crate::proofs::Written::delete_writable, crate::proofs::Written::set_data_written, crate::proofs::Written::set_data_writable), unfolding(jute::specs::Format::number_bytes))]
fn operation_len(operation: &Operation) -> usize
    requires writable { (format_of_operation operation.now).Writable operation.now }
    requires small { length ((format_of_operation operation.now).written operation.now) < 2 ^ 63 }
    ensures { result ≡ length ((format_of_operation operation.now).written operation.now) }
{
    match operation {
        Operation::Create(create) => create_len(create),
        Operation::Delete(delete) => delete.path.as_str().len() + 4,
        Operation::SetData(set_data) => set_data.written_len(),
        Operation::Check(check) => check.written_len(),
        Operation::Error(_) => 4,
    }
}

// Appends an operation without its type.
#[tactic(auto, using(crate::proofs::Written::created_written, crate::proofs::Written::created_writable, crate::proofs::Written::delete_written, crate::proofs::Written::delete_writable, crate::proofs::Written::set_data_written, crate::proofs::Written::set_data_writable))]
fn put_operation(out: &mut Vec<u8>, operation: &Operation) -> Result<(), NoMemory>
    requires { (format_of_operation operation.now).Writable operation.now }
    ensures { Puts result out.old.items
        ((format_of_operation operation.now).written operation.now) out.new.items }
{
    match operation {
        Operation::Create(create) => put_create(out, create),
        Operation::Delete(delete) => put_string(out, delete.path.as_str()),
        Operation::SetData(set_data) => set_data.write(out),
        Operation::Check(check) => check.write(out),
        Operation::Error(error) => error.write(out),
    }
}

// Appends a buffer that holds the operation.
fn put_buffered(out: &mut Vec<u8>, operation: &Operation) -> Result<(), NoMemory>
    requires { (held_in_buffer (format_of_operation operation.now)).Writable operation.now }
    ensures { Puts result out.old.items
        ((held_in_buffer (format_of_operation operation.now)).written operation.now) out.new.items }
{
    put_int(out, operation_len(operation) as i32)?;
    put_operation(out, operation)
}

fn put_kind(out: &mut Vec<u8>, kind: TxnKind) -> Result<(), NoMemory>
    ensures { Puts result out.old.items (kind_format.written kind) out.new.items }
{
    kind.code().write(out)
}

impl WriteRecord for Operation {
    ghost format = { part_format };

    #[tactic(auto, unfolding(jute::specs::Format::number_bytes))]
    fn written_len(&self) -> usize {
        8 + operation_len(self)
    }

    // Appends a part of a multi: its type, and a buffer with the operation.
    fn write(&self, out: &mut Vec<u8>) -> Result<(), NoMemory> {
        put_kind(out, self.kind())?;
        put_buffered(out, self)
    }
}

// The length in bytes of the paths at the end of a session.
#[tactic(auto, unfolding(jute::specs::Format::number_bytes))]
fn closing_len(listed: &Listed<Path>) -> usize
    requires writable { (vector_of child_path).Writable (Some listed.now) }
    requires small { length (closing_bytes listed.now) < 2 ^ 63 }
    ensures { result ≡ length (closing_bytes listed.now) }
{
    match listed.as_slice() {
        [] => 0,
        paths => 4 + items_len(paths),
    }
}

// Appends the paths at the end of a session; nothing if there is none.
fn put_closing(out: &mut Vec<u8>, listed: &Listed<Path>) -> Result<(), NoMemory>
    requires { (vector_of child_path).Writable (Some listed.now) }
    ensures { Puts result out.old.items (closing_bytes listed.now) out.new.items }
{
    match listed.as_slice() {
        [] => return Ok(()),
        paths => {
            put_int(out, paths.len() as i32)?;
            put_items(out, paths)
        }
    }
}

// The length in bytes of a transaction after its type.
#[tactic(auto, unfolding(jute::specs::Format::number_bytes))]
fn content_len(body: &Body) -> usize
    requires writable { (format_of_body body.now).Writable body.now }
    requires small { length ((format_of_body body.now).written body.now) < 2 ^ 63 }
    ensures { result ≡ length ((format_of_body body.now).written body.now) }
{
    match body {
        Body::Single(operation) => operation_len(operation),
        Body::SetAcl(set_acl) => set_acl.written_len(),
        Body::Multi(parts) => 4 + items_len(parts.as_slice()),
        Body::CreateSession(_) => 4,
        Body::CloseSession(listed) => closing_len(listed),
    }
}

// Appends the parts of a multi with their count.
fn put_parts(out: &mut Vec<u8>, parts: &Listed<Operation>) -> Result<(), NoMemory>
    requires { parts_format.Writable parts.now }
    ensures { Puts result out.old.items (parts_format.written parts.now) out.new.items }
{
    put_int(out, parts.len() as i32)?;
    put_items(out, parts.as_slice())
}

// Appends the fields after a transaction's type.
fn put_content(out: &mut Vec<u8>, body: &Body) -> Result<(), NoMemory>
    requires { (format_of_body body.now).Writable body.now }
    ensures { Puts result out.old.items ((format_of_body body.now).written body.now) out.new.items }
{
    match body {
        Body::Single(operation) => put_operation(out, operation),
        Body::SetAcl(set_acl) => set_acl.write(out),
        Body::Multi(parts) => put_parts(out, parts),
        Body::CreateSession(timeout) => timeout.write(out),
        Body::CloseSession(listed) => put_closing(out, listed),
    }
}

impl WriteRecord for Txn {
    ghost format = { txn_format };

    #[tactic(auto, unfolding(jute::specs::Format::number_bytes))]
    fn written_len(&self) -> usize {
        self.header.written_len() + 4 + content_len(&self.body)
    }

    fn write(&self, out: &mut Vec<u8>) -> Result<(), NoMemory> {
        self.header.write(out)?;
        put_kind(out, self.body.kind())?;
        put_content(out, &self.body)
    }
}

/// Appends the transaction to `out` in its one written spelling: a create always as a CreateTxn, and a multi without
/// parts with a count of 0. A refused allocation leaves a prefix of the bytes appended.
pub fn encode_txn(txn: &Txn, out: &mut Vec<u8>) -> Result<(), NoMemory>
    requires { txn_format.Writable txn.now }
    ensures { Puts result out.old.items (txn_format.written txn.now) out.new.items }
{
    txn.write(out)
}
