//! The row of a transaction: what is asked of it, beside what it does.
//!
//! Which paths it touches, how much data it brings, which path its reply shows, what it does to sessions, and whether
//! it says that a request failed. Each is said here once; the crates above ask, and list no cases of their own.

ghost use Rattle.std.specs.Prelude.{◌≡◌, ◌++◌, ◌∷◌, [], ◌-◌, ◌^◌, OnOk, min, length, unwrap_or};
ghost use Rattle.std.specs.Option.{option_copied};
ghost use Rattle.paths_and_acls.specs.Paths.{parent_of};
ghost use Rattle.txn_codec.specs.Row.{error_of, has_error, footprint_of_operation, footprint_of_parts, footprint_of_body, data_len_of_operation, data_len_of_parts, data_len_of_body, shown_path_of_operation, shown_path_of_body, session_change, ends_session};

use crate::txn::{Body, Operation};
use paths_and_acls::Path;
use values::{Blob, NoMemory, Str};

/// What becomes of the session of a transaction's header.
#[derive(Clone, Copy)]
pub enum SessionChange {
    Nothing,
    /// It begins, with this timeout in milliseconds.
    Begins(i32),
    /// It ends, and its ephemeral nodes are deleted.
    Ends,
}

fn add<'a>(path: &'a str, paths: &mut Vec<Str<'a>>) -> Result<(), NoMemory>
    ensures { OnOk result (paths.new.items ≡ paths.old.items ++ path.now ∷ []) }
{
    paths.push(Str::new(path))?;
    Ok(())
}

// Adds a path and its parent's.
fn add_with_parent<'a>(path: &'a Path, paths: &mut Vec<Str<'a>>) -> Result<(), NoMemory>
    ensures { OnOk result (paths.new.items ≡ paths.old.items ++ path.now ∷ parent_of path.now ∷ []) }
{
    add(path.as_str(), paths)?;
    add(path.parent(), paths)
}

fn add_parts<'a>(parts: &'a [Operation], paths: &mut Vec<Str<'a>>) -> Result<(), NoMemory>
    ensures { OnOk result (paths.new.items ≡ paths.old.items ++ footprint_of_parts parts.now) }
{
    for part in parts {
        part.borrow_paths(paths)?;
    }
    Ok(())
}

fn bytes_len(bytes: &Option<Blob>) -> usize
    ensures { result ≡ length (unwrap_or bytes.now []) }
{
    match bytes {
        None => return 0,
        Some(bytes) => bytes.as_slice().len(),
    }
}

fn parts_len(parts: &[Operation]) -> usize
    ensures { result ≡ min (data_len_of_parts parts.now) (2 ^ 64 - 1) }
{
    let mut len = 0usize;
    for part in parts {
        len = len.saturating_add(part.data_len());
    }
    len
}

/// Whether some part of a multi is an error part, so that none of it is applied.
pub fn has_error(parts: &[Operation]) -> bool
    ensures { result ≡ has_error parts.now }
{
    for part in parts {
        if part.error().is_some() {
            return true;
        }
    }
    false
}

impl Operation {
    /// The error code of what failed.
    pub fn error(&self) -> Option<i32>
        ensures { result ≡ error_of self.now }
    {
        match self {
            Operation::Error(error) => Some(*error),
            Operation::Create(_)
            | Operation::Delete(_)
            | Operation::SetData(_)
            | Operation::Check(_) => None,
        }
    }

    fn borrow_paths<'a>(&'a self, paths: &mut Vec<Str<'a>>) -> Result<(), NoMemory>
        ensures { OnOk result (paths.new.items ≡ paths.old.items ++ footprint_of_operation self.now) }
    {
        match self {
            Operation::Create(create) => add_with_parent(&create.path, paths),
            Operation::Delete(delete) => add_with_parent(&delete.path, paths),
            Operation::SetData(set_data) => add(set_data.path.as_str(), paths),
            Operation::Check(_) | Operation::Error(_) => Ok(()),
        }
    }

    fn data_len(&self) -> usize
        ensures { result ≡ data_len_of_operation self.now }
    {
        match self {
            Operation::Create(create) => bytes_len(&create.bytes),
            Operation::SetData(set_data) => bytes_len(&set_data.bytes),
            Operation::Delete(_) | Operation::Check(_) | Operation::Error(_) => 0,
        }
    }

    fn shown_path(&self) -> Option<&str>
        ensures { option_copied result ≡ shown_path_of_operation self.now }
    {
        match self {
            Operation::Create(create) => Some(create.path.as_str()),
            Operation::SetData(set_data) => Some(set_data.path.as_str()),
            Operation::Delete(_) | Operation::Check(_) | Operation::Error(_) => None,
        }
    }
}

impl Body {
    /// Appends the paths that it touches, as it names them: in no order, and some of a multi's more than once. What
    /// ends a session adds none, since its paths depend on the state.
    pub fn borrow_paths<'a>(&'a self, paths: &mut Vec<Str<'a>>) -> Result<(), NoMemory>
        ensures { OnOk result (paths.new.items ≡ paths.old.items ++ footprint_of_body self.now) }
    {
        match self {
            Body::Single(operation) => operation.borrow_paths(paths),
            Body::SetAcl(set_acl) => add(set_acl.path.as_str(), paths),
            Body::Multi(parts) => {
                if has_error(parts.as_slice()) {
                    return Ok(());
                }
                add_parts(parts.as_slice(), paths)
            }
            Body::CreateSession(_) | Body::CloseSession(_) => Ok(()),
        }
    }

    /// The bytes of data that it brings for nodes.
    pub fn data_len(&self) -> usize
        ensures { result ≡ min (data_len_of_body self.now) (2 ^ 64 - 1) }
    {
        match self {
            Body::Single(operation) => operation.data_len(),
            Body::Multi(parts) => parts_len(parts.as_slice()),
            Body::SetAcl(_) | Body::CreateSession(_) | Body::CloseSession(_) => 0,
        }
    }

    /// The path that the reply to it shows, or whose node it shows.
    pub fn shown_path(&self) -> Option<&str>
        ensures { option_copied result ≡ shown_path_of_body self.now }
    {
        match self {
            Body::Single(operation) => operation.shown_path(),
            Body::SetAcl(set_acl) => Some(set_acl.path.as_str()),
            Body::Multi(_) | Body::CreateSession(_) | Body::CloseSession(_) => None,
        }
    }

    /// What becomes of the session of its header.
    pub fn session_change(&self) -> SessionChange
        ensures { result ≡ session_change self.now }
    {
        match self {
            Body::CreateSession(timeout) => SessionChange::Begins(*timeout),
            Body::CloseSession(_) => SessionChange::Ends,
            Body::Single(_) | Body::SetAcl(_) | Body::Multi(_) => SessionChange::Nothing,
        }
    }

    /// Whether the session of its header ends. Then the paths that it touches depend on the state.
    pub fn ends_session(&self) -> bool
        ensures { result ≡ ends_session self.now }
    {
        matches!(self.session_change(), SessionChange::Ends)
    }
}
