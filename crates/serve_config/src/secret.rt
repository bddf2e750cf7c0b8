//! The secret that the passwords of sessions are made of, in a file that others can't read.

ghost use Rattle.std.specs.Prelude.{◌≡◌, IfOk};
ghost use Rattle.serve_config.specs.Secrets.{without_newline, filed_secret};

use serve_failures::Failure;
use serve_options::Options;
use settings::Secret;
use std::alloc::{AllocError, Global};
use std::fs::Metadata;
use std::io::{ErrorKind, Read};
use std::os::unix::fs::PermissionsExt;
use std::rt::Files;
use std::{fs, io};
use thiserror::Error;
use values::{Blob, NoMemory};

/// What is wrong with a file that is to be kept from others, and what to do.
#[derive(Debug, Drop, Error)]
enum SecretError {
    #[error("there is no such file: make one with 1 to 64 bytes, as by head -c 32 /dev/urandom")]
    Missing,
    #[error("it is a directory or a device: name a file with 1 to 64 bytes")]
    NoFile,
    #[error("others may read or write it: take that from them, as by chmod o-rw")]
    OpenToOthers,
    #[error("it is empty: write 1 to 64 bytes into it, as by head -c 32 /dev/urandom")]
    Empty,
    #[error("it has more than 64 bytes: write 1 to 64 into it, as by head -c 32 /dev/urandom")]
    Long,
    #[error("it can't be read ({0}): let the user read it that the server runs as")]
    Unreadable(io::Error),
    /// An allocation was refused.
    #[error("memory was refused")]
    NoMemory,
}

impl From<io::Error> for SecretError {
    fn from(error: io::Error) -> SecretError {
        match error.kind() {
            ErrorKind::NotFound => SecretError::Missing,
            ErrorKind::OutOfMemory => SecretError::NoMemory,
            _ => SecretError::Unreadable(error),
        }
    }
}

impl From<AllocError> for SecretError {
    fn from(_error: AllocError) -> SecretError {
        SecretError::NoMemory
    }
}

impl From<NoMemory> for SecretError {
    fn from(_error: NoMemory) -> SecretError {
        SecretError::NoMemory
    }
}

// What is read at most: a secret, a newline, and one byte that is too many.
const MOST_READ: u64 = 66;

// The bits of a mode by which others than the owner and the group may read and write.
const OTHERS: u32 = 0o006;

fn is_open_to_others(metadata: &Metadata) -> bool {
    metadata.permissions().mode() & OTHERS != 0
}

fn without_newline(content: &[u8]) -> &[u8]
    ensures { result.now ≡ without_newline content.now }
{
    if content.ends_with(b"\n") {
        return &content[..content.len() - 1];
    }
    content
}

// The secret in a file with these bytes; `None` if there are none, or too many.
fn filed_secret(alloc: Global, content: &[u8]) -> Result<Option<Secret>, NoMemory>
    ensures { IfOk result (λ secret. secret ≡ filed_secret content.now) }
{
    let bytes = without_newline(content);
    if bytes.is_empty() {
        return Ok(None);
    }
    Ok(Secret::new(Blob::new(alloc, bytes)?))
}

// Why these bytes are no secret.
fn unfit(content: &[u8]) -> SecretError {
    if without_newline(content).is_empty() {
        return SecretError::Empty;
    }
    SecretError::Long
}

fn secret_at<R: Files>(rt: &R, alloc: Global, name: &str) -> Result<Secret, SecretError> {
    let metadata = fs::metadata(rt, name)?;
    if !metadata.is_file() {
        return Err(SecretError::NoFile);
    }
    if is_open_to_others(&metadata) {
        return Err(SecretError::OpenToOthers);
    }
    let mut content = Vec::new(alloc);
    fs::open(rt, name)?
        .take(MOST_READ)
        .read_to_end(&mut content)?;
    filed_secret(alloc, content.as_slice())?.ok_or_else(|| unfit(content.as_slice()))
}

// What is wrong with the file that an option names.
fn wrong(alloc: Global, option: &str, name: &str, error: &SecretError) -> Failure {
    if matches!(error, SecretError::NoMemory) {
        return Failure::NoMemory;
    }
    match format!(in alloc; "{option} {name}") {
        Ok(file) => Failure::in_file(alloc, file.as_str(), 0, error),
        Err(_) => Failure::NoMemory,
    }
}

// Refuses a file for a record with the secret in it, if it is there already and others may read or write it.
fn refuse_open_record<R: Files>(rt: &R, alloc: Global, name: &str) -> Result<(), Failure> {
    match fs::metadata(rt, name) {
        Ok(metadata) if metadata.is_file() && is_open_to_others(&metadata) => Err(wrong(
            alloc,
            "--record",
            name,
            &SecretError::OpenToOthers,
        )),
        _ => Ok(()),
    }
}

/// Reads the secret in the file that `--secret-file` names: 1 to 64 bytes, without one newline at the end. Without such a
/// file it is empty. A record has the secret, too; so a file for it that others may read or write is refused beside one.
pub fn read_secret<R: Files>(
    rt: &R,
    alloc: Global,
    options: &Options<'_>,
) -> Result<Secret, Failure> {
    let Some(name) = options.secret_file else {
        return Ok(Secret::empty(alloc));
    };
    if let Some(record) = options.record {
        refuse_open_record(rt, alloc, record)?;
    }
    match secret_at(rt, alloc, name) {
        Ok(secret) => Ok(secret),
        Err(error) => Err(wrong(alloc, "--secret-file", name, &error)),
    }
}
