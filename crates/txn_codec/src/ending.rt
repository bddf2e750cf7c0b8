//! What may follow a transaction's fields.

ghost use Rattle.std.specs.Prelude.{◌≡◌, ◌++◌, IfOk, OnOk};
ghost use Rattle.std.specs.List.{flat_map};
ghost use Rattle.jute.specs.Format.{text_format, ReadsValue};
ghost use Rattle.jute.specs.Reads.{ReadsOwned};
ghost use Rattle.txn_codec.specs.Endings.{is_trailer, lists_nothing, trailer_if, listed_path, listed_paths, closing_if, closing_format};

use jute::{ReadRecord, Reader, read_vector};
use paths_and_acls::Path;
use std::alloc::Global;
use std::marker::Model;
use values::{Fault, Listed, NoMemory, ReadError, Str};

// The length of a digest: its version, and the number.
const DIGEST_LENGTH: usize = 12;

// Whether the bytes are a digest, or none.
fn is_trailer(rest: &[u8]) -> bool
    ensures { result ≡ is_trailer rest.now }
{
    rest.is_empty() || rest.len() == DIGEST_LENGTH
}

// Whether the bytes are a digest of version 2, or none.
fn lists_nothing(rest: &[u8]) -> bool
    ensures { result ≡ lists_nothing rest.now }
{
    if rest.is_empty() {
        return true;
    }
    rest.len() == DIGEST_LENGTH && rest[0] == 0 && rest[1] == 0 && rest[2] == 0 && rest[3] == 2
}

/// Passes over a digest, if there is one, where digests are read. The fault is `TrailingBytes` for other bytes.
pub(crate) fn pass_trailer(are_read: bool, reader: &mut Reader<'_>) -> Result<(), Fault>
    ensures { ReadsValue (trailer_if are_read) (λ u. u) result reader.old reader.new }
{
    if !are_read {
        return Ok(());
    }
    if !is_trailer(reader.rest()) {
        return Err(Fault::TrailingBytes);
    }
    *reader = Reader::new(&[]);
    Ok(())
}

// A text in the list at the end of a session; it may be null.
#[derive(Drop)]
struct ListedText<'a> {
    text: Option<Str<'a>>,
}

impl<'a> Model for ListedText<'a> {
    ghost use Rattle.std.specs.Prelude.{ℕ, List, Option};

    ghost Value = { Option (List ℕ) };

    ghost view = { λ p. p.text };
}

impl<'a> ReadRecord<'a> for ListedText<'a> {
    ghost read_of = { text_format.read };

    fn read(_alloc: Global, reader: &mut Reader<'a>) -> Result<ListedText<'a>, ReadError> {
        let text = match reader.read_string()? {
            None => None,
            Some(text) => Some(Str::new(text)),
        };
        Ok(ListedText { text })
    }
}

// Adds the path, if the text is that of a node that has a parent.
fn add_path(alloc: Global, listed: &ListedText<'_>, paths: &mut Vec<Path>) -> Result<(), NoMemory>
    ensures { OnOk result (paths.new.items ≡ paths.old.items ++ listed_path listed.now) }
{
    let Some(text) = &listed.text else {
        return Ok(());
    };
    match Path::if_child(alloc, text.as_str())? {
        None => return Ok(()),
        Some(path) => Ok(paths.push(path)?),
    }
}

// The paths among the texts.
fn paths_among(alloc: Global, texts: &[ListedText<'_>]) -> Result<Vec<Path>, NoMemory>
    ensures { IfOk result (λ paths. paths.items ≡ flat_map listed_path texts.now) }
{
    let mut paths = Vec::new(alloc);
    for text in texts {
        add_path(alloc, text, &mut paths)?;
    }
    Ok(paths)
}

// The paths among texts that may be null.
fn listed_paths(
    alloc: Global,
    texts: &Option<Listed<ListedText<'_>>>,
) -> Result<Listed<Path>, NoMemory>
    ensures { IfOk result (λ paths. paths ≡ listed_paths texts.now) }
{
    match texts {
        None => return Ok(Listed::from_vec(Vec::new(alloc))),
        Some(texts) => Ok(Listed::from_vec(paths_among(alloc, texts.as_slice())?)),
    }
}

// Reads a list of paths, and passes over a digest after it.
fn read_listed(alloc: Global, reader: &mut Reader<'_>) -> Result<Listed<Path>, ReadError>
    ensures { ReadsOwned closing_format.read (λ p. p) result reader.old reader.new }
{
    if lists_nothing(reader.rest()) {
        *reader = Reader::new(&[]);
        return Ok(Listed::from_vec(Vec::new(alloc)));
    }
    let mut ahead = reader.ahead();
    let texts = read_vector::<ListedText<'_>>(alloc, &mut ahead)?;
    pass_trailer(true, &mut ahead)?;
    let paths = listed_paths(alloc, &texts)?;
    *reader = ahead;
    Ok(paths)
}

/// Reads the paths that may follow the end of a session, where paths are listed there.
pub(crate) fn read_closing(
    are_listed: bool,
    alloc: Global,
    reader: &mut Reader<'_>,
) -> Result<Listed<Path>, ReadError>
    ensures { ReadsOwned (closing_if are_listed).read (λ p. p) result reader.old reader.new }
{
    if !are_listed {
        return Ok(Listed::from_vec(Vec::new(alloc)));
    }
    read_listed(alloc, reader)
}
