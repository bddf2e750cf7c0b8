//! The length of lists in bytes, counted before they are written. A count stops when it exceeds what a frame holds,
//! since a tree may hold more than any number counts.

ghost use Rattle.std.specs.Prelude.{◌≤◌, ◌+◌, length, Some};
ghost use Rattle.ephemerals.specs.Orders.{sorted_names};
ghost use Rattle.jute.specs.Format.{text_or_empty, vector_of, or_null};
ghost use Rattle.jute.specs.Owned.{acl_format};
ghost use Rattle.client_records.specs.Fields.{names_format};
ghost use Rattle.client_records.specs.Responses.{client_info};
ghost use Rattle.read_processor.specs.Limits.{body_limit};
ghost use Rattle.read_processor.specs.Inner.Counts.{CountsBytes};

use crate::body::BODY_LIMIT;
use client_records::{ClientInfo, Name};
use ephemerals::TextSet;
use jute::Acl;

// Adds this many bytes.
pub(crate) fn with_bytes(count: usize, more: usize) -> Option<usize>
    requires { count ≤ body_limit }
    ensures { CountsBytes result (count + more) }
{
    if more > BODY_LIMIT - count {
        return None;
    }
    Some(count + more)
}

// Adds a text, by its bytes, with its length prefix.
#[tactic(auto, unfolding(jute::specs::Format::number_bytes))]
fn with_text(count: usize, text: &[u8]) -> Option<usize>
    requires { count ≤ body_limit }
    ensures { CountsBytes result (count + length (text_or_empty.written text.now)) }
{
    let behind_length = with_bytes(count, 4)?;
    with_bytes(behind_length, text.len())
}

#[tactic(auto, unfolding(jute::specs::Format::number_bytes, jute::specs::Owned::acl_in, jute::specs::Owned::id_in))]
fn with_acl(count: usize, entry: &Acl) -> Option<usize>
    requires { count ≤ body_limit }
    ensures { CountsBytes result (count + length (acl_format.written entry.now)) }
{
    let behind_perms = with_bytes(count, 4)?;
    let behind_scheme = with_text(behind_perms, entry.id.scheme.as_slice())?;
    with_text(behind_scheme, entry.id.id.as_slice())
}

// The length of an access control list in bytes, with its count; None if it exceeds `BODY_LIMIT`.
pub(crate) fn acls_len(entries: &[Acl]) -> Option<usize>
    ensures { CountsBytes result (length ((vector_of acl_format).written (Some entries.now))) }
{
    let mut count = 4;
    for entry in entries {
        count = with_acl(count, entry)?;
    }
    Some(count)
}

// The length of names in bytes, with their count; None if it exceeds `BODY_LIMIT`.
pub(crate) fn names_len(texts: &TextSet) -> Option<usize>
    ensures { CountsBytes result (length (names_format.written (sorted_names texts.now))) }
{
    let mut count = 4;
    for text in texts.iter() {
        count = with_text(count, text.as_str().as_bytes())?;
    }
    Some(count)
}

// The length of a list of texts in bytes, with its count; None if it exceeds `BODY_LIMIT`.
pub(crate) fn texts_len(texts: &[Name<'_>]) -> Option<usize>
    ensures { CountsBytes result (length (names_format.written texts.now)) }
{
    let mut count = 4;
    for text in texts {
        count = with_text(count, text.as_str().as_bytes())?;
    }
    Some(count)
}

#[tactic(auto, unfolding(jute::specs::Format::number_bytes, client_records::specs::Responses::client_info))]
fn with_info(count: usize, entry: &ClientInfo<'_>) -> Option<usize>
    requires { count ≤ body_limit }
    ensures { CountsBytes result (count + length (client_info.written entry.now)) }
{
    let behind_scheme = with_text(count, entry.auth_scheme.as_slice())?;
    with_text(behind_scheme, entry.user.as_slice())
}

// The length of the infos of ids in bytes, with their count; None if it exceeds `BODY_LIMIT`.
pub(crate) fn infos_len(entries: &[ClientInfo<'_>]) -> Option<usize>
    ensures { CountsBytes result (length ((vector_of client_info).written (Some entries.now))) }
{
    let mut count = 4;
    for entry in entries {
        count = with_info(count, entry)?;
    }
    Some(count)
}
