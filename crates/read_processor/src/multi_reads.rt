//! Several reads in one answer.

ghost use Rattle.std.specs.Prelude.{◌≡◌, ◌++◌, IfOk, Some};
ghost use Rattle.jute.specs.Format.{int};
ghost use Rattle.client_records.specs.Multi.{multi_header};
ghost use Rattle.read_processor.specs.Inner.Parts.{body_followed_by};
ghost use Rattle.read_processor.specs.MultiReads.{look_at_part, header_of_error, end_of_parts, part_shown, look_at_parts};

use crate::body::Body;
use crate::reads::look;
use crate::request::Request;
use crate::shown::Look;
use client_records::codes::OK;
use client_records::{ErrorResponse, MultiHeader, ReadKind, ReadPart};
use data_tree::Tree;
use jute::Id;
use settings::Dialect;
use std::alloc::Global;
use values::{NoMemory, Str};

// The answer to a part.
fn look_at_part(
    alloc: Global,
    tree: &Tree,
    ids: &[Id],
    part: &ReadPart<'_>,
) -> Result<Look, NoMemory>
    ensures { IfOk result (λ shown. shown ≡ look_at_part tree.now ids.now part.now) }
{
    let request = Request {
        kind: part.kind,
        path: part.path.as_ref().map(|path| Str::new(path.as_str())),
        watch: false,
        rules: Dialect::Zk38,
    };
    look(alloc, tree, ids, &request)
}

fn header_of_error(error: i32) -> MultiHeader
    ensures { result ≡ header_of_error error }
{
    MultiHeader {
        kind: -1,
        done: false,
        err: error,
    }
}

// Appends an error, twice.
#[tactic(auto, unfolding(client_records::specs::Multi::multi_header, client_records::specs::Responses::error_response, jute::specs::Format::number_bytes))]
fn with_error(body: Body, error: i32) -> Result<Option<Body>, NoMemory>
    ensures { IfOk result (λ more. more ≡ body_followed_by body
        (Some (multi_header.written (header_of_error error) ++ int.written error))) }
{
    let Some(body) = body.with_record(&header_of_error(error))? else {
        return Ok(None);
    };
    body.with_record(&ErrorResponse { err: error })
}

// Appends what a part shows.
#[tactic(auto, unfolding(client_records::specs::Multi::multi_header, client_records::specs::Responses::error_response, jute::specs::Format::number_bytes))]
fn with_part(
    body: Body,
    kind: ReadKind,
    error: i32,
    shown: &Option<Body>,
) -> Result<Option<Body>, NoMemory>
    ensures { IfOk result (λ more. more ≡
        body_followed_by body (part_shown kind (record { error = error; body = shown.now }))) }
{
    if error != OK {
        return with_error(body, error);
    }
    let Some(shown) = shown else {
        return Ok(None);
    };
    let header = MultiHeader {
        kind: kind as i32,
        done: false,
        err: OK,
    };
    let Some(body) = body.with_record(&header)? else {
        return Ok(None);
    };
    body.followed_by(shown)
}

// Appends the end of the parts.
#[tactic(auto, unfolding(client_records::specs::Multi::multi_header, client_records::specs::Responses::error_response, jute::specs::Format::number_bytes))]
fn with_end(body: Body) -> Result<Option<Body>, NoMemory>
    ensures { IfOk result (λ more. more ≡ body_followed_by body (Some (multi_header.written end_of_parts))) }
{
    body.with_record(&MultiHeader {
        kind: -1,
        done: true,
        err: -1,
    })
}

// What the parts show, and the end; `None` if they are too long for a frame.
fn body_of_parts(
    alloc: Global,
    tree: &Tree,
    ids: &[Id],
    parts: &[ReadPart<'_>],
) -> Result<Option<Body>, NoMemory>
    ensures { IfOk result (λ body. body ≡ (look_at_parts tree.now ids.now parts.now).body) }
{
    let mut body = Body::empty(alloc)?;
    for part in parts {
        let seen = look_at_part(alloc, tree, ids, part)?;
        let Some(longer) = with_part(body, part.kind, seen.error, &seen.body)? else {
            return Ok(None);
        };
        body = longer;
    }
    with_end(body)
}

/// The answer to a multiRead by a client with these ids: what each part shows, or its error, in the order of the parts.
/// Fails only if an allocation is refused.
pub fn look_at_parts(
    alloc: Global,
    tree: &Tree,
    ids: &[Id],
    parts: &[ReadPart<'_>],
) -> Result<Look, NoMemory>
    ensures { IfOk result (λ shown. shown ≡ look_at_parts tree.now ids.now parts.now) }
{
    let body = body_of_parts(alloc, tree, ids, parts)?;
    Ok(Look { error: OK, body })
}
