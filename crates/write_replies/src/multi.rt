//! The results of a multi, which its reply shows.

ghost use Rattle.std.specs.Prelude.{◌≡◌, ◌<◌, ◌^◌, ◌++◌, ◌&&◌, IfOk, length};
ghost use Rattle.client_records.specs.Multi.{multi_header};
ghost use Rattle.read_processor.specs.Limits.{fitting_body};
ghost use Rattle.write_replies.specs.Results.{done_header, end_of_results, error_result, path_result, path_and_stat_result, created_result, set_result, done_result, part_result, results_of_parts, multi_results};

use client_records::{Create2Response, ExistsResponse, MultiHeader, PathResponse, RequestKind};
use data_tree::PartResult;
use jute::codes::NO_NODE;
use jute::{Stat, WriteRecord};
use read_processor::{BODY_LIMIT, Body};
use std::alloc::Global;
use txn_codec::{Operation, has_error};
use values::{NoMemory, Str};

// The header of a result of this type.
fn done_header(kind: RequestKind) -> MultiHeader
    ensures { result ≡ done_header kind }
{
    MultiHeader {
        kind: kind.code(),
        done: false,
        err: 0,
    }
}

// The body with a header behind it, and what the result shows.
#[tactic(auto, unfolding(client_records::specs::Multi::multi_header, jute::specs::Format::number_bytes))]
fn put_result<T: WriteRecord>(
    body: Body,
    header: &MultiHeader,
    shown: &T,
) -> Result<Option<Body>, NoMemory>
    requires writable { T.format.Writable shown.now }
    requires small { length (T.format.written shown.now) < 2 ^ 63 }
    ensures { IfOk result (λ more. more ≡
        fitting_body (body ++ (multi_header.written header.now ++ T.format.written shown.now))) }
{
    let Some(headed) = body.with_record(header)? else {
        return Ok(None);
    };
    headed.with_record(shown)
}

#[tactic(auto, unfolding(client_records::specs::Multi::multi_header, jute::specs::Format::number_bytes))]
fn put_error(body: Body, err: &i32) -> Result<Option<Body>, NoMemory>
    ensures { IfOk result (λ more. more ≡ fitting_body (body ++ error_result err.now)) }
{
    let header = MultiHeader {
        kind: -1,
        done: false,
        err: *err,
    };
    put_result(body, &header, err)
}

// The result of a create: its path.
fn put_path(body: Body, path: &str) -> Result<Option<Body>, NoMemory>
    ensures { IfOk result (λ more. more ≡ fitting_body (body ++ path_result path.now)) }
{
    if path.len() > BODY_LIMIT {
        return Ok(None);
    }
    let shown = PathResponse {
        path: Some(Str::new(path)),
    };
    put_result(body, &done_header(RequestKind::Create), &shown)
}

// The result of a create that asks for the Stat.
fn put_path_and_stat(body: Body, path: &str, stat: &Stat) -> Result<Option<Body>, NoMemory>
    ensures { IfOk result (λ more. more ≡ fitting_body (body ++ path_and_stat_result path.now stat.now)) }
{
    if path.len() > BODY_LIMIT {
        return Ok(None);
    }
    let shown = Create2Response {
        path: Some(Str::new(path)),
        stat: *stat,
    };
    put_result(body, &done_header(RequestKind::Create2), &shown)
}

fn put_created(
    body: Body,
    path: &str,
    asks_stat: bool,
    stat: &Option<Stat>,
) -> Result<Option<Body>, NoMemory>
    ensures { IfOk result (λ more. more ≡ fitting_body (body ++ created_result path.now asks_stat stat.now)) }
{
    if !asks_stat {
        return put_path(body, path);
    }
    match stat {
        None => return put_error(body, &NO_NODE),
        Some(stat) => put_path_and_stat(body, path, stat),
    }
}

// The result of a setData: the Stat.
#[tactic(auto, unfolding(client_records::specs::Responses::exists_response, jute::specs::Records::stat_format, jute::specs::Format::number_bytes))]
fn put_set(body: Body, stat: &Option<Stat>) -> Result<Option<Body>, NoMemory>
    ensures { IfOk result (λ more. more ≡ fitting_body (body ++ set_result stat.now)) }
{
    match stat {
        None => return put_error(body, &NO_NODE),
        Some(stat) => put_result(
            body,
            &done_header(RequestKind::SetData),
            &ExistsResponse { stat: *stat },
        ),
    }
}

// The result of a part that was done.
#[tactic(auto, unfolding(client_records::specs::Multi::multi_header, jute::specs::Format::number_bytes))]
fn put_done(body: Body, part: &Operation, outcome: &PartResult) -> Result<Option<Body>, NoMemory>
    ensures { IfOk result (λ more. more ≡ fitting_body (body ++ done_result part.now outcome.now)) }
{
    match part {
        Operation::Create(create) => {
            put_created(body, create.path.as_str(), create.asks_stat, &outcome.stat)
        }
        Operation::Delete(_) => body.with_record(&done_header(RequestKind::Delete)),
        Operation::SetData(_) => put_set(body, &outcome.stat),
        Operation::Check(_) => body.with_record(&done_header(RequestKind::Check)),
        Operation::Error(_) => put_error(body, &outcome.err),
    }
}

fn put_part(
    body: Body,
    failed: bool,
    part: &Operation,
    outcome: &PartResult,
) -> Result<Option<Body>, NoMemory>
    ensures { IfOk result (λ more. more ≡ fitting_body (body ++ part_result failed part.now outcome.now)) }
{
    if failed || outcome.err != 0 {
        return put_error(body, &outcome.err);
    }
    put_done(body, part, outcome)
}

// Appends the end of the results.
#[tactic(auto, unfolding(client_records::specs::Multi::multi_header, jute::specs::Format::number_bytes))]
fn with_end(body: Body) -> Result<Option<Body>, NoMemory>
    ensures { IfOk result (λ more. more ≡ fitting_body (body ++ end_of_results)) }
{
    body.with_record(&MultiHeader {
        kind: -1,
        done: true,
        err: -1,
    })
}

// The results of the parts, and the end.
fn put_parts(
    body: Body,
    failed: bool,
    parts: &[Operation],
    outcomes: &[PartResult],
) -> Result<Option<Body>, NoMemory>
    ensures { IfOk result (λ more. more ≡ fitting_body (body ++ results_of_parts failed parts.now outcomes.now)) }
{
    let mut so_far = body;
    let mut left = outcomes;
    for part in parts {
        let Some((outcome, others)) = left.split_first() else {
            return with_end(so_far);
        };
        let Some(more) = put_part(so_far, failed, part, outcome)? else {
            return Ok(None);
        };
        so_far = more;
        left = others;
    }
    with_end(so_far)
}

/// The body of the reply to a multi, from what came of its parts; None if it is too long for a frame. Fails only if an
/// allocation is refused.
pub(crate) fn multi_results(
    alloc: Global,
    parts: &[Operation],
    outcomes: &[PartResult],
) -> Result<Option<Body>, NoMemory>
    ensures { IfOk result (λ body. body ≡ fitting_body (multi_results parts.now outcomes.now)) }
{
    put_parts(Body::empty(alloc)?, has_error(parts), parts, outcomes)
}
