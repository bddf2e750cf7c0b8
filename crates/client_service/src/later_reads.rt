//! Answers to what later clients alone ask for, and to what can't be read.

ghost use Rattle.std.specs.Prelude.{◌≡◌};
ghost use Rattle.client_service.specs.LaterReads.{answer_multi_read, answer_ephemerals, answer_below, answer_who_am_i, answer_sasl, unreadable_error, answer_unreadable, unknown_zxid, answer_unknown};
ghost use Rattle.world.specs.Results.{MakesStep};

use client_records::codes::{MARSHALLING_ERROR, UNIMPLEMENTED};
use client_records::{PathAlone, ReadPart, SaslRequest};
use jute::codes::BAD_ARGUMENTS;
use read_processor::{
    Look, look_at_ephemerals, look_at_ids, look_at_parts, look_below, look_of_sasl,
};
use settings::Dialect;
use std::alloc::Global;
use values::NoMemory;
use world::Stage;

// The reply to a sasl has 0 in place of a zxid.
const SASL_REPLY_ZXID: i64 = 0;

/// Answers a multiRead: several reads, each with its result or its error.
pub(crate) fn answer_multi_read(
    alloc: Global,
    number: u64,
    stage: &mut Stage,
    xid: i32,
    parts: &[ReadPart<'_>],
) -> Result<(), NoMemory>
    ensures { MakesStep result stage.old (λ w. answer_multi_read number w xid parts.now) stage.new }
{
    let ids = stage.world.clients.sessions.ids(number);
    let seen = look_at_parts(alloc, stage.world.replica.tree(), ids, parts)?;
    stage.send_reply(number, xid, seen)
}

/// Answers a getEphemerals: the ephemeral nodes of the session whose paths begin with a prefix.
pub(crate) fn answer_ephemerals(
    alloc: Global,
    number: u64,
    stage: &mut Stage,
    xid: i32,
    asked: &PathAlone<'_>,
) -> Result<(), NoMemory>
    ensures { MakesStep result stage.old (λ w. answer_ephemerals number w xid asked.now.path) stage.new }
{
    let session = stage.world.clients.sessions.session(number).unwrap_or(0);
    let tree = stage.world.replica.tree();
    let seen = look_at_ephemerals(alloc, tree, session, &asked.path)?;
    stage.send_reply(number, xid, seen)
}

/// Answers a getAllChildrenNumber: the number of nodes below another.
pub(crate) fn answer_below(
    alloc: Global,
    number: u64,
    stage: &mut Stage,
    xid: i32,
    asked: &PathAlone<'_>,
) -> Result<(), NoMemory>
    ensures { MakesStep result stage.old (λ w. answer_below number w xid asked.now.path) stage.new }
{
    let ids = stage.world.clients.sessions.ids(number);
    let seen = look_below(alloc, stage.world.replica.tree(), ids, &asked.path)?;
    stage.send_reply(number, xid, seen)
}

/// Answers a whoAmI: the ids that the connection has shown.
pub(crate) fn answer_who_am_i(
    alloc: Global,
    number: u64,
    stage: &mut Stage,
    xid: i32,
) -> Result<(), NoMemory>
    ensures { MakesStep result stage.old (λ w. answer_who_am_i number w xid) stage.new }
{
    let seen = look_at_ids(alloc, stage.world.clients.sessions.ids(number))?;
    stage.send_reply(number, xid, seen)
}

/// Answers a sasl, or closes the connection if its token is null.
pub(crate) fn answer_sasl(
    alloc: Global,
    number: u64,
    stage: &mut Stage,
    xid: i32,
    asked: &SaslRequest<'_>,
) -> Result<(), NoMemory>
    ensures { MakesStep result stage.old (λ w. answer_sasl number w xid asked.now.token) stage.new }
{
    match &asked.token {
        None => stage.close_client(number),
        Some(_) => {
            let seen = look_of_sasl(alloc)?;
            stage.send_frame(number, seen.into_frame(xid, SASL_REPLY_ZXID))
        }
    }
}

// ---- what can't be read, and what isn't known

// The error of a request whose body can't be read.
fn unreadable_error(dialect: Dialect) -> i32
    ensures { result ≡ unreadable_error dialect }
{
    match dialect {
        Dialect::Zk34 => BAD_ARGUMENTS,
        Dialect::Zk38 => MARSHALLING_ERROR,
    }
}

/// Answers a request whose body can't be read.
pub(crate) fn answer_unreadable(
    alloc: Global,
    number: u64,
    stage: &mut Stage,
    xid: i32,
) -> Result<(), NoMemory>
    ensures { MakesStep result stage.old (λ w. answer_unreadable number w xid) stage.new }
{
    let error = unreadable_error(stage.world.settings.dialect);
    stage.answer_without_body(alloc, number, xid, error)
}

// The zxid in the reply to a request that isn't known.
fn unknown_zxid(dialect: Dialect, last_zxid: i64) -> i64
    ensures { result ≡ unknown_zxid dialect last_zxid }
{
    match dialect {
        Dialect::Zk34 => last_zxid,
        Dialect::Zk38 => -1,
    }
}

/// Answers a request that isn't known, and closes the connection.
pub(crate) fn answer_unknown(
    alloc: Global,
    number: u64,
    stage: &mut Stage,
    xid: i32,
) -> Result<(), NoMemory>
    ensures { MakesStep result stage.old (λ w. answer_unknown number w xid) stage.new }
{
    let seen = Look::without_body(alloc, UNIMPLEMENTED)?;
    let last_zxid = stage.world.replica.learner().last_zxid();
    let zxid = unknown_zxid(stage.world.settings.dialect, last_zxid);
    stage.send_frame_last(number, seen.into_frame(xid, zxid))
}
