//! The ids and the session of a connection, and what is done when the session ends.

ghost use Rattle.std.specs.Prelude.{◌≡◌, OnOk};
ghost use Rattle.client_service.specs.Serve.{touch_client, show_id, expire_session};
ghost use Rattle.world.specs.Results.{MakesStep};

use client_records::AuthPacket;
use client_records::codes::{AUTH_FAILED, OK};
use read_processor::Look;
use std::alloc::Global;
use values::{Bytes, NoMemory, Str};
use world::{Stage, World};

// The reply to an auth packet has 0 in place of a zxid.
const AUTH_REPLY_ZXID: i64 = 0;

/// Touches the session of a connection, if it has one: the leader will be told that its client was heard. Fails only if
/// an allocation is refused.
pub(crate) fn touch_client(number: u64, world: &mut World) -> Result<(), NoMemory>
    ensures { OnOk result (world.new ≡ touch_client number world.old) }
{
    match world.clients.sessions.session(number) {
        None => return Ok(()),
        Some(session) => world.clients.pending.touch(session),
    }
}

/// Adds an id to a connection, or closes the connection if the id is refused.
pub(crate) fn show_id(
    alloc: Global,
    number: u64,
    stage: &mut Stage,
    xid: i32,
    packet: &AuthPacket<'_>,
) -> Result<(), NoMemory>
    ensures { MakesStep result stage.old (λ w. show_id number w xid packet.now) stage.new }
{
    let scheme = packet.scheme.as_ref().map(Str::as_str);
    let bytes = packet.auth.as_ref().map(Bytes::as_slice);
    let sessions = &mut stage.world.clients.sessions;
    if sessions.auth(alloc, number, scheme, bytes)? {
        let seen = Look::without_body(alloc, OK)?;
        stage.send_frame(number, seen.into_frame(xid, AUTH_REPLY_ZXID))
    } else {
        let seen = Look::without_body(alloc, AUTH_FAILED)?;
        stage.send_frame_last(number, seen.into_frame(xid, AUTH_REPLY_ZXID))
    }
}

/// Closes the connection of a session that has ended. An id that no connection has as its session is ignored.
///
/// Fails only if an allocation is refused; then a prefix of the outputs has been appended.
pub fn expire_session(session: &i64, stage: &mut Stage) -> Result<(), NoMemory>
    ensures { MakesStep result stage.old (λ w. expire_session w session.now) stage.new }
{
    let left = stage.world.clients.sessions.expire(*session);
    stage.close_client_if_some(left)
}
