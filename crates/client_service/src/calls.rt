//! What a client's request does: it is answered here, held until its turn, or forwarded to the leader.

ghost use Rattle.std.specs.Prelude.{◌≡◌, ◌≤◌, length, false, OnOk};
ghost use Rattle.forwarding.specs.Pending.{is_idle, is_full, hold_frame};
ghost use Rattle.world.specs.Sending.{with_pending};
ghost use Rattle.client_service.specs.Serve.{client_frame_limit, leave_if_closing, handle_local, handle_or_hold, forward_frame, answer_auth, handle_call};
ghost use Rattle.world.specs.Results.{MakesStep};

use crate::later_reads::{
    answer_below, answer_ephemerals, answer_multi_read, answer_sasl, answer_unknown,
    answer_unreadable, answer_who_am_i,
};
use crate::reading::{
    answer_add_watch, answer_check_watches, answer_remove_watches, answer_renewal,
    answer_renewal_of_all, answer_request,
};
use crate::session::show_id;
use client_frames::{Call, CallBody, LocalCall};
use client_records::AuthPacket;
use client_records::codes::{NOT_READ_ONLY, OK, PING_XID, UNIMPLEMENTED};
use forwarding::WriteKind;
use jute::codes::BAD_ARGUMENTS;
use learner_sync::request_of;
use std::alloc::Global;
use values::{Blob, NoMemory, Text};
use world::{Stage, World, send_to_leader};

/// Answers a request at the present state.
///
/// Fails only if an allocation is refused; then a prefix of the outputs has been appended.
pub fn answer_local(
    alloc: Global,
    number: u64,
    stage: &mut Stage,
    xid: i32,
    call: &LocalCall<'_>,
) -> Result<(), NoMemory>
    ensures { MakesStep result stage.old (λ w. handle_local number w xid call.now) stage.new }
{
    match call {
        LocalCall::Read(asked) => answer_request(alloc, number, stage, xid, asked),
        LocalCall::SetWatches(asked) => answer_renewal(alloc, number, stage, xid, asked.get()),
        LocalCall::SetWatches2(asked) => answer_renewal_of_all(
            alloc,
            number,
            stage,
            xid,
            asked.get(),
        ),
        LocalCall::AddWatch(asked) => answer_add_watch(alloc, number, stage, xid, asked),
        LocalCall::CheckWatches(asked) => answer_check_watches(alloc, number, stage, xid, asked),
        LocalCall::RemoveWatches(asked) => answer_remove_watches(alloc, number, stage, xid, asked),
        LocalCall::MultiRead(parts) => answer_multi_read(
            alloc,
            number,
            stage,
            xid,
            parts.as_slice(),
        ),
        LocalCall::GetEphemerals(asked) => answer_ephemerals(alloc, number, stage, xid, asked),
        LocalCall::GetAllChildrenNumber(asked) => answer_below(alloc, number, stage, xid, asked),
        LocalCall::WhoAmI => answer_who_am_i(alloc, number, stage, xid),
        LocalCall::Sasl(asked) => answer_sasl(alloc, number, stage, xid, asked),
        LocalCall::InvalidPath => stage.answer_without_body(alloc, number, xid, BAD_ARGUMENTS),
        LocalCall::Unreadable => answer_unreadable(alloc, number, stage, xid),
        LocalCall::Ping => stage.answer_without_body(alloc, number, PING_XID, OK),
        LocalCall::Refused => stage.answer_without_body(alloc, number, xid, NOT_READ_ONLY),
        LocalCall::Unknown => answer_unknown(alloc, number, stage, xid),
    }
}

/// Holds a frame until the connection's earlier requests are answered.
pub fn hold(alloc: Global, number: u64, world: &mut World, frame: &[u8]) -> Result<(), NoMemory>
    requires { is_full world.old.clients.pending number ≡ false }
    ensures { OnOk result
        (world.new ≡ with_pending world.old (hold_frame world.old.clients.pending number frame.now)) }
{
    let frame = Blob::new(alloc, frame)?;
    world.clients.pending.hold(alloc, number, frame)
}

// Answers a request in its turn: it is held while an earlier one of its connection waits.
fn answer_or_hold(
    alloc: Global,
    number: u64,
    idle: bool,
    stage: &mut Stage,
    frame: &[u8],
    xid: i32,
    call: &LocalCall<'_>,
) -> Result<(), NoMemory>
    requires idle { idle ≡ is_idle stage.old.after.clients.pending number }
    requires room { is_full stage.old.after.clients.pending number ≡ false }
    ensures { MakesStep result stage.old (λ w. handle_or_hold number w frame.now xid call.now) stage.new }
{
    if idle {
        return answer_local(alloc, number, stage, xid, call);
    }
    hold(alloc, number, &mut stage.world, frame)
}

// Sends a frame to the leader as it came, with the ids of its connection.
fn forward(
    alloc: Global,
    number: u64,
    session: i64,
    stage: &mut Stage,
    frame: &[u8],
) -> Result<(), NoMemory>
    requires { length frame.now ≤ client_frame_limit }
    ensures { MakesStep result stage.old (λ w. forward_frame number session w frame.now w.clients.pending) stage.new }
{
    let ids = stage.world.clients.sessions.ids(number);
    let request = request_of(alloc, session, frame, ids)?;
    send_to_leader(alloc, &request, &mut stage.outputs)
}

// After a closeSession nothing more is taken of the connection.
fn leave_if_closing(number: u64, kind: WriteKind, world: &mut World)
    ensures { world.new ≡ leave_if_closing number kind world.old }
{
    if matches!(kind, WriteKind::CloseSession) {
        world.clients.connections.leave(number);
    }
}

// Forwards a write, which waits for its transaction.
fn forward_write(
    alloc: Global,
    number: u64,
    session: i64,
    stage: &mut Stage,
    frame: &[u8],
    xid: i32,
    kind: WriteKind,
) -> Result<(), NoMemory>
    requires fits { length frame.now ≤ client_frame_limit }
    requires room { is_full stage.old.after.clients.pending number ≡ false }
    ensures { MakesStep result stage.old
        (λ w. handle_call number session w frame.now xid (CallBody.Forward kind))
        stage.new }
{
    leave_if_closing(number, kind, &mut stage.world);
    forward(alloc, number, session, stage, frame)?;
    let pending = &mut stage.world.clients.pending;
    pending.push_write(alloc, number, xid, kind)
}

// Forwards a sync, which waits until the leader has done it.
fn forward_sync(
    alloc: Global,
    number: u64,
    session: i64,
    stage: &mut Stage,
    frame: &[u8],
    xid: i32,
    path: &str,
) -> Result<(), NoMemory>
    requires fits { length frame.now ≤ client_frame_limit }
    requires room { is_full stage.old.after.clients.pending number ≡ false }
    ensures { MakesStep result stage.old
        (λ w. handle_call number session w frame.now xid (CallBody.Sync path.now))
        stage.new }
{
    let path = Text::new(alloc, path)?;
    forward(alloc, number, session, stage, frame)?;
    let pending = &mut stage.world.clients.pending;
    pending.push_sync(alloc, number, xid, path)
}

// Adds an id, or says that the body can't be read.
fn answer_auth(
    alloc: Global,
    number: u64,
    stage: &mut Stage,
    xid: i32,
    packet: &Option<AuthPacket<'_>>,
) -> Result<(), NoMemory>
    ensures { MakesStep result stage.old (λ w. answer_auth number w xid packet.now) stage.new }
{
    match packet {
        None => answer_unreadable(alloc, number, stage, xid),
        Some(packet) => show_id(alloc, number, stage, xid, packet),
    }
}

/// Answers, holds or forwards a request of a connection that has the session. `idle` says whether the connection has no
/// request that waits; `frame` is the frame that the request was read from.
///
/// Fails only if an allocation is refused; then a prefix of the outputs has been appended.
pub(crate) fn answer_call(
    alloc: Global,
    number: u64,
    idle: bool,
    session: i64,
    stage: &mut Stage,
    frame: &[u8],
    call: &Call<'_>,
) -> Result<(), NoMemory>
    requires fits { length frame.now ≤ client_frame_limit }
    requires idle { idle ≡ is_idle stage.old.after.clients.pending number }
    requires room { is_full stage.old.after.clients.pending number ≡ false }
    ensures { MakesStep result stage.old
        (λ w. handle_call number session w frame.now call.now.xid call.now.body)
        stage.new }
{
    let xid = call.xid;
    match &call.body {
        CallBody::Forward(kind) => forward_write(alloc, number, session, stage, frame, xid, *kind),
        CallBody::Sync(path) => forward_sync(
            alloc,
            number,
            session,
            stage,
            frame,
            xid,
            path.as_str(),
        ),
        CallBody::Auth(packet) => answer_auth(alloc, number, stage, xid, packet),
        CallBody::Local(call) => answer_or_hold(alloc, number, idle, stage, frame, xid, call),
    }
}
