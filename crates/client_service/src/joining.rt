//! How a client asks for a session, and is answered.

ghost use Rattle.std.specs.Prelude.{◌≡◌, None, true, false, IfOk, OnOk};
ghost use Rattle.std.specs.FinMap as finmap;
ghost use Rattle.world.specs.Sending.{with_sessions};
ghost use Rattle.client_service.specs.Serve.{send_connect_response, refuse_connect, answer_connect, ask_for_session, ask_about_session, close_holder, close_waiting, close_others, claim_session, claim_or_refuse, is_claim, is_new_session, ask_or_answer, finish_connect, may_connect, is_live, connect_result, connect_client, handle_connect, connect_or_hold};
ghost use Rattle.client_frames.specs.Connect.{connecting_in, session_request_of};
ghost use Rattle.sessions.specs.Sessions.{claimed_session, refusal_response};
ghost use Rattle.forwarding.specs.Pending.{is_idle, is_full, connecting_to};
ghost use Rattle.world.specs.Results.{MakesStep};

use crate::calls::hold;
use crate::session::touch_client;
use client_frames::{Connecting, answer_to_connect, read_connecting, session_request_of};
use client_records::ConnectRequest;
use forwarding::{ConnectKind, PendingConnect};
use learner_sync::{session_question, session_request};
use sessions::{Connected, PASSWORD_LEN, SessionResponse};
use std::alloc::Global;
use values::{NoMemory, ReadError};
use world::{Stage, World, send_to_leader};

// A client may connect if clients are served and it hasn't seen a zxid above the last one of this replica.
fn may_connect(serving: bool, world: &World, request: &ConnectRequest<'_>) -> bool
    ensures { result ≡ may_connect serving world.now request.now }
{
    serving && !(world.replica.learner().last_zxid() < request.last_zxid_seen)
}

// Sends the ConnectResponse; after a refusal the connection is closed.
fn send_connect_response(
    alloc: Global,
    number: u64,
    has_byte: bool,
    response: &SessionResponse,
    stage: &mut Stage,
) -> Result<(), NoMemory>
    ensures { MakesStep result stage.old (send_connect_response number has_byte response.now) stage.new }
{
    let frame = answer_to_connect(alloc, response, has_byte)?;
    if response.session_id == 0 {
        return stage.send_frame_last(number, Some(frame));
    }
    stage.send_frame(number, Some(frame))
}

/// Answers a connect: closes an older connection of the session, and then sends the response.
///
/// Fails only if an allocation is refused; then a prefix of the outputs has been appended.
#[tactic(auto, using(world::proofs::Steps::then_meets, world::proofs::Steps::first_stops))]
pub fn answer_connect(
    alloc: Global,
    number: u64,
    has_byte: bool,
    stage: &mut Stage,
    connected: &Connected,
) -> Result<(), NoMemory>
    ensures { MakesStep result stage.old (λ w. answer_connect number has_byte w connected.now) stage.new }
{
    stage.close_client_if_some(connected.older)?;
    send_connect_response(alloc, number, has_byte, &connected.response, stage)
}

fn refusal_response() -> SessionResponse
    ensures { result ≡ refusal_response }
{
    SessionResponse {
        time_out: 0,
        session_id: 0,
        password: [0; PASSWORD_LEN],
    }
}

/// Refuses a connect: sends the response without a session, and closes the connection.
///
/// Fails only if an allocation is refused; then a prefix of the outputs has been appended.
pub fn refuse_connect(
    alloc: Global,
    number: u64,
    has_byte: bool,
    stage: &mut Stage,
) -> Result<(), NoMemory>
    ensures { MakesStep result stage.old (refuse_connect number has_byte) stage.new }
{
    send_connect_response(alloc, number, has_byte, &refusal_response(), stage)
}

// Asks the leader for the session that the response names. The connect waits until the leader has created it.
fn ask_for_session(
    alloc: Global,
    number: u64,
    has_byte: bool,
    stage: &mut Stage,
    response: &SessionResponse,
) -> Result<(), NoMemory>
    requires { is_idle stage.old.after.clients.pending number ≡ true }
    ensures { MakesStep result stage.old (λ w. ask_for_session number has_byte w response.now) stage.new }
{
    let session = response.session_id;
    let time_out = response.time_out;
    if stage.world.clients.pending.connecting(session).is_some() {
        return refuse_connect(alloc, number, has_byte, stage);
    }
    let request = session_request(alloc, session, time_out)?;
    send_to_leader(alloc, &request, &mut stage.outputs)?;
    let connect = PendingConnect {
        kind: ConnectKind::New,
        session,
        time_out,
        has_read_only: has_byte,
    };
    let pending = &mut stage.world.clients.pending;
    pending.push_connect(alloc, number, connect)
}

// Whether the leader has the session that a client names, as far as it was followed.
fn is_live(request: &ConnectRequest<'_>, world: &World) -> bool
    ensures { result ≡ is_live request.now.session_id world.now }
{
    let sessions = world.replica.tree().sessions();
    sessions.get(request.session_id).is_some()
}

// Gives the connection the session that the request names, if it may have it, or names a new one.
fn connect(
    alloc: Global,
    number: u64,
    world: &mut World,
    request: &ConnectRequest<'_>,
) -> Result<Connected, NoMemory>
    requires { finmap.get world.old.clients.sessions.connections number ≡ None }
    ensures answer { IfOk result (λ connected. (connect_result number world.old request.now).connected ≡ connected) }
    ensures after { OnOk result
        (world.new ≡ with_sessions world.old (connect_result number world.old request.now).after) }
{
    let lives = is_live(request, world);
    let request = session_request_of(request);
    let sessions = &mut world.clients.sessions;
    sessions.connect(alloc, number, lives, &request)
}

// Whether the client wants a new session, and there is an id for it.
fn is_new_session(request: &ConnectRequest<'_>, response: &SessionResponse) -> bool
    ensures { result ≡ is_new_session request.now response.now }
{
    request.session_id == 0 && response.session_id != 0
}

// Asks the leader for the session if it is a new one, or answers the connect at once.
fn ask_or_answer(
    alloc: Global,
    number: u64,
    stage: &mut Stage,
    connecting: &Connecting<'_>,
    connected: &Connected,
) -> Result<(), NoMemory>
    requires { is_idle stage.old.after.clients.pending number ≡ true }
    ensures { MakesStep result stage.old (ask_or_answer number connecting.now connected.now) stage.new }
{
    let has_byte = connecting.has_byte;
    if is_new_session(&connecting.request, &connected.response) {
        return ask_for_session(alloc, number, has_byte, stage, &connected.response);
    }
    touch_client(number, &mut stage.world)?;
    answer_connect(alloc, number, has_byte, stage, connected)
}

// Asks the leader whether the session of the response lives. The connect waits for its answer.
fn ask_about_session(
    alloc: Global,
    number: u64,
    has_byte: bool,
    stage: &mut Stage,
    response: &SessionResponse,
) -> Result<(), NoMemory>
    requires idle { is_idle stage.old.after.clients.pending number ≡ true }
    requires free { connecting_to stage.old.after.clients.pending response.now.session_id ≡ None }
    ensures { MakesStep result stage.old (ask_about_session number has_byte response.now) stage.new }
{
    let session = response.session_id;
    let time_out = response.time_out;
    let question = session_question(alloc, session, time_out)?;
    send_to_leader(alloc, &question, &mut stage.outputs)?;
    let connect = PendingConnect {
        kind: ConnectKind::Claimed,
        session,
        time_out,
        has_read_only: has_byte,
    };
    let pending = &mut stage.world.clients.pending;
    pending.push_connect(alloc, number, connect)
}

// Closes the connection that has the session.
fn close_holder(stage: &mut Stage, session: i64) -> Result<(), NoMemory>
    ensures { MakesStep result stage.old (close_holder session) stage.new }
{
    let holder = stage.world.clients.sessions.connection(session);
    stage.close_client_if_some(holder)
}

// Closes the connection whose connect waits for the session.
fn close_waiting(stage: &mut Stage, session: i64) -> Result<(), NoMemory>
    ensures closes { MakesStep result stage.old (close_waiting session) stage.new }
    ensures free { OnOk result (connecting_to stage.new.after.clients.pending session ≡ None) }
{
    let waiting = stage.world.clients.pending.connecting(session);
    stage.close_client_if_some(waiting)
}

// Closes the connection that has the session, and then the one whose connect waits for it.
#[tactic(auto, using(world::proofs::Steps::then_meets, world::proofs::Steps::first_stops))]
fn close_others(stage: &mut Stage, session: i64) -> Result<(), NoMemory>
    ensures closes { MakesStep result stage.old (close_others session) stage.new }
    ensures free { OnOk result (connecting_to stage.new.after.clients.pending session ≡ None) }
{
    close_holder(stage, session)?;
    close_waiting(stage, session)
}

// Claims a session for a client that has its password: its other connections are closed, and the leader is asked.
#[tactic(auto, using(world::proofs::Steps::then_meets, world::proofs::Steps::first_stops))]
fn claim_session(
    alloc: Global,
    number: u64,
    has_byte: bool,
    stage: &mut Stage,
    response: &SessionResponse,
) -> Result<(), NoMemory>
    requires { is_idle stage.old.after.clients.pending number ≡ true }
    ensures { MakesStep result stage.old (λ w. claim_session number has_byte w response.now) stage.new }
{
    close_others(stage, response.session_id)?;
    ask_about_session(alloc, number, has_byte, stage, response)
}

// Claims the session that a client names, or refuses the client if the password is wrong.
fn claim_or_refuse(
    alloc: Global,
    number: u64,
    stage: &mut Stage,
    connecting: &Connecting<'_>,
) -> Result<(), NoMemory>
    requires { is_idle stage.old.after.clients.pending number ≡ true }
    ensures { MakesStep result stage.old
        (λ w. let asked = session_request_of connecting.now.request in
        claim_or_refuse number connecting.now.has_byte w (claimed_session w.clients.sessions asked))
        stage.new }
{
    let request = session_request_of(&connecting.request);
    match stage.world.clients.sessions.claimed(&request) {
        None => refuse_connect(alloc, number, connecting.has_byte, stage),
        Some(response) => { claim_session(alloc, number, connecting.has_byte, stage, &response) }
    }
}

// Whether the client claims a session, of which only the leader knows whether it lives.
fn is_claim(world: &World, request: &ConnectRequest<'_>) -> bool
    ensures { result ≡ is_claim world.now request.now }
{
    world.settings.dialect.reads().moved_sessions && request.session_id != 0
}

// Connects a client by what this server knows: it waits for a new session, or is answered at once.
fn connect_and_answer(
    alloc: Global,
    number: u64,
    stage: &mut Stage,
    connecting: &Connecting<'_>,
) -> Result<(), NoMemory>
    requires none { finmap.get stage.old.after.clients.sessions.connections number ≡ None }
    requires idle { is_idle stage.old.after.clients.pending number ≡ true }
    ensures { MakesStep result stage.old
        (λ w. finish_connect number w connecting.now (connect_result number w connecting.now.request))
        stage.new }
{
    let connected = connect(alloc, number, &mut stage.world, &connecting.request)?;
    ask_or_answer(alloc, number, stage, connecting, &connected)
}

// Connects a client that may connect: it claims the session that it names, or is connected by what this server knows.
fn connect_client(
    alloc: Global,
    number: u64,
    stage: &mut Stage,
    connecting: &Connecting<'_>,
) -> Result<(), NoMemory>
    requires none { finmap.get stage.old.after.clients.sessions.connections number ≡ None }
    requires idle { is_idle stage.old.after.clients.pending number ≡ true }
    ensures { MakesStep result stage.old (λ w. connect_client number w connecting.now) stage.new }
{
    if is_claim(&stage.world, &connecting.request) {
        return claim_or_refuse(alloc, number, stage, connecting);
    }
    connect_and_answer(alloc, number, stage, connecting)
}

// Serves the first frame of a connection: asks for the session that its ConnectRequest names, or closes it.
fn handle_connect(
    alloc: Global,
    serving: bool,
    number: u64,
    stage: &mut Stage,
    frame: &[u8],
) -> Result<(), NoMemory>
    requires none { finmap.get stage.old.after.clients.sessions.connections number ≡ None }
    requires idle { is_idle stage.old.after.clients.pending number ≡ true }
    ensures { MakesStep result stage.old (λ w. handle_connect serving number w (connecting_in frame.now)) stage.new }
{
    match read_connecting(alloc, frame) {
        Ok(connecting) => {
            if !may_connect(serving, &stage.world, &connecting.request) {
                return stage.close_client(number);
            }
            connect_client(alloc, number, stage, &connecting)
        }
        Err(ReadError::NoMemory) => Err(NoMemory),
        Err(ReadError::Fault(_)) => stage.close_client(number),
    }
}

/// Serves a frame of a connection that has no session. The first is a ConnectRequest; while that waits, the frames
/// after it are held. `idle` says whether the connection has no request that waits.
///
/// Fails only if an allocation is refused; then a prefix of the outputs has been appended.
pub(crate) fn connect_or_hold(
    alloc: Global,
    serving: bool,
    number: u64,
    idle: bool,
    stage: &mut Stage,
    frame: &[u8],
) -> Result<(), NoMemory>
    requires none { finmap.get stage.old.after.clients.sessions.connections number ≡ None }
    requires idle { idle ≡ is_idle stage.old.after.clients.pending number }
    requires room { is_full stage.old.after.clients.pending number ≡ false }
    ensures { MakesStep result stage.old
        (λ w. connect_or_hold serving number w frame.now)
        stage.new }
{
    if idle {
        return handle_connect(alloc, serving, number, stage, frame);
    }
    hold(alloc, number, &mut stage.world, frame)
}
