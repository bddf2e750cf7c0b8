//! The clients that wait for a session: they are admitted or refused.

ghost use Rattle.std.specs.Prelude.{◌≡◌, Some, IfOk, OnOk};
ghost use Rattle.world.specs.Steps.{fold_steps};
ghost use Rattle.forwarding.specs.Pending.{take_connect};
ghost use Rattle.sessions.specs.Sessions.{close_connection, give_session};
ghost use Rattle.world.specs.Sending.{with_sessions, with_pending};
ghost use Rattle.client_service.specs.Serve.{is_unheard};
ghost use Rattle.leader_answers.specs.Answering.{serve_next, serve_admitted, admit_as, admit_client, refuse_client, answer_revalidated};
ghost use Rattle.world.specs.Results.{MakesStep};

use client_service::{CLIENT_FRAME_LIMIT, answer_connect, refuse_connect, serve_call};
use forwarding::{ConnectKind, PendingConnect, TakenConnect};
use sessions::Connected;
use std::alloc::Global;
use values::{Blob, NoMemory};
use world::{Stage, World};

// Serves a frame that was held until its connection had a session.
fn serve_next(
    alloc: Global,
    number: u64,
    session: i64,
    stage: &mut Stage,
    frame: &[u8],
) -> Result<(), NoMemory>
    ensures { MakesStep result stage.old (λ w. serve_next number session w frame.now) stage.new }
{
    if stage.world.clients.pending.is_full(number) || (CLIENT_FRAME_LIMIT as usize) < frame.len() {
        return stage.close_client(number);
    }
    serve_call(alloc, number, session, stage, frame)
}

// Serves the frames that were held, in order, as long as the connection is heard.
fn serve_frames(
    alloc: Global,
    number: u64,
    session: i64,
    stage: &mut Stage,
    frames: &[Blob],
) -> Result<(), NoMemory>
    ensures { MakesStep result stage.old
        (λ w. fold_steps (is_unheard number) (serve_next number session) w frames.now)
        stage.new }
{
    for frame in frames {
        if !stage.world.clients.is_heard(number) {
            return Ok(());
        }
        serve_next(alloc, number, session, stage, frame.as_slice())?;
    }
    Ok(())
}

// Makes the client's address an id of the connection that was admitted, and serves the frames that were held.
fn serve_admitted(
    alloc: Global,
    number: u64,
    session: i64,
    stage: &mut Stage,
    frames: &[Blob],
) -> Result<(), NoMemory>
    ensures { MakesStep result stage.old (serve_admitted number session frames.now) stage.new }
{
    stage.world.clients.show_address(alloc, number)?;
    serve_frames(alloc, number, session, stage, frames)
}

// Takes the connect of the connection, and the frames that are held after it.
fn take_connect(alloc: Global, number: u64, world: &mut World) -> Result<TakenConnect, NoMemory>
    ensures connect { let taken = take_connect world.old.clients.pending number in
        IfOk result (λ found. taken.connect ≡ found.connect) }
    ensures frames { let taken = take_connect world.old.clients.pending number in
        IfOk result (λ found. taken.frames ≡ found.frames) }
    ensures after { let taken = take_connect world.old.clients.pending number in
        OnOk result (world.new ≡ with_pending world.old taken.after) }
{
    world.clients.pending.take_connect(alloc, number)
}

// Gives the connection the session that it asked for.
fn give_session(
    alloc: Global,
    number: u64,
    world: &mut World,
    connect: &PendingConnect,
) -> Result<Connected, NoMemory>
    ensures answer { let left = close_connection world.old.clients.sessions number in
        let given = give_session left number connect.now.session connect.now.time_out in
        IfOk result (λ connected. given.connected ≡ connected) }
    ensures after { let left = close_connection world.old.clients.sessions number in
        let given = give_session left number connect.now.session connect.now.time_out in
        OnOk result (world.new ≡ with_sessions world.old given.after) }
{
    world.clients.sessions.close(number);
    world
        .clients
        .sessions
        .admit(alloc, number, connect.session, connect.time_out)
}

// Admits the client of a connect: it gets the session and is answered, its address is an id of the connection, and then
// the frames are served that were held.
#[tactic(auto, using(world::proofs::Steps::then_meets, world::proofs::Steps::first_stops))]
fn admit(
    alloc: Global,
    number: u64,
    stage: &mut Stage,
    connect: &PendingConnect,
    frames: &[Blob],
) -> Result<(), NoMemory>
    ensures { MakesStep result stage.old
        (λ w. admit_as number w frames.now (Some connect.now))
        stage.new }
{
    let connected = give_session(alloc, number, &mut stage.world, connect)?;
    answer_connect(alloc, number, connect.has_read_only, stage, &connected)?;
    serve_admitted(alloc, number, connect.session, stage, frames)
}

/// The connection gets the session that it waits for: the client is answered, its address is an id of the connection
/// where it counts, and then the frames are served that were held until then.
///
/// Fails only if an allocation is refused; then a prefix of the outputs has been appended.
pub(crate) fn admit_client(alloc: Global, number: u64, stage: &mut Stage) -> Result<(), NoMemory>
    ensures { MakesStep result stage.old (admit_client number) stage.new }
{
    let taken = take_connect(alloc, number, &mut stage.world)?;
    match &taken.connect {
        None => Ok(()),
        Some(connect) => admit(alloc, number, stage, connect, taken.frames.as_slice()),
    }
}

// The client of a connection that claims a session is refused.
fn refuse_client(alloc: Global, number: u64, stage: &mut Stage) -> Result<(), NoMemory>
    ensures { MakesStep result stage.old (refuse_client number) stage.new }
{
    match stage.world.clients.pending.waiting_connect(number) {
        None => return Ok(()),
        Some(connect) => refuse_connect(alloc, number, connect.has_read_only, stage),
    }
}

/// The leader has said whether a session lives that a client claims: the client is admitted, or refused. If no client
/// claims it any more, nothing is done.
///
/// Fails only if an allocation is refused; then a prefix of the outputs has been appended.
pub fn answer_revalidated(
    alloc: Global,
    stage: &mut Stage,
    session: i64,
    lives: bool,
) -> Result<(), NoMemory>
    ensures { MakesStep result stage.old (λ w. answer_revalidated w session lives) stage.new }
{
    let claims = stage
        .world
        .clients
        .pending
        .awaiting(session, ConnectKind::Claimed);
    let Some(number) = claims else {
        return Ok(());
    };
    if lives {
        return admit_client(alloc, number, stage);
    }
    refuse_client(alloc, number, stage)
}
