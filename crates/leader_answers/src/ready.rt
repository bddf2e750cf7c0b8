//! The requests in front of a connection's that wait for nothing any more.

ghost use Rattle.std.specs.Prelude.{◌≡◌};
ghost use Rattle.client_service.specs.Serve.{call_of};
ghost use Rattle.forwarding.specs.Pending.{take_ready};
ghost use Rattle.world.specs.Sending.{with_pending};
ghost use Rattle.leader_answers.specs.Answering.{serve_held, answer_ready, answer_front};
ghost use Rattle.world.specs.Results.{MakesStep};

use client_frames::{CallBody, read_call};
use client_service::answer_local;
use forwarding::{PENDING_LIMIT, Ready};
use read_processor::Look;
use std::alloc::Global;
use values::{NoMemory, ReadError};
use world::{Stage, World};

// Answers a frame that was held. Only requests that this server answers are held.
fn serve_held(alloc: Global, number: u64, stage: &mut Stage, frame: &[u8]) -> Result<(), NoMemory>
    ensures { MakesStep result stage.old (λ w. serve_held number w (call_of w frame.now)) stage.new }
{
    match read_call(alloc, stage.world.settings.dialect, frame) {
        Ok(call) => match &call.body {
            CallBody::Local(asked) => answer_local(alloc, number, stage, call.xid, asked),
            CallBody::Forward(_) | CallBody::Sync(_) | CallBody::Auth(_) => Ok(()),
        },
        Err(ReadError::NoMemory) => Err(NoMemory),
        Err(ReadError::Fault(_)) => stage.close_client(number),
    }
}

// Answers a request whose turn has come.
fn answer_ready(
    alloc: Global,
    number: u64,
    stage: &mut Stage,
    ready: &Ready,
) -> Result<(), NoMemory>
    ensures { MakesStep result stage.old (λ w. answer_ready number w ready.now) stage.new }
{
    match ready {
        Ready::SettledSync { xid, path } => {
            let seen = Look::of_path(alloc, path.as_str())?;
            stage.send_reply(number, *xid, seen)
        }
        Ready::HeldFrame(frame) => serve_held(alloc, number, stage, frame.as_slice()),
    }
}

// Takes the request in front of the connection's, if its turn has come.
fn take_ready(number: u64, world: &mut World) -> Option<Ready>
    ensures ready { result ≡ (take_ready world.old.clients.pending number).ready }
    ensures after { let taken = take_ready world.old.clients.pending number in
        world.new ≡ with_pending world.old taken.after }
{
    world.clients.pending.take_ready(number)
}

/// Answers the connection's requests whose turn has come.
///
/// Fails only if an allocation is refused; then a prefix of the outputs has been appended.
pub(crate) fn answer_front(alloc: Global, number: u64, stage: &mut Stage) -> Result<(), NoMemory>
    ensures { MakesStep result stage.old (answer_front number) stage.new }
{
    for _ in 0..PENDING_LIMIT {
        let Some(ready) = take_ready(number, &mut stage.world) else {
            return Ok(());
        };
        answer_ready(alloc, number, stage, &ready)?;
    }
    Ok(())
}
