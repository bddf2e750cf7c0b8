//! What a frame asks: it is read once, before anything is done about it.

ghost use Rattle.std.specs.Prelude.{◌≡◌, Ok, Some, IfOk, IfSome};
ghost use Rattle.client_service.specs.Serve.{call_of};
ghost use Rattle.client_service.specs.Inner.{session_call, read_of_session};

use client_frames::{Call, call_in};
use std::alloc::Global;
use values::{Fault, NoMemory};
use world::World;

/// What a frame asks in the session of its connection.
#[derive(Drop)]
pub(crate) struct SessionCall<'a> {
    pub session: i64,
    /// The call, or why the header can't be read.
    pub read: Result<Call<'a>, Fault>,
}

// The call of a frame, in the dialect of the clients.
fn call_of<'a>(
    alloc: Global,
    world: &World,
    frame: &'a [u8],
) -> Result<Result<Call<'a>, Fault>, NoMemory>
    ensures { IfOk result (λ read. read ≡ call_of world.now frame.now) }
{
    call_in(alloc, world.settings.dialect, frame)
}

/// What a frame asks, if its connection has a session: the frame of another isn't a call. Fails only if an allocation
/// is refused.
pub(crate) fn session_call<'a>(
    alloc: Global,
    number: u64,
    world: &World,
    frame: &'a [u8],
) -> Result<Option<SessionCall<'a>>, NoMemory>
    ensures { IfOk result (λ request. request ≡ session_call number world.now frame.now) }
{
    let Some(session) = world.clients.sessions.session(number) else {
        return Ok(None);
    };
    let read = call_of(alloc, world, frame)?;
    Ok(Some(SessionCall { session, read }))
}

/// The call, if its connection has a session and its header can be read.
pub(crate) fn readable_call<'a, 'b>(request: &'b Option<SessionCall<'a>>) -> Option<&'b Call<'a>>
    ensures { IfSome result (λ call. read_of_session request.now ≡ Some (Ok call.now)) }
{
    match request {
        None => return None,
        Some(asked) => match &asked.read {
            Ok(call) => Some(call),
            Err(_) => None,
        },
    }
}
