//! The timeouts of the sessions that connections have here.

ghost use Rattle.std.specs.Prelude.{◌≡◌};
ghost use Rattle.observer_core.specs.Timeouts.{IsLeastTimeout};
ghost use Rattle.observer_core.specs.Inner.{lesser_timeout};

use world::World;

// The lesser of two timeouts, of which each may be missing.
fn lesser(one: Option<i32>, other: Option<i32>) -> Option<i32>
    ensures { result ≡ lesser_timeout one other }
{
    match (one, other) {
        (Some(one), Some(other)) => Some(one.min(other)),
        (one, None) => one,
        (None, other) => other,
    }
}

/// The least timeout, in milliseconds, of the sessions that connections have here, or None if there is none.
pub fn least_timeout(world: &World) -> Option<i32>
    ensures { IsLeastTimeout world.now result }
{
    let timeouts = world.replica.tree().sessions();
    let mut least = None;
    for session in world.clients.sessions.connected() {
        least = lesser(least, timeouts.get(*session));
    }
    least
}
