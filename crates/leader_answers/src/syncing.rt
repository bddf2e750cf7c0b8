//! A sync that the leader has done.

ghost use Rattle.std.specs.Prelude.{◌≡◌};
ghost use Rattle.forwarding.specs.Pending.{settle_sync};
ghost use Rattle.world.specs.Sending.{with_pending};
ghost use Rattle.leader_answers.specs.Answering.{answer_sync};
ghost use Rattle.world.specs.Results.{MakesStep};

use crate::ready::answer_front;
use forwarding::Settled;
use std::alloc::Global;
use values::NoMemory;
use world::{Stage, World};

// Settles the oldest sync of all connections.
fn settle_sync(world: &mut World) -> Settled
    ensures settled { result ≡ (settle_sync world.old.clients.pending).settled }
    ensures after { let settling = settle_sync world.old.clients.pending in
        world.new ≡ with_pending world.old settling.after }
{
    world.clients.pending.settle_sync()
}

/// The leader has done the oldest sync that was forwarded, of whichever connection: it is answered in its turn.
///
/// Fails only if an allocation is refused; then a prefix of the outputs has been appended.
pub fn answer_sync(alloc: Global, stage: &mut Stage) -> Result<(), NoMemory>
    ensures { MakesStep result stage.old answer_sync stage.new }
{
    match settle_sync(&mut stage.world) {
        Settled::NoSync | Settled::Gone => Ok(()),
        Settled::Of(number) => answer_front(alloc, number, stage),
    }
}
