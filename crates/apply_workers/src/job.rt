//! The loop of one worker.
ghost use Rattle.std.specs.Prelude.{◌≡◌};
ghost use Rattle.apply_board.specs.Seats.{IsIdle};
ghost use Rattle.apply_workers.specs.Working.{IsWorked};

use crate::gate::Gate;
use apply_board::{Board, Seat, Yields};

/// A work that can be done.
pub trait Job<F>: Yields<F> {
    fn apply(self) -> F
        ensures { Self.gives self result };
}

/// Claims, passes the gate, does the work and gives the result back, until every number is claimed.
pub fn work<W: Job<F> + Drop, F: Drop, G: Gate>(
    board: &Board<W, F>,
    mut seat: Seat<W, F>,
    worker: usize,
    gate: &G,
) -> Seat<W, F>
    requires own { seat.board ≡ board.now }
    requires idle { IsIdle seat }
    ensures { IsWorked seat result }
{
    while let Some((claim, work)) = board.claim(&mut seat) {
        gate.pass(worker, claim.number);
        let finished = work.apply();
        board.give(&mut seat, claim, finished);
    }
    seat
}
