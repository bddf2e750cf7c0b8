//! The calls of a worker: claim, give, and make a seat.
ghost use Rattle.std.specs.Prelude.{◌≡◌, ◌↔◌, ◌<◌, ◌≤◌, true, false, IfSome, IfNone, IsNone, All};
ghost use mathlib.Core.Option.{some};
ghost use lib.ListN.{get_elem?};
ghost use Rattle.apply_board.specs.Views.{new_seat_view, with_seat_made, with_claim, with_spent, with_result};
ghost use Rattle.apply_board.specs.Board.{Moment};
ghost use Rattle.apply_board.specs.Seats.{IsIdle, HoldsClaim, IsOpener};

use crate::group::{Group, Yields};
use crate::plays::{Another, Draw, Give};
use crate::seat::{Board, Seat};

const MOST_SEATS: u64 = 64;

/// A number that a seat has claimed. It is given back with the result of its work.
#[derive(Drop)]
pub struct Claim {
    pub number: usize,
}

impl<W: Yields<F> + Drop, F: Drop> Board<W, F> {
    /// Claims the next number and returns it with its work. Returns `None` if every number was claimed; the seat is
    /// spent then, and gets `None` from then on.
    pub fn claim(&self, seat: &mut Seat<W, F>) -> Option<(Claim, W)>
        requires own { seat.old.board ≡ self.now }
        requires idle { IsIdle seat.old }
        ensures own { seat.new.board ≡ seat.old.board }
        ensures claimed { IfSome result (λ c. seat.new.view ≡ with_claim seat.old.view c.0.number) }
        ensures holds { IfSome result (λ c. HoldsClaim seat.new c.0.number) }
        ensures above { IfSome result (λ c. All (λ k. k < c.0.number) seat.old.view.claimed) }
        ensures work { IfSome result (λ c. get_elem? seat.old.view.works c.0.number ≡ some c.1) }
        ensures none { IfNone result (seat.new.view ≡ with_spent seat.old.view) }
        ensures spent { seat.old.view.spent ≡ true → IsNone result }
        ensures history { Moment W.gives seat.new.view }
    {
        if seat.spent {
            return None;
        }
        let shared = &self.table.shared;
        let found = shared.fetch_add::<Draw>(&mut seat.place, 0, 1);
        if found >= self.table.slot_count() as u64 {
            seat.spent = true;
            return None;
        }
        let number = found as usize;
        let Some(Group::Unclaimed(work)) = shared.exchange(&mut seat.place, number, None) else {
            unreachable!()
        };
        Some((Claim { number }, work))
    }

    /// Stores the result of a claim's work under its number.
    pub fn give(&self, seat: &mut Seat<W, F>, claim: Claim, finished: F)
        requires own { seat.old.board ≡ self.now }
        requires holds { HoldsClaim seat.old claim.number }
        requires fits { (w : W) → get_elem? seat.old.view.works claim.number ≡ some w → W.gives w finished }
        ensures own { seat.new.board ≡ seat.old.board }
        ensures given { seat.new.view ≡ with_result seat.old.view claim.number finished }
        ensures idle { IsIdle seat.new }
        ensures history { Moment W.gives seat.new.view }
    {
        let Claim { number } = claim;
        let shared = &self.table.shared;
        let None = shared.exchange(&mut seat.place, number, Some(Group::Home(finished))) else {
            unreachable!()
        };
        shared.store::<Give>(&mut seat.place, number + 1, 1);
    }

    /// Makes one more seat; the opener's seat counts it. Returns `None` only if 64 were made.
    pub fn seat(&self, opener: &mut Seat<W, F>) -> Option<Seat<W, F>>
        requires own { opener.old.board ≡ self.now }
        requires opener { IsOpener opener.old }
        ensures own { opener.new.board ≡ opener.old.board }
        ensures newcomer { IfSome result (λ s. (s.board ≡ opener.old.board) × (s.view ≡ new_seat_view opener.old.view)) }
        ensures counted { IfSome result (λ _. opener.new.view ≡ with_seat_made opener.old.view) }
        ensures none { IfNone result (opener.new.view ≡ opener.old.view) }
        ensures full { IsNone result ↔ (64 ≤ opener.old.view.made) }
        ensures history { IfSome result (λ s. Moment W.gives s.view) }
        ensures opener_history { Moment W.gives opener.new.view }
    {
        if opener.made >= MOST_SEATS {
            return None;
        }
        let place = self.table.shared.split_seat::<Another>(&mut opener.place);
        opener.made += 1;
        Some(Seat {
            place,
            spent: false,
            made: 0,
        })
    }
}
