//! A board, and its seats.

use crate::group::{Group, Yields};
use crate::plays::Order;
use crate::view::View;
use atomic_table::Table;
use std::alloc::Global;
use std::marker::Model;
use std::snapshot::Snapshot;

/// Works in numbered places. Its model is an identity that no other board has.
#[derive(Drop)]
pub struct Board<W: Yields<F>, F> {
    pub(crate) table: Table<Option<Group<W, F>>, View<W, F>, Snapshot<Vec<W>>, Order, Global>,
    // Capacity for the result of `close`.
    pub(crate) groups: Vec<Group<W, F>>,
}

impl<W: Yields<F>, F> Model for Board<W, F> {
    ghost use Rattle.std.specs.Vec.{vec_capacity};
    ghost use Rattle.atomic_table.specs.Seated.{TableId, table_id_coded};
    ghost use Rattle.apply_board.specs.Inner.Fields.{IsRoomy};

    ghost Value = { TableId };

    ghost coded = { table_id_coded };

    ghost view = { λ b. b.table.shared.table_id };

    ghost invariant = { λ b. IsRoomy b.table.shared.table_id b.groups.items (vec_capacity b.groups) };
}

/// A worker's place at a board. Its model is the board's identity and the seat's view.
#[derive(Drop)]
pub struct Seat<W: Yields<F>, F> {
    pub(crate) place: atomic_table::Seat<Option<Group<W, F>>, View<W, F>>,
    // The seat found every number claimed.
    pub(crate) spent: bool,
    // In the opener's seat the number of seats made, itself included; 0 in any other seat.
    pub(crate) made: u64,
}

impl<W: Yields<F>, F> Model for Seat<W, F> {
    ghost use Rattle.apply_board.specs.Sitting.{Sitting};
    ghost use Rattle.apply_board.specs.Inner.Fields.{IsSitting};

    ghost Value = { Sitting W F };

    ghost view = { λ s. record { board = s.place.table_id; view = s.place.me.0 } };

    ghost invariant = { λ s. IsSitting W.gives s.place.table_id.slots s.place.me.0 s.place.me.1 s.spent s.made };
}
