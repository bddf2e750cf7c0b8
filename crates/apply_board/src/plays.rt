//! The rule of a board's table, and what a seat learns from each step.
ghost use Rattle.apply_board.specs.Views.{opener_view, new_seat_view, with_seat_made, with_seat_joined, vacated_view};
ghost use Rattle.apply_board.specs.Board.{BoardHistory};
ghost use Rattle.apply_board.specs.Inner.Steps.{DrawsNumber, GivesResult};

use crate::group::{Group, Yields};
use crate::view::View;
use atomic_table::{Join, Play, Split, TableRule};
use std::snapshot::Snapshot;

pub struct Order;

impl<W: Yields<F>, F> TableRule<Option<Group<W, F>>, View<W, F>, Snapshot<Vec<W>>> for Order {
    ghost holds = { λ key. BoardHistory W.gives key.value.items };

    ghost first = { λ key. opener_view key.value.items };
}

pub(crate) struct Draw;

impl<W: Yields<F>, F> Play<Option<Group<W, F>>, View<W, F>> for Draw {
    ghost then = { DrawsNumber W.gives };
}

pub(crate) struct Give;

impl<W: Yields<F>, F> Play<Option<Group<W, F>>, View<W, F>> for Give {
    ghost then = { λ st old _ new. GivesResult W.gives st old new };
}

pub(crate) struct Another;

impl<W, F> Split<View<W, F>> for Another {
    ghost left = { with_seat_made };

    ghost right = { new_seat_view };
}

pub(crate) struct Gather;

impl<W, F> Join<View<W, F>> for Gather {
    ghost both = { with_seat_joined };

    ghost spent = { vacated_view };
}
