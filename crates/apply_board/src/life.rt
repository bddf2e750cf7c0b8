//! Opening and closing a board.
ghost use Rattle.std.specs.Prelude.{◌≡◌, ◌<◌, ◌≤◌, [], true, map, length, IfOk, All, Some};
ghost use Rattle.std.specs.Vec.{vec_capacity};
ghost use Rattle.std.specs.Mem.Slots.{slots_items, slots_len, IsFull};
ghost use Rattle.apply_board.specs.declared.group.Group.TheVariants.{Unclaimed};
ghost use Rattle.apply_board.specs.Views.{opener_view};
ghost use Rattle.apply_board.specs.Board.{Moment};
ghost use Rattle.apply_board.specs.Seats.{IsIdle, AreAllSeats, all_given, any_spent, works_of};
ghost use Rattle.apply_board.specs.Closing.{IsSettled};
ghost use Rattle.apply_board.specs.Inner.Fields.{with_sittings};
ghost use Rattle.apply_board.specs.Inner.Slots.{AreFull};

use crate::group::{Group, Yields};
use crate::plays::Gather;
use crate::seat::{Board, Seat};
use crate::view::View;
use atomic_table::{Closed, Refused, Table};
use std::alloc::Global;
use std::snapshot::Snapshot;
use values::NoMemory;

// The slots of a new board: each has its work.
fn initial_slots<W: Drop, F: Drop>(
    alloc: Global,
    mut works: Vec<W>,
) -> Result<Vec<Option<Group<W, F>>>, NoMemory>
    ensures { IfOk result (λ v. v.items ≡ map (λ w. Some (Unclaimed w)) works.items) }
{
    let mut slots = Vec::with_capacity(alloc, works.len())?;
    works.reverse();
    while let Some(work) = works.pop() {
        slots.push_reserved(Some(Group::Unclaimed(work)));
    }
    Ok(slots)
}

// The contents of the slots, in order.
fn drain_slots<W: Drop, F: Drop>(
    mut closed: Closed<Option<Group<W, F>>, Global>,
    mut groups: Vec<Group<W, F>>,
) -> Vec<Group<W, F>>
    requires filled { IsFull closed.slots }
    requires count { length (slots_items closed.slots) ≡ slots_len closed.slots }
    requires full { AreFull (slots_items closed.slots) }
    requires empty { groups.items ≡ [] }
    requires room { slots_len closed.slots ≤ vec_capacity groups }
    ensures { map Some result.items ≡ slots_items closed.slots }
{
    let mut next = 0;
    while next < closed.slot_count() {
        let Some(group) = closed.take(next) else {
            unreachable!()
        };
        groups.push_reserved(group);
        next += 1;
    }
    closed.free();
    groups
}

impl<W: Yields<F> + Drop, F: Drop> Board<W, F> {
    /// A board with these works, each under its place in the list, and the opener's seat. It allocates everything that
    /// the other calls need. Fails with `NoMemory` if an allocation is refused, and drops the works.
    pub fn open(alloc: Global, works: Vec<W>) -> Result<(Board<W, F>, Seat<W, F>), NoMemory>
        ensures own { IfOk result (λ b. b.1.board ≡ b.0) }
        ensures opener { IfOk result (λ b. b.1.view ≡ opener_view works.items) }
        ensures history { IfOk result (λ b. Moment W.gives b.1.view) }
    {
        let count = works.len();
        let opened = Snapshot::of(&works);
        let words = Vec::from_elem(alloc, 0u64, count + 1)?;
        let groups = Vec::with_capacity(alloc, count)?;
        let slots = initial_slots(alloc, works)?;
        match Table::new(alloc, words.as_slice(), slots, &opened) {
            Ok((table, place)) => Ok((
                Board { table, groups },
                Seat {
                    place,
                    spent: false,
                    made: 1,
                },
            )),
            Err(Refused { slots: _ }) => Err(NoMemory),
        }
    }

    // Joins the other seats into the opener's seat.
    fn gather(
        &self,
        place: &mut atomic_table::Seat<Option<Group<W, F>>, View<W, F>>,
        mut others: Vec<Seat<W, F>>,
    )
        requires own { place.old.table_id ≡ self.now }
        requires opener { (0 < place.old.me.0.made) × (place.old.me.0.seated ≡ true) }
        requires others { All (λ s. (s.board ≡ self.now) × IsIdle s) others.items }
        ensures own { (place.new.table_id ≡ place.old.table_id) × (place.new.id ≡ place.old.id) }
        ensures view { place.new.me ≡ (with_sittings place.old.me.0 others.items, place.old.me.1) }
    {
        others.reverse();
        while let Some(other) = others.pop() {
            let Seat {
                place: from,
                spent: _,
                made: _,
            } = other;
            self.table.shared.join_seat::<Gather>(place, from);
        }
    }

    /// Each group once, by number: the result if one was given, or else the work as it was when the board was opened.
    pub fn close(self, mut seats: Vec<Seat<W, F>>) -> Vec<Group<W, F>>
        requires { AreAllSeats self seats.items }
        ensures { IsSettled W.gives (works_of seats.items) (all_given seats.items) (any_spent seats.items)
            result.items }
    {
        let Seat {
            mut place,
            spent: _,
            made: _,
        } = seats.remove(0);
        self.gather(&mut place, seats);
        let Board { table, groups } = self;
        drain_slots(table.close_with(place), groups)
    }
}
