//! The view of a seat: what it has done.
ghost use Rattle.std.specs.Prelude.{ℕ, List, Bool};
ghost use Rattle.std.specs.Borrow.{ftrue};
ghost use Rattle.std.specs.Coded.{coded_list, coded×, coded_ℕ};

use std::marker::{Model, PhantomData};

/// The view of a seat. Only contracts refer to it; no code has a value of it.
pub struct View<W, F> {
    marker: PhantomData<(W, F)>,
    // The works as they were when the board was opened.
    pub ghost works: { List W } by { coded_list W.code },
    // The numbers that the seat claimed, in order.
    pub ghost claimed: { List ℕ },
    // The results that it gave, each with its number, in order.
    pub ghost given: { List (ℕ × F) } by { coded_list (coded× coded_ℕ F.code) },
    // The results of the seats that were joined into this one.
    pub ghost gathered: { List (ℕ × F) } by { coded_list (coded× coded_ℕ F.code) },
    // The seat found every number claimed.
    pub ghost spent: { Bool },
    // The number of spent seats that were joined into this one.
    pub ghost gathered_marks: { ℕ },
    // The seat wasn't joined into another.
    pub ghost seated: { Bool },
    // In the opener's seat the number of seats made, itself included; 0 in any other seat.
    pub ghost made: { ℕ },
    // In the opener's seat the number of seats made that weren't joined yet.
    pub ghost unjoined: { ℕ },
}

impl<W, F> Model for View<W, F> {
    ghost also_owns = { λ _. ftrue };
}
