//! Works, results, and the groups that a closed board returns.

/// A work whose result is an `F`.
pub trait Yields<F> {
    // Whether a result is of this work.
    ghost gives: { Self → F → Type 0 };
}

/// The state of a number when its board is closed.
#[derive(Drop)]
pub enum Group<W, F> {
    /// The result that was given.
    Home(F),
    /// The work as it was when the board was opened: no worker claimed it.
    Unclaimed(W),
}
