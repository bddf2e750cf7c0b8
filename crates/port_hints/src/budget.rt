//! What a turn may spend on the messages of clients.

/// A bound on the messages of clients that a turn takes. The leader's are always taken.
pub trait Budget {
    /// Is told that the leader's messages were fed, and those of clients come next.
    fn begin(&mut self);

    /// Is told after the messages of a client's port were fed: how many bytes they have, and how many bytes the
    /// outputs for clients have. Returns whether that was costly. A port that was costly comes last in the next turns,
    /// until it is cheap again.
    fn spend(&mut self, taken: usize, answered: usize) -> bool;

    /// Whether no more messages of clients are to be taken in this turn.
    fn is_spent(&self) -> bool;

    /// Whether messages of ports that were costly may be taken now.
    fn takes_costly(&self) -> bool;
}

/// A budget that is never spent, and finds nothing costly.
#[derive(Clone, Copy)]
pub struct Unlimited;

impl Budget for Unlimited {
    fn begin(&mut self) {}

    fn spend(&mut self, _taken: usize, _answered: usize) -> bool {
        false
    }

    fn is_spent(&self) -> bool {
        false
    }

    fn takes_costly(&self) -> bool {
        true
    }
}
