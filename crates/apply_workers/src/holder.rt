//! The holder of a group.

/// A group isn't claimed yet, is held by a worker, or was given back.
#[derive(Clone, Copy)]
pub enum Holder {
    Waiting,
    /// Held by the worker with this number.
    Held(usize),
    Home,
}
