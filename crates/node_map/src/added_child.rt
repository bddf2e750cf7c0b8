//! The result of adding a child's name to its parent.

use jute::StatPersisted;

/// The result of adding a child's name to its parent.
#[derive(Drop)]
pub enum AddedChild {
    /// There is no parent.
    NoParent,
    /// The parent has the name already.
    Taken,
    /// The parent has the name now; this was its stat before.
    Added(StatPersisted),
}
