//! The footprint of a transaction.

use values::{Listed, Text};

/// The paths that a transaction may touch.
#[derive(Debug, Drop, PartialEq, Eq)]
pub enum Footprint {
    /// The paths depend on the state, or are too many: the transaction is applied alone.
    Barrier,
    /// The paths, each once, in ascending order of their bytes; there may be none.
    Paths(Listed<Text>),
}
