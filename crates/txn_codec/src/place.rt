//! The place of an operation.

/// The place of an operation.
#[derive(Clone, Copy, Debug)]
pub enum Place {
    /// After a transaction's header.
    Alone,
    /// In a part of a multi.
    Part,
}
