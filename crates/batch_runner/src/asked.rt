//! The loads of the command line.

/// The kind of transactions.
#[derive(Clone, Copy)]
pub enum Kind {
    /// Creates of nodes below each parent in turn.
    Creates,
    /// setDatas of each parent in turn.
    Sets,
    /// setDatas of nodes below each parent in turn.
    Leaves,
    /// Multis of such setDatas, each of the nodes below one parent.
    Multis,
}

/// The size of a load.
#[derive(Clone, Copy)]
pub struct Load {
    pub kind: Kind,
    /// The number of transactions.
    pub count: u32,
    /// The length of the data in each of them, in bytes.
    pub bytes: usize,
    /// How often all of them are applied.
    pub times: u32,
}

/// The kind that a word names.
pub fn kind_of(word: &str) -> Option<Kind> {
    if word == "creates" {
        return Some(Kind::Creates);
    }
    if word == "sets" {
        return Some(Kind::Sets);
    }
    if word == "leaves" {
        return Some(Kind::Leaves);
    }
    if word == "multis" {
        return Some(Kind::Multis);
    }
    None
}
