//! The least work that is spread over threads.

/// Work that is below any of these measures is done on the calling thread, where starting threads would cost more than
/// they save. No result depends on it.
#[derive(Clone, Copy)]
pub struct SpreadThreshold {
    /// The number of transactions of a batch.
    pub transactions: usize,
    /// The bytes of data in a batch's transactions.
    pub bytes: usize,
    /// The number of reads that are answered together.
    pub reads: usize,
}

impl SpreadThreshold {
    /// All work is spread, however small.
    pub const ALWAYS: SpreadThreshold = SpreadThreshold {
        transactions: 0,
        bytes: 0,
        reads: 0,
    };
}
