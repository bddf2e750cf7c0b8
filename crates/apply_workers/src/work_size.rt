//! How much work transactions are.

use batcher::SpreadThreshold;
use txn_codec::Txn;

/// Whether there are as many transactions, with as many bytes of data, as the threshold says.
pub(crate) fn is_worth_spreading(txns: &[Txn], threshold: &SpreadThreshold) -> bool {
    if txns.len() < threshold.transactions {
        return false;
    }
    let mut missing = threshold.bytes;
    for txn in txns {
        if missing == 0 {
            return true;
        }
        missing = missing.saturating_sub(txn.body.data_len());
    }
    missing == 0
}
