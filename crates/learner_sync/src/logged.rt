//! The log: transactions that were applied, in order.

ghost use Rattle.std.specs.Prelude.{◌≡◌};
ghost use Rattle.learner_sync.specs.Learn.{txns_up_to, zxid_after};

use txn_codec::Txn;

/// The zxid of the log's last transaction, or the given zxid if the log is empty.
pub(crate) fn zxid_after(zxid: i64, log: &[Txn]) -> i64
    ensures { result ≡ zxid_after zxid log.now }
{
    match log.last() {
        None => return zxid,
        Some(txn) => return txn.header.zxid,
    }
}

/// Removes the transactions above a zxid.
pub(crate) fn keep_up_to(log: &mut Vec<Txn>, zxid: i64)
    ensures { log.new.items ≡ txns_up_to zxid log.old.items }
{
    log.retain(|txn| txn.header.zxid <= zxid);
}
