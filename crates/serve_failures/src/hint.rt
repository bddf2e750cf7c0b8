//! What to do about a fault.

ghost use Rattle.std.specs.Prelude.{◌<◌, length};

use settings::Dialect;
use values::Fault;

/// What the one who runs the server may do about a fault in what a leader sent, if it follows leaders of this dialect.
pub fn fault_hint(fault: Fault, dialect: Dialect) -> &'static str
    ensures { 0 < length result.now }
{
    match fault {
        Fault::Short => "start again, and if it comes back keep a record of it",
        Fault::BadLength =>
            "look whether this is the quorum port of a server, and keep each write and multi below 4 MiB",
        Fault::BadText => match dialect {
            Dialect::Zk34 => "keep characters past U+FFFF out of paths and ids",
            Dialect::Zk38 => "keep characters past U+FFFF out of paths",
        },
        Fault::BadPath => "start again, and if it comes back keep a record of it",
        Fault::BadTxnType => match dialect {
            Dialect::Zk34 => "beside servers from 3.5 on, start it without --dialect 3.4",
            Dialect::Zk38 => "look whether the leader is later than 3.9, and keep a record of it",
        },
        Fault::TrailingBytes => match dialect {
            Dialect::Zk34 => "beside servers from 3.6 on, start it without --dialect 3.4",
            Dialect::Zk38 => "look whether the leader is later than 3.9, and keep a record of it",
        },
        Fault::OutOfOrder => "start again, and if it comes back keep a record of it",
        Fault::CommitMismatch => "start again, and if it comes back keep a record of it",
        Fault::CannotTruncate =>
            "start again: transactions that were seen here are lost, or that server lags",
        Fault::BadImage => "start again: the leader's next image may be right",
        Fault::EpochTooSmall => "look which server leads: this one has an epoch that is over",
        Fault::UnexpectedPacket => "look whether this is the quorum port of a server from 3.4 on",
    }
}
