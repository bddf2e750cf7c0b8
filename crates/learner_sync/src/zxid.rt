//! Zxids and the epochs in them.

ghost use Rattle.std.specs.Prelude.{◌≡◌};
ghost use Rattle.learner_sync.specs.Zxids.{epoch_of, first_zxid};

// The number of zxids in an epoch: the counter has 32 bits.
const COUNTERS: i64 = 4_294_967_296;

/// The epoch of a zxid: its upper 32 bits, signed.
pub(crate) fn epoch_of(zxid: i64) -> i32
    ensures { result ≡ epoch_of zxid }
{
    zxid.div_euclid(COUNTERS) as i32
}

/// The zxid at which an epoch begins: its counter is 0.
pub(crate) fn first_zxid(epoch: i32) -> i64
    ensures { result ≡ first_zxid epoch }
{
    i64::from(epoch) * COUNTERS
}
