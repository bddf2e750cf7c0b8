//! What comes next in a leader's stream.

ghost use Rattle.std.specs.Prelude.{◌≡◌, ◌<◌, ◌^◌};
ghost use Rattle.quorum_packet.specs.Feed.{kept_len};
ghost use Rattle.quorum_packet.specs.Items.{phase_dialect};

use settings::Dialect;
use snapshot_codec::PartPhase;

/// What comes next in a leader's stream, and the dialect of the leader.
#[derive(Debug, Drop)]
pub enum Phase {
    /// A packet.
    Packets(Dialect),
    /// The next value of the image that follows a SNAP packet.
    Image(Dialect, PartPhase),
}

impl Phase {
    /// The dialect of the leader.
    pub(crate) fn dialect(&self) -> Dialect
        ensures { result ≡ phase_dialect self.now }
    {
        match self {
            Phase::Packets(dialect) | Phase::Image(dialect, _) => *dialect,
        }
    }

    /// The number of bytes kept of an incomplete part: those of a node's path.
    pub(crate) fn kept_len(&self) -> usize
        ensures len { result ≡ kept_len self.now }
        ensures fits { result < 2 ^ 63 }
    {
        match self {
            Phase::Image(_, PartPhase::Body(path)) => path.as_str().len(),
            _ => 0,
        }
    }
}
