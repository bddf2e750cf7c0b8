//! Laws of calls.

ghost use Rattle.client_frames.specs.Laws.{ForwardedByType};
ghost use Rattle.client_frames.specs.Rows.{WorkedCalls};

/// The definitions, evaluated on frames that were worked out by hand.
pub fn worked_calls()
    ensures { WorkedCalls }
{}

/// A frame that is forwarded has the type of its write. No write has that of a check, of which a leader makes a
/// transaction that no learner of ZooKeeper can read.
pub fn forwarded_by_type()
    ensures { ForwardedByType }
{}
