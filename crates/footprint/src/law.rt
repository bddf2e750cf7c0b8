//! Laws of footprints. Each is the contract of a function that does nothing.

ghost use Rattle.footprint.specs.Laws.{PathsAreTheCells, PathsAscend};

/// A transaction that isn't a barrier lists exactly the paths whose cells it may touch, in strictly ascending order.
pub fn footprints()
    ensures paths { PathsAreTheCells }
    ensures ascend { PathsAscend }
{}
