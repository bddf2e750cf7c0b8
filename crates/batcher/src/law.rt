//! Laws of cuts and groups. Each is the contract of a function that does nothing.

ghost use Rattle.batcher.specs.Laws.{GroupsAreApart, EachIsInAGroup, NoneIsABarrier, GroupsCoverTheirPaths, PlacesNameTheGroup, CutsAreLongest};
ghost use Rattle.batcher.specs.Rows.{CutsAreWorked};

/// No two groups have a path in common. Each transaction of a batch is in exactly one group, which has all of its
/// paths, and isn't a barrier. A group's places refer to its transactions in order.
pub fn groups()
    ensures apart { GroupsAreApart }
    ensures each { EachIsInAGroup }
    ensures barriers { NoneIsABarrier }
    ensures paths { GroupsCoverTheirPaths }
    ensures places { PlacesNameTheGroup }
{}

/// The batch cut from a list that no barrier begins is the longest prefix that is allowed, and it isn't empty.
pub fn longest_cuts()
    ensures { CutsAreLongest }
{}

/// Cuts that were worked out by hand.
pub fn worked_cuts()
    ensures { CutsAreWorked }
{}
