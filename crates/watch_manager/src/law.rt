//! Laws of firing. Each is the contract of a function that does nothing.

ghost use Rattle.watch_manager.specs.Laws.{ConnectionsAreToldOnce, OnlyWatchersAreTold, NoEventKeepsWatches, DroppedWatchesNothing, OthersKeepWatches, RemovedIsGone, LastingWatchesStay, RecursiveWatchersAreTold, PartsAscend};
ghost use Rattle.watch_manager.specs.Rows.{WorkedRows};

/// A change sends a connection at most one event, and only connections that watch something get one. Where no event is
/// sent, no watch is used up. Neither firing nor dropping a connection adds a watch, and a connection that was dropped
/// watches nothing. What one connection does leaves the watches of every other, and what it removes is gone. No change
/// uses up a lasting watch, and a recursive one tells its connection of each creation, deletion and change of data on its
/// path or below it. Within a part the connections are told in ascending number.
pub fn firing()
    ensures once { ConnectionsAreToldOnce }
    ensures watchers { OnlyWatchersAreTold }
    ensures silent { NoEventKeepsWatches }
    ensures dropped { DroppedWatchesNothing }
    ensures others { OthersKeepWatches }
    ensures removed { RemovedIsGone }
    ensures stay { LastingWatchesStay }
    ensures told { RecursiveWatchersAreTold }
    ensures ascending { PartsAscend }
{}

/// The definitions, evaluated on rows that were worked out by hand.
pub fn worked_rows()
    ensures { WorkedRows }
{}
