//! Laws of the effects of transactions. Each is the contract of a function that does nothing.

ghost use Rattle.node_map.specs.Agreement.{AreNamed};
ghost use Rattle.data_tree.specs.Meaning.{fresh_state};
ghost use Rattle.data_tree.specs.Naming.{PathsEndInNames, TransactionsKeepNames, NodesKeepNames};
ghost use Rattle.data_tree.specs.Cells.{TakenCellsMove, CellsComeToEmptyCells, TakenAndPutBackIsTheState};
ghost use Rattle.data_tree.specs.Commuting.{TransactionsKeepToTheirFootprints, DisjointTransactionsCommute, GroupsAreTheBatch, CellsPutBackAreTheBatch};
ghost use Rattle.data_tree.specs.Commuting.{TransactionsSetTheirTimeouts};

/// A transaction other than a closeSession leaves every cell outside its footprint. Its outcome and what it leaves in
/// its footprint depend on the cells there alone. The sessions get the timeouts of createSessions in order. Two such
/// transactions whose footprints have no path in common commute: cells and outcomes are the same in either order, and
/// so are the states where the order of their timeouts doesn't matter.
pub fn footprints()
    ensures keep { TransactionsKeepToTheirFootprints }
    ensures timeouts { TransactionsSetTheirTimeouts }
    ensures commute { DisjointTransactionsCommute }
{}

/// Such transactions may be put into groups whose footprints have no path in common. A group, applied separately and in
/// its order to cells that are as in the state, leaves in them what the whole batch leaves there, leaves all other
/// cells as they were, and has the outcomes that the batch has at the group's places. A state with the cells of each
/// group, the old cells elsewhere, and the timeouts set in order is the state after the batch.
pub fn groups()
    ensures cells { GroupsAreTheBatch }
    ensures state { CellsPutBackAreTheBatch }
{}

/// In the fresh tree each node is at a path and lists names of children. This is an invariant of transactions and of
/// `put_node`. The last name of a path may be a child's.
pub fn names()
    ensures paths { PathsEndInNames }
    ensures fresh { AreNamed fresh_state.nodes }
    ensures transactions { TransactionsKeepNames }
    ensures nodes { NodesKeepNames }
{}

/// Taking cells out of a state takes the cells at the given paths and leaves all others. Cells that are put in place of
/// empty ones are there afterwards. Cells that are taken and put back leave the state as it was.
pub fn moved_cells()
    ensures take { TakenCellsMove }
    ensures put { CellsComeToEmptyCells }
    ensures back { TakenAndPutBackIsTheState }
{}
