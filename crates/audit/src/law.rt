//! Laws of counts. Each is the contract of a function that does nothing.

ghost use Rattle.audit.specs.Laws.{CountsAreShown, DeletesGoInTurn};
ghost use Rattle.audit.specs.Rows.{CountsAreWorked};

/// After a clean log the count of each node is the cversion and the pzxid of its Stat.
pub fn counts_are_shown()
    ensures { CountsAreShown }
{}

/// If each session's ephemeral nodes are at paths other than "/", a closeSession is clean exactly if each of its
/// deletes, in turn, is of a node without children.
pub fn deletes_go_in_turn()
    ensures { DeletesGoInTurn }
{}

/// Counts that were worked out by hand.
pub fn worked_counts()
    ensures { CountsAreWorked }
{}
