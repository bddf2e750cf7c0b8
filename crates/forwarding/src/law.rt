//! Laws of what is pending. Each is the contract of a function that does nothing.

ghost use Rattle.forwarding.specs.Laws.{PendingAgreementIsKept, OtherQueuesStay, EmptinessIsTold, AnswersAreMatched, ConnectsAreFound, RequestsKeepOrder, SyncsKeepOrder, GoneConnectionsAreForgotten, NothingWaitsInVain};
ghost use Rattle.forwarding.specs.Rows.{WorkedRows};

/// Requests, syncs and waiting connects agree from the start on: a connect stands in front of its connection's
/// requests, each sync that isn't settled has its place in the list of syncs, no connection has more requests than
/// the limit, and the waiting connects are found by their sessions.
pub fn requests_and_syncs_agree()
    ensures { PendingAgreementIsKept }
{}

/// What one connection asks or is answered leaves the requests of every other, and its places in the list of syncs.
pub fn other_connections_stay()
    ensures { OtherQueuesStay }
{}

/// Where no connection has a request, each one's list is empty, and the other way round.
pub fn emptiness_is_told()
    ensures { EmptinessIsTold }
{}

/// A transaction answers at most one write, the oldest of its connection, of its xid and type.
pub fn answers_are_matched()
    ensures { AnswersAreMatched }
{}

/// A connect is found by its session and by the way in which it asks for it.
pub fn connects_are_found()
    ensures { ConnectsAreFound }
{}

/// Requests leave in the order in which they came, but for writes, which overtake. Syncs are settled in the order in
/// which they were forwarded, whichever connection each is of.
pub fn order_is_kept()
    ensures requests { RequestsKeepOrder }
    ensures syncs { SyncsKeepOrder }
{}

/// Of a connection that goes, or whose connect is taken, nothing waits any more.
pub fn gone_connections_are_forgotten()
    ensures { GoneConnectionsAreForgotten }
{}

/// What isn't ready waits for the leader.
pub fn nothing_waits_in_vain()
    ensures { NothingWaitsInVain }
{}

/// The definitions, evaluated on rows that were worked out by hand.
pub fn worked_rows()
    ensures { WorkedRows }
{}
