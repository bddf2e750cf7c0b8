//! Laws. Each is the contract of a function that does nothing.

ghost use Rattle.connection_loop.specs.Exchanges.{AnsweredIsCounted, FewAreUnanswered, FirstGoesAlone};

/// However frames and answers come, if no more answers come than are owed: frames that wait for the answers before them
/// are sent on only when all these have come; at most 1,024 frames are unanswered; and the first one goes alone.
pub fn exchanges()
    ensures counted { AnsweredIsCounted }
    ensures few { FewAreUnanswered }
    ensures first { FirstGoesAlone }
{}
