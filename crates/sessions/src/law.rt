//! Laws of sessions. Each is the contract of a function that does nothing.

ghost use Rattle.sessions.specs.Agreement.{SessionsAreApart, AgreementIsKept, NewIdsAreNew, EndedSessionsAreRefused, OtherConnectionsStay, ResponsesNameSessions};
ghost use Rattle.sessions.specs.Rows.{JavaPasswords};

/// Sessions and connections agree from the start on. Where they do, no two connections have one session. The response
/// to a connect tells whether the connection has a session now.
pub fn sessions_and_connections_agree()
    ensures kept { AgreementIsKept }
    ensures apart { SessionsAreApart }
    ensures told { ResponsesNameSessions }
{}

/// A step of one connection leaves the session and the ids of every other one, except of the one that it returns to be
/// closed.
pub fn others_stay()
    ensures { OtherConnectionsStay }
{}

/// A session that has ended is never valid again: the tree doesn't have it, and no id is given out twice.
pub fn ended_sessions_are_refused()
    ensures refused { EndedSessionsAreRefused }
    ensures new { NewIdsAreNew }
{}

/// The passwords of `Passwords::Java` are those that servers of ZooKeeper gave to these sessions.
pub fn java_passwords_are_zookeepers()
    ensures { JavaPasswords }
{}
