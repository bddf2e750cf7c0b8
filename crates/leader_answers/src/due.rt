//! Whom a transaction answers.

ghost use Rattle.std.specs.Prelude.{◌≡◌};
ghost use Rattle.leader_answers.specs.Answering.{is_due, answer_due, connection_with, reply_of};

use forwarding::{AnsweredWrite, ConnectKind};
use txn_codec::{SessionChange, Txn};
use world::Clients;

/// What a transaction that was applied brings to a client of this observer.
#[derive(Clone, Copy)]
pub enum Due {
    Nothing,
    /// The session that this connection asked for was created.
    Admission(u64),
    /// The session that this connection has, or claims, has ended.
    Ending(u64),
    /// The oldest write of this connection is answered.
    Reply(u64, AnsweredWrite),
}

impl Due {
    /// Whether a client is answered.
    pub fn answers(self) -> bool
        ensures { result ≡ is_due self }
    {
        !matches!(self, Due::Nothing)
    }
}

// The answer to the oldest write of the connection that has the transaction's session, if it is this one.
fn reply_of(clients: &Clients, txn: &Txn, connection: Option<u64>) -> Due
    ensures { result ≡ reply_of clients.now txn.now connection }
{
    let Some(number) = connection else {
        return Due::Nothing;
    };
    let kind = txn.body.kind().code();
    match clients
        .pending
        .answered_write(number, txn.header.cxid, kind)
    {
        None => return Due::Nothing,
        Some(write) => Due::Reply(number, write),
    }
}

// The connection that has the session, or the one that claims it.
fn connection_with(clients: &Clients, session: i64) -> Option<u64>
    ensures { result ≡ connection_with clients.now session }
{
    clients
        .sessions
        .connection(session)
        .or(clients.pending.awaiting(session, ConnectKind::Claimed))
}

/// What the transaction brings to a client here, once it is applied. Neither the tree nor the watches matter for that.
pub fn answer_due(clients: &Clients, txn: &Txn) -> Due
    ensures { result ≡ answer_due clients.now txn.now }
{
    let session = txn.header.client_id;
    match txn.body.session_change() {
        SessionChange::Begins(_) => match clients.pending.awaiting(session, ConnectKind::New) {
            None => return Due::Nothing,
            Some(number) => Due::Admission(number),
        },
        SessionChange::Ends => match connection_with(clients, session) {
            None => return Due::Nothing,
            Some(number) => Due::Ending(number),
        },
        SessionChange::Nothing => reply_of(clients, txn, clients.sessions.connection(session)),
    }
}
