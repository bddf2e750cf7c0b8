//! The requests of clients that the leader's stream hasn't answered yet.

ghost use Rattle.std.specs.Prelude.{◌≡◌, [], None};
ghost use Rattle.forwarding.specs.Queue.{is_same_kind, is_write, write_number, is_answered_by, is_unsettled, settled_request};
ghost use Rattle.forwarding.specs.Inner.{as_write, is_close_request};

use std::alloc::Global;
use values::{Blob, Listed, Text};

/// The type of an error transaction, which answers a write of any kind.
pub const ERROR_TXN: i32 = -1;

/// What a forwarded write does.
#[derive(Clone, Copy)]
pub enum WriteKind {
    Create,
    Delete,
    SetData,
    SetAcl,
    /// Several operations, of which all are done or none.
    Multi,
    /// A create that is answered with the Stat.
    Create2,
    Reconfig,
    CreateContainer,
    DeleteContainer,
    /// A create of a node with a time to live.
    CreateTtl,
    CloseSession,
}

impl WriteKind {
    /// The type of the request, and of its transaction.
    pub fn number(self) -> i32
        ensures { result ≡ write_number self }
    {
        match self {
            WriteKind::Create => 1,
            WriteKind::Delete => 2,
            WriteKind::SetData => 5,
            WriteKind::SetAcl => 7,
            WriteKind::Multi => 14,
            WriteKind::Create2 => 15,
            WriteKind::Reconfig => 16,
            WriteKind::CreateContainer => 19,
            WriteKind::DeleteContainer => 20,
            WriteKind::CreateTtl => 21,
            WriteKind::CloseSession => -11,
        }
    }
}

/// The way in which a connect asks for its session.
#[derive(Clone, Copy)]
pub enum ConnectKind {
    /// It is new: the leader is asked to create it.
    New,
    /// The client had it, here or at another server: the leader is asked whether it lives.
    Claimed,
}

impl ConnectKind {
    pub(crate) fn is_same(self, other: ConnectKind) -> bool
        ensures { result ≡ is_same_kind self other }
    {
        match self {
            ConnectKind::New => matches!(other, ConnectKind::New),
            ConnectKind::Claimed => matches!(other, ConnectKind::Claimed),
        }
    }
}

/// A connect that waits for its session.
#[derive(Clone, Copy)]
pub struct PendingConnect {
    pub kind: ConnectKind,
    pub session: i64,
    /// The timeout that the client is told, in milliseconds.
    pub time_out: i32,
    /// Whether the request had the byte for read-only mode; then the response has it too.
    pub has_read_only: bool,
}

/// A connect that is answered now. Without one, no frame stands here.
#[derive(Drop)]
pub struct TakenConnect {
    pub connect: Option<PendingConnect>,
    /// The frames that were held after it, in order.
    pub frames: Listed<Blob>,
}

impl TakenConnect {
    pub(crate) fn none(alloc: Global) -> TakenConnect
        ensures { result ≡ record { connect = None; frames = [] } }
    {
        TakenConnect {
            connect: None,
            frames: Listed::from_vec(Vec::new(alloc)),
        }
    }
}

/// A write that was forwarded.
#[derive(Clone, Copy)]
pub struct PendingWrite {
    pub xid: i32,
    pub kind: WriteKind,
}

impl PendingWrite {
    // Whether a transaction of this xid and type answers the write.
    pub(crate) fn is_answered_by(&self, xid: i32, txn_kind: i32) -> bool
        ensures { result ≡ is_answered_by self.now xid txn_kind }
    {
        self.xid == xid && (txn_kind == self.kind.number() || txn_kind == ERROR_TXN)
    }
}

/// A write that a transaction answers.
#[derive(Clone, Copy)]
pub struct AnsweredWrite {
    /// Its place among its connection's requests.
    pub place: usize,
    pub kind: WriteKind,
}

/// A sync that was forwarded. The leader settles it when this replica has caught up; the client is answered in its
/// turn.
#[derive(Drop)]
pub struct PendingSync {
    pub xid: i32,
    pub path: Text,
    pub is_settled: bool,
}

/// A request that isn't answered yet.
#[derive(Drop)]
pub enum PendingRequest {
    Connect(PendingConnect),
    Write(PendingWrite),
    Sync(PendingSync),
    /// A whole frame that came after a request that waits.
    Held(Blob),
}

impl PendingRequest {
    pub(crate) fn is_write(&self) -> bool
        ensures { result ≡ is_write self.now }
    {
        matches!(self, PendingRequest::Write(_))
    }

    pub(crate) fn as_write(&self) -> Option<PendingWrite>
        ensures { result ≡ as_write self.now }
    {
        match self {
            PendingRequest::Write(write) => Some(*write),
            PendingRequest::Connect(_) | PendingRequest::Sync(_) | PendingRequest::Held(_) => None,
        }
    }

    pub(crate) fn is_close(&self) -> bool
        ensures { result ≡ is_close_request self.now }
    {
        match self {
            PendingRequest::Write(write) => matches!(write.kind, WriteKind::CloseSession),
            PendingRequest::Connect(_) | PendingRequest::Sync(_) | PendingRequest::Held(_) => false,
        }
    }

    // Whether this is a sync that isn't settled.
    pub(crate) fn is_unsettled(&self) -> bool
        ensures { result ≡ is_unsettled self.now }
    {
        match self {
            PendingRequest::Sync(sync) => !sync.is_settled,
            PendingRequest::Connect(_) | PendingRequest::Write(_) | PendingRequest::Held(_) =>
                false,
        }
    }

    // Settles a sync.
    pub(crate) fn settle(&mut self)
        ensures { self.new ≡ settled_request self.old }
    {
        if let PendingRequest::Sync(sync) = self {
            sync.is_settled = true;
        }
    }
}

/// A request that can be answered now.
#[derive(Drop)]
pub enum Ready {
    SettledSync { xid: i32, path: Text },
    HeldFrame(Blob),
}

/// How many requests of a connection wait.
#[derive(Clone, Copy)]
pub enum Occupancy {
    /// None.
    Idle,
    /// Some, and there may be more.
    Busy,
    /// As many as there may be.
    Full,
}

/// What a sync of the leader settles.
#[derive(Clone, Copy)]
pub enum Settled {
    /// No sync was forwarded.
    NoSync,
    /// A sync whose connection has gone.
    Gone,
    /// A sync of this connection.
    Of(u64),
}
