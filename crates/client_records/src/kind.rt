//! The types of a client's requests.

ghost use Rattle.std.specs.Prelude.{◌≡◌, Some};
ghost use Rattle.settings.specs.Dialects.{reads_of};
ghost use Rattle.settings.specs.declared.dialect.Dialect.TheVariants.{Zk38};
ghost use Rattle.client_records.specs.Kinds.{code_of, later_request_kinds, kind_of, request_kind_in};

use settings::Dialect;

/// The types of reads, by what they show of a node.
#[derive(Clone, Copy, Debug, PartialEq, Eq)]
pub enum ReadKind {
    /// Its Stat, if there is a node.
    Exists = 3,
    /// Its data.
    GetData = 4,
    /// Its access control list.
    GetAcl = 6,
    /// The names of its children.
    GetChildren = 8,
    /// The names of its children, and its Stat.
    GetChildren2 = 12,
}

/// The types of requests (the operation codes of `ZooDefs.OpCode`).
#[derive(Clone, Copy, Debug, PartialEq, Eq)]
pub enum RequestKind {
    /// Create a node.
    Create,
    /// Delete a node.
    Delete,
    /// Read a node.
    Read(ReadKind),
    /// Replace a node's data.
    SetData,
    /// Replace a node's access control list.
    SetAcl,
    /// Have the server catch up with its leader.
    Sync,
    /// Show that the client is alive.
    Ping,
    /// Compare a node's version.
    Check,
    /// Make several changes at once.
    Multi,
    /// Add an id to the connection.
    Auth,
    /// Set the watches that the client had before.
    SetWatches,
    /// Leave a watch that isn't used up (of ZooKeeper 3.6).
    AddWatch,
    /// End the client's session.
    CloseSession,
    /// Create a node, and be shown its Stat.
    Create2,
    /// Change the servers of the ensemble.
    Reconfig,
    /// Create a node that is deleted once it has no children any more.
    CreateContainer,
    /// Delete such a node.
    DeleteContainer,
    /// Create a node with a time to live.
    CreateTtl,
    /// Tell whether the client has a watch of a kind at a path.
    CheckWatches,
    /// Remove such a watch.
    RemoveWatches,
    /// Make several reads at once.
    MultiRead,
    /// Show who the client is, by SASL.
    Sasl,
    /// List the session's ephemeral nodes.
    GetEphemerals,
    /// Count the nodes below a node.
    GetAllChildrenNumber,
    /// Set the watches that the client had before, those among them that aren't used up.
    SetWatches2,
    /// List the ids of the connection.
    WhoAmI,
}

impl RequestKind {
    // The type with this code among those that only later clients send.
    #[tactic(auto, unfolding(crate::specs::Kinds::kind_of))]
    fn later(dialect: Dialect, code: i32) -> Option<RequestKind>
        ensures { result ≡ kind_of (later_request_kinds (reads_of dialect)) code }
    {
        if !dialect.reads().later_requests {
            return None;
        }
        match code {
            15 => Some(RequestKind::Create2),
            16 => Some(RequestKind::Reconfig),
            17 => Some(RequestKind::CheckWatches),
            18 => Some(RequestKind::RemoveWatches),
            19 => Some(RequestKind::CreateContainer),
            20 => Some(RequestKind::DeleteContainer),
            21 => Some(RequestKind::CreateTtl),
            22 => Some(RequestKind::MultiRead),
            102 => Some(RequestKind::Sasl),
            103 => Some(RequestKind::GetEphemerals),
            104 => Some(RequestKind::GetAllChildrenNumber),
            105 => Some(RequestKind::SetWatches2),
            107 => Some(RequestKind::WhoAmI),
            _ => None,
        }
    }

    /// The type with this code in a dialect; `None` for a code that is unknown there.
    #[tactic(auto, unfolding(crate::specs::Kinds::kind_of))]
    pub fn from_code(dialect: Dialect, code: i32) -> Option<RequestKind>
        ensures { result ≡ request_kind_in dialect code }
    {
        match code {
            1 => Some(RequestKind::Create),
            2 => Some(RequestKind::Delete),
            3 => Some(RequestKind::Read(ReadKind::Exists)),
            4 => Some(RequestKind::Read(ReadKind::GetData)),
            5 => Some(RequestKind::SetData),
            6 => Some(RequestKind::Read(ReadKind::GetAcl)),
            7 => Some(RequestKind::SetAcl),
            8 => Some(RequestKind::Read(ReadKind::GetChildren)),
            9 => Some(RequestKind::Sync),
            11 => Some(RequestKind::Ping),
            12 => Some(RequestKind::Read(ReadKind::GetChildren2)),
            13 => Some(RequestKind::Check),
            14 => Some(RequestKind::Multi),
            100 => Some(RequestKind::Auth),
            101 => Some(RequestKind::SetWatches),
            106 => Some(RequestKind::AddWatch),
            -11 => Some(RequestKind::CloseSession),
            _ => RequestKind::later(dialect, code),
        }
    }

    /// The code in a request's header.
    #[tactic(auto, unfolding(crate::specs::Kinds::kind_of))]
    pub fn code(self) -> i32
        ensures code { result ≡ code_of self }
        ensures back { request_kind_in Zk38 result ≡ Some self }
    {
        match self {
            RequestKind::Create => 1,
            RequestKind::Delete => 2,
            RequestKind::Read(kind) => kind as i32,
            RequestKind::SetData => 5,
            RequestKind::SetAcl => 7,
            RequestKind::Sync => 9,
            RequestKind::Ping => 11,
            RequestKind::Check => 13,
            RequestKind::Multi => 14,
            RequestKind::Auth => 100,
            RequestKind::SetWatches => 101,
            RequestKind::AddWatch => 106,
            RequestKind::CloseSession => -11,
            RequestKind::Create2 => 15,
            RequestKind::Reconfig => 16,
            RequestKind::CreateContainer => 19,
            RequestKind::DeleteContainer => 20,
            RequestKind::CreateTtl => 21,
            RequestKind::CheckWatches => 17,
            RequestKind::RemoveWatches => 18,
            RequestKind::MultiRead => 22,
            RequestKind::Sasl => 102,
            RequestKind::GetEphemerals => 103,
            RequestKind::GetAllChildrenNumber => 104,
            RequestKind::SetWatches2 => 105,
            RequestKind::WhoAmI => 107,
        }
    }
}
