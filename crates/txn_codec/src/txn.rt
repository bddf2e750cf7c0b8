//! Transactions (the records of zookeeper.jute).

ghost use Rattle.std.specs.Prelude.{◌≡◌};
ghost use Rattle.txn_codec.specs.Kinds.{create_kind, operation_kind, body_kind};

use crate::kind::TxnKind;
use paths_and_acls::{AclField, Path};
use settings::Dialect;
use std::alloc::AllocError;
use values::{Blob, Listed};

/// The origin of a transaction, and its place in the order of all (TxnHeader). The type is the body's.
#[derive(Clone, Copy, Debug, PartialEq, Eq)]
pub struct TxnHeader {
    /// The session that sent the request.
    pub client_id: i64,
    /// The session's own number of its request.
    pub cxid: i32,
    /// The transaction's number: the epoch in the upper 32 bits, a counter in the lower.
    pub zxid: i64,
    /// The time at which the leader took the request, in milliseconds since 1970.
    pub time: i64,
    /// The rules by which it is applied: those of the leader's dialect. No byte shows them.
    pub rules: Dialect,
}

/// The owner of a created node.
#[derive(Clone, Copy, Debug, PartialEq, Eq)]
pub enum Owner {
    Nobody,
    /// The session of the transaction: the node is deleted with it.
    Client,
    /// The leader deletes the node once it has no children any more.
    Container,
    /// The leader deletes the node if it has no children and hasn't changed for so many milliseconds.
    Ttl(i64),
}

/// A node is created (CreateTxn, CreateContainerTxn, CreateTTLTxn; a CreateTxnV0 has no `parent_cversion`, which means
/// -1).
#[derive(Clone, Debug, Drop)]
pub struct Create {
    pub path: Path,
    pub bytes: Option<Blob>,
    pub acl: AclField,
    pub owner: Owner,
    /// The reply shows the node's Stat. It does for a container and for a node with a time to live.
    pub asks_stat: bool,
    /// The parent's cversion after the create; -1 counts it up by one.
    pub parent_cversion: i32,
}

/// A node is deleted (DeleteTxn).
#[derive(Clone, Debug, Drop)]
pub struct Delete {
    pub path: Path,
    /// Its type is deleteContainer: the leader deletes a container without children, or a node whose time is over. It
    /// does what a delete does.
    pub of_container: bool,
}

/// A node's data is replaced (SetDataTxn).
#[derive(Clone, Debug, Drop)]
pub struct SetData {
    pub path: Path,
    pub bytes: Option<Blob>,
    /// The node's version after the write.
    pub version: i32,
    /// Its type is reconfig: it replaces the data of the ensemble's configuration.
    pub is_reconfig: bool,
}

/// A node's access control list is replaced (SetACLTxn).
#[derive(Clone, Debug, Drop)]
pub struct SetAcl {
    pub path: Path,
    pub acl: AclField,
    /// The node's aversion after the write.
    pub version: i32,
}

/// A node's version is compared (CheckVersionTxn).
#[derive(Clone, Debug, Drop)]
pub struct Check {
    pub path: Path,
    pub version: i32,
}

/// An operation of a transaction, or of a part of a multi.
#[derive(Debug, Drop)]
pub enum Operation {
    Create(Create),
    Delete(Delete),
    SetData(SetData),
    Check(Check),
    /// The request failed, with this error code (ErrorTxn).
    Error(i32),
}

/// What a transaction does.
#[derive(Debug, Drop)]
pub enum Body {
    Single(Operation),
    SetAcl(SetAcl),
    /// Its parts in order (MultiTxn).
    Multi(Listed<Operation>),
    /// A session begins, with this timeout in milliseconds (CreateSessionTxn).
    CreateSession(i32),
    /// The session of the header ends. Later leaders list the paths of its ephemeral nodes.
    CloseSession(Listed<Path>),
}

/// A transaction: its header and its body.
#[derive(Clone, Debug, Drop)]
pub struct Txn {
    pub header: TxnHeader,
    pub body: Body,
}

impl Create {
    /// Its type.
    pub fn kind(&self) -> TxnKind
        ensures { result ≡ create_kind self.now.owner self.now.asks_stat }
    {
        match self.owner {
            Owner::Container => TxnKind::CreateContainer,
            Owner::Ttl(_) => TxnKind::CreateTtl,
            Owner::Nobody | Owner::Client => {
                if self.asks_stat {
                    TxnKind::Create2
                } else {
                    TxnKind::Create
                }
            }
        }
    }
}

impl Operation {
    /// Its type.
    pub fn kind(&self) -> TxnKind
        ensures { result ≡ operation_kind self.now }
    {
        match self {
            Operation::Create(create) => create.kind(),
            Operation::Delete(delete) if delete.of_container => TxnKind::DeleteContainer,
            Operation::Delete(_) => TxnKind::Delete,
            Operation::SetData(set_data) if set_data.is_reconfig => TxnKind::Reconfig,
            Operation::SetData(_) => TxnKind::SetData,
            Operation::Check(_) => TxnKind::Check,
            Operation::Error(_) => TxnKind::Error,
        }
    }
}

impl Body {
    /// Its type, as in the header (TxnHeader).
    pub fn kind(&self) -> TxnKind
        ensures { result ≡ body_kind self.now }
    {
        match self {
            Body::Single(operation) => operation.kind(),
            Body::SetAcl(_) => TxnKind::SetAcl,
            Body::Multi(_) => TxnKind::Multi,
            Body::CreateSession(_) => TxnKind::CreateSession,
            Body::CloseSession(_) => TxnKind::CloseSession,
        }
    }
}

impl Clone for Operation {
    ghost is_clone = { λ x y. y ≡ x };

    fn clone(&self) -> Result<Operation, AllocError> {
        Ok(match self {
            Operation::Create(create) => Operation::Create(create.clone()?),
            Operation::Delete(delete) => Operation::Delete(delete.clone()?),
            Operation::SetData(set_data) => Operation::SetData(set_data.clone()?),
            Operation::Check(check) => Operation::Check(check.clone()?),
            Operation::Error(error) => Operation::Error(*error),
        })
    }
}

impl Clone for Body {
    ghost is_clone = { λ x y. y ≡ x };

    fn clone(&self) -> Result<Body, AllocError> {
        Ok(match self {
            Body::Single(operation) => Body::Single(operation.clone()?),
            Body::SetAcl(set_acl) => Body::SetAcl(set_acl.clone()?),
            Body::Multi(parts) => Body::Multi(parts.clone()?),
            Body::CreateSession(timeout) => Body::CreateSession(*timeout),
            Body::CloseSession(listed) => Body::CloseSession(listed.clone()?),
        })
    }
}
