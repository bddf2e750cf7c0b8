//! Types of transactions.

ghost use Rattle.std.specs.Prelude.{◌≡◌};
ghost use Rattle.txn_codec.specs.Spelling.{shows_stat, is_lenient, has_own_end};
ghost use Rattle.txn_codec.specs.Kinds.{kind_of, later_kind_of, kind_at, code_of, part_kind_of};

use crate::place::Place;
use settings::Reads;
use values::Fault;

/// The type of a transaction, or of a part of a multi (the operation codes of `ZooDefs.OpCode`).
#[derive(Clone, Copy, Debug, PartialEq, Eq)]
pub enum TxnKind {
    /// A node is created.
    Create = 1,
    /// A node is deleted.
    Delete = 2,
    /// A node's data is replaced.
    SetData = 5,
    /// A node's access control list is replaced.
    SetAcl = 7,
    /// A node's version is compared.
    Check = 13,
    /// Several parts, all of them or none.
    Multi = 14,
    /// A node is created, and the reply shows its Stat.
    Create2 = 15,
    /// The data of the ensemble's configuration is replaced.
    Reconfig = 16,
    /// A container is created.
    CreateContainer = 19,
    /// A container without children is deleted, or a node whose time is over.
    DeleteContainer = 20,
    /// A node with a time to live is created.
    CreateTtl = 21,
    /// A session begins.
    CreateSession = -10,
    /// A session ends.
    CloseSession = -11,
    /// A request failed.
    Error = -1,
}

impl TxnKind {
    /// The type of ZooKeeper 3.4 with this code. The fault is `BadTxnType` for any other code.
    pub fn from_code(code: i32) -> Result<TxnKind, Fault>
        ensures { result ≡ kind_of code }
    {
        match code {
            1 => Ok(TxnKind::Create),
            2 => Ok(TxnKind::Delete),
            5 => Ok(TxnKind::SetData),
            7 => Ok(TxnKind::SetAcl),
            13 => Ok(TxnKind::Check),
            14 => Ok(TxnKind::Multi),
            -10 => Ok(TxnKind::CreateSession),
            -11 => Ok(TxnKind::CloseSession),
            -1 => Ok(TxnKind::Error),
            _ => Err(Fault::BadTxnType),
        }
    }

    // The type with this code at this place, in later releases.
    fn later(place: Place, code: i32) -> Result<TxnKind, Fault>
        ensures { result ≡ later_kind_of place code }
    {
        match code {
            15 => Ok(TxnKind::Create2),
            16 if matches!(place, Place::Alone) => Ok(TxnKind::Reconfig),
            19 => Ok(TxnKind::CreateContainer),
            20 => Ok(TxnKind::DeleteContainer),
            21 => Ok(TxnKind::CreateTtl),
            _ => TxnKind::from_code(code),
        }
    }

    // The type with this code at this place, where these are read. The fault is `BadTxnType` for any other code.
    pub(crate) fn at(reads: Reads, place: Place, code: i32) -> Result<TxnKind, Fault>
        ensures { result ≡ kind_at reads place code }
    {
        if reads.extended_types {
            return TxnKind::later(place, code);
        }
        TxnKind::from_code(code)
    }

    /// The code that is written.
    pub fn code(self) -> i32
        ensures { result ≡ code_of self }
    {
        self as i32
    }

    // Whether the reply to a create of this type shows the node's Stat.
    pub(crate) fn shows_stat(self) -> bool
        ensures { result ≡ shows_stat self }
    {
        !matches!(self, TxnKind::Create)
    }

    // Whether bytes may follow the operation in a part of this type.
    pub(crate) fn is_lenient(self, reads: Reads) -> bool
        ensures { result ≡ is_lenient reads self }
    {
        reads.lenient_parts && matches!(self, TxnKind::Error)
    }

    // Whether what may follow the fields is told by the last of them.
    pub(crate) fn has_own_end(self) -> bool
        ensures { result ≡ has_own_end self }
    {
        matches!(self, TxnKind::Create | TxnKind::CloseSession)
    }

    // The type, if a part of a multi may have it. The fault is `BadTxnType` for any other type.
    pub(crate) fn of_part(self) -> Result<TxnKind, Fault>
        ensures { result ≡ part_kind_of self }
    {
        match self {
            TxnKind::Create
            | TxnKind::Delete
            | TxnKind::SetData
            | TxnKind::Check
            | TxnKind::Create2
            | TxnKind::CreateContainer
            | TxnKind::DeleteContainer
            | TxnKind::CreateTtl
            | TxnKind::Error => Ok(self),
            TxnKind::SetAcl
            | TxnKind::Multi
            | TxnKind::Reconfig
            | TxnKind::CreateSession
            | TxnKind::CloseSession => Err(Fault::BadTxnType),
        }
    }
}
