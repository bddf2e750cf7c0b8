//! The reasons why a field can't be read, and refused allocations.

ghost use Rattle.std.specs.Prelude.{◌≡◌};
ghost use Rattle.values.specs.declared.fault.ReadError.TheVariants as errors;
ghost use Rattle.values.specs.Faults.{fault_number, fault_word};

use std::alloc::{AllocError, AllocFailed};
use thiserror::Error;

/// What is wrong with the leader's bytes: `F1` to `F12`, in this order.
#[derive(Clone, Copy, Debug, PartialEq, Eq, Error)]
#[error("{}", self.word())]
pub enum Fault {
    /// The bytes end inside a field.
    Short = 1,
    /// A length or count is below -1 or above its limit.
    BadLength,
    /// A text isn't UTF-8.
    BadText,
    /// A path isn't valid.
    BadPath,
    /// A transaction, or a part of one, has an unknown type.
    BadTxnType,
    /// Bytes follow a transaction's body or a part's body.
    TrailingBytes,
    /// A zxid isn't above the one before it.
    OutOfOrder,
    /// A commit doesn't name the oldest open proposal.
    CommitMismatch,
    /// A truncation is below the base.
    CannotTruncate,
    /// The parts of an image don't fit together.
    BadImage,
    /// A leader's epoch is below the accepted one.
    EpochTooSmall,
    /// A packet isn't one of those awaited.
    UnexpectedPacket,
}

impl Fault {
    /// The number of the fault, from 1 to 12.
    pub fn number(self) -> u8
        ensures { result ≡ fault_number self }
    {
        self as u8
    }

    /// The word for the fault, which is its variant's name.
    pub fn word(self) -> &'static str
        ensures { result.now ≡ fault_word self }
    {
        match self {
            Fault::Short => "Short",
            Fault::BadLength => "BadLength",
            Fault::BadText => "BadText",
            Fault::BadPath => "BadPath",
            Fault::BadTxnType => "BadTxnType",
            Fault::TrailingBytes => "TrailingBytes",
            Fault::OutOfOrder => "OutOfOrder",
            Fault::CommitMismatch => "CommitMismatch",
            Fault::CannotTruncate => "CannotTruncate",
            Fault::BadImage => "BadImage",
            Fault::EpochTooSmall => "EpochTooSmall",
            Fault::UnexpectedPacket => "UnexpectedPacket",
        }
    }
}

/// An allocation was refused. This is the only error of a call that can fail in no other way.
#[derive(Clone, Copy, Debug, PartialEq, Eq, Error)]
#[error("no memory")]
pub struct NoMemory;

impl From<AllocError> for NoMemory {
    fn from(_e: AllocError) -> NoMemory {
        NoMemory
    }
}

impl<T: Drop> From<AllocFailed<T>> for NoMemory {
    fn from(_e: AllocFailed<T>) -> NoMemory {
        NoMemory
    }
}

/// The reason why a value that is allocated couldn't be read.
#[derive(Clone, Copy, Debug, PartialEq, Eq, Error)]
pub enum ReadError {
    /// An allocation was refused.
    #[error("no memory")]
    NoMemory,
    #[error("{0}")]
    Fault(Fault),
}

impl From<NoMemory> for ReadError {
    ghost from_gives = { λ _ e. e ≡ errors.NoMemory };

    fn from(_e: NoMemory) -> ReadError {
        ReadError::NoMemory
    }
}

impl From<Fault> for ReadError {
    ghost from_gives = { λ f e. e ≡ errors.Fault f };

    fn from(fault: Fault) -> ReadError {
        ReadError::Fault(fault)
    }
}

impl From<AllocError> for ReadError {
    ghost from_gives = { λ _ e. e ≡ errors.NoMemory };

    fn from(_e: AllocError) -> ReadError {
        ReadError::NoMemory
    }
}

impl<T: Drop> From<AllocFailed<T>> for ReadError {
    ghost from_gives = { λ _ e. e ≡ errors.NoMemory };

    fn from(_e: AllocFailed<T>) -> ReadError {
        ReadError::NoMemory
    }
}
