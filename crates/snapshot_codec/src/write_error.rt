//! The errors of writing an image.

ghost use Rattle.std.specs.Prelude.{◌≡◌};
ghost use Rattle.snapshot_codec.specs.declared.write_error.WriteError.TheVariants as errors;

use std::alloc::{AllocError, AllocFailed};
use thiserror::Error;
use values::NoMemory;

/// The reason why an image could not be written.
#[derive(Clone, Copy, Debug, PartialEq, Eq, Error)]
pub enum WriteError {
    /// The tree isn't whole, or exceeds a limit of the format.
    #[error("the tree has no image")]
    NotWhole,
    /// An allocation was refused.
    #[error("no memory")]
    NoMemory,
}

impl From<NoMemory> for WriteError {
    ghost from_gives = { λ _ e. e ≡ errors.NoMemory };

    fn from(_e: NoMemory) -> WriteError {
        WriteError::NoMemory
    }
}

impl From<AllocError> for WriteError {
    ghost from_gives = { λ _ e. e ≡ errors.NoMemory };

    fn from(_e: AllocError) -> WriteError {
        WriteError::NoMemory
    }
}

impl<T: Drop> From<AllocFailed<T>> for WriteError {
    ghost from_gives = { λ _ e. e ≡ errors.NoMemory };

    fn from(_e: AllocFailed<T>) -> WriteError {
        WriteError::NoMemory
    }
}
