//! What is wrong with a command line.

ghost use Rattle.std.specs.Prelude.{◌≡◌, Some};
ghost use Rattle.serve_options.specs.Rows.{option_word};
ghost use Rattle.serve_options.specs.declared.error.OptionError.TheVariants as errors;

use crate::row::{Kind, Name};
use std::alloc::{AllocError, AllocFailed};
use std::fmt;
use thiserror::Error;

/// Why a command line can't be followed. Its text is one line, which names the option.
#[derive(Clone, Copy, Debug, Error)]
pub enum OptionError<'a> {
    /// A word that is no option, and none is near.
    #[error("{0}: no such option")]
    Unknown(&'a str),
    /// A word that is no option, and the one that it is near to.
    #[error("{word}: no such option (did you mean {near}?)")]
    Misspelled {
        word: &'a str,
        near: Name,
    },
    #[error("{0} is given twice")]
    Twice(Name),
    #[error("{0} has no value")]
    NoValue(Name),
    /// The value of an option isn't what it may be.
    #[error("{name} {value}: {kind}")]
    Invalid {
        name: Name,
        value: &'a str,
        kind: Kind,
    },
    #[error("--client [ADDRESS:]PORT is missing: where clients are listened for")]
    NoClient,
    #[error("--id N is missing: 1 to 255, and not the id of a server that votes")]
    NoId,
    #[error("--leader or --servers is missing: which servers to follow")]
    NoServers,
    #[error("--leader and --servers are given: one of the two")]
    LeaderAndServers,
    /// The least timeout of sessions is above the greatest, each as it is given or by the tick.
    #[error("--min-session-timeout {least} is above --max-session-timeout {greatest}; without them: 2 and 20 ticks")]
    CrossedTimeouts {
        least: i32,
        greatest: i32,
    },
    #[error("--config and --check-config are given: one of the two")]
    TwoFiles,
    /// An allocation was refused.
    #[error("no memory")]
    NoMemory,
}

impl<'a> From<AllocError> for OptionError<'a> {
    ghost from_gives = { λ _ e. e ≡ errors.NoMemory };

    fn from(_error: AllocError) -> OptionError<'a> {
        OptionError::NoMemory
    }
}

impl<'a, T: Drop> From<AllocFailed<T>> for OptionError<'a> {
    ghost from_gives = { λ _ e. e ≡ errors.NoMemory };

    fn from(_error: AllocFailed<T>) -> OptionError<'a> {
        OptionError::NoMemory
    }
}

impl fmt::Display for Name {
    ghost output = { λ name. Some (option_word name) };

    fn fmt<W: fmt::Write>(&self, f: &mut fmt::Formatter<W>) -> fmt::Result {
        f.write_str(self.row().word)
    }
}
