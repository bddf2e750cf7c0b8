//! What is wrong with a configuration file.

ghost use Rattle.std.specs.Prelude.{◌≡◌};
ghost use Rattle.zoo_config.specs.declared.error.ConfigError.TheVariants as errors;

use std::alloc::{AllocError, AllocFailed};
use std::fmt;
use thiserror::Error;
use values::NoMemory;

/// Why a line can't be followed.
#[derive(Clone, Copy, Debug, PartialEq, Eq)]
pub enum Reason {
    Escape,
    Tls,
    Sasl,
    LocalSessions,
    /// The port of followers that serve observers isn't one.
    MasterPort,
    /// A line of a server isn't what it may be.
    Server,
    /// The line of this server doesn't say that it is an observer.
    Votes,
}

impl fmt::Display for Reason {
    fn fmt<W: fmt::Write>(&self, f: &mut fmt::Formatter<W>) -> fmt::Result {
        match self {
            Reason::Escape => f.write_str("escapes aren't read: a backslash may only end a line"),
            Reason::Tls => f.write_str("there is no TLS here"),
            Reason::Sasl => f.write_str("there are no SASL and no such authentication here"),
            Reason::LocalSessions => f.write_str("there are no local sessions here"),
            Reason::MasterPort => f.write_str(
                "observerMasterPort=PORT, from 1 to 65535; 0 or less: as without the key",
            ),
            Reason::Server => f.write_str(
                "server.N=HOST:PORT:PORT[:observer][;[ADDRESS:]PORT], N from 1 to 255, and IPv6 in brackets",
            ),
            Reason::Votes => f.write_str(
                "this server votes: the line of an observer has :observer",
            ),
        }
    }
}

/// A line that can't be followed; every line counts, from 1.
#[derive(Clone, Copy, Debug, PartialEq, Eq)]
pub struct BadLine {
    pub line: u64,
    pub reason: Reason,
}

impl fmt::Display for BadLine {
    fn fmt<W: fmt::Write>(&self, f: &mut fmt::Formatter<W>) -> fmt::Result {
        let BadLine { line, reason } = self;
        write!(f, "{line}: {reason}")
    }
}

/// Why a file can't be followed.
#[derive(Clone, Copy, Debug, PartialEq, Eq, Error)]
pub enum ConfigError {
    /// An allocation was refused.
    #[error("no memory")]
    NoMemory,
    #[error("{0}")]
    Bad(BadLine),
}

impl From<AllocError> for ConfigError {
    ghost from_gives = { λ _ e. e ≡ errors.NoMemory };

    fn from(_error: AllocError) -> ConfigError {
        ConfigError::NoMemory
    }
}

impl<T: Drop> From<AllocFailed<T>> for ConfigError {
    ghost from_gives = { λ _ e. e ≡ errors.NoMemory };

    fn from(_error: AllocFailed<T>) -> ConfigError {
        ConfigError::NoMemory
    }
}

impl From<NoMemory> for ConfigError {
    ghost from_gives = { λ _ e. e ≡ errors.NoMemory };

    fn from(_error: NoMemory) -> ConfigError {
        ConfigError::NoMemory
    }
}
