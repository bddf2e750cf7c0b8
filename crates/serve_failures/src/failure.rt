//! Why a server ends.

ghost use Rattle.std.specs.Prelude.{◌≡◌, ◌⊎◌, option_map};
ghost use Rattle.serve_failures.specs.Statuses.{failure_status, last_word};

use crate::hint::fault_hint;
use crate::server::{Reason, Server, Tried};
use serve_options::OptionError;
use settings::Dialect;
use std::alloc::{AllocError, AllocFailed, Global};
use std::fmt::Display;
use std::io;
use std::io::ErrorKind;
use thiserror::Error;
use values::{Fault, NoMemory};

/// What couldn't be done with a name, a socket or a file.
#[derive(Clone, Copy, Debug, PartialEq, Eq, Error)]
pub enum Step {
    #[error("resolve")]
    Resolve,
    #[error("connect to")]
    Connect,
    #[error("bind")]
    Bind,
    #[error("open")]
    Open,
}

/// The reason why a server couldn't be started, or ended before its leader did. Its text is one line.
#[derive(Debug, Drop, Error)]
pub enum Failure {
    /// The command line or the configuration file is invalid; the text says why.
    #[error("{0}")]
    Usage(String),
    /// A name, a socket or a file couldn't be had.
    #[error("cannot {step} {what}: {error}")]
    System {
        step: Step,
        what: String,
        error: io::Error,
    },
    /// The system refused something else.
    #[error("the system refused: {0}")]
    Io(io::Error),
    #[error("cannot start a thread")]
    NoThread,
    #[error("the record could not be written to its end")]
    RecordCut,
    /// An allocation was refused.
    #[error("memory was refused")]
    NoMemory,
    /// What the server sent was refused.
    #[error("F{number} {word} from {server}: {hint}", number = .fault.number(), word = .fault.word(), hint = fault_hint(*.fault, *.dialect))]
    Refused {
        fault: Fault,
        dialect: Dialect,
        server: String,
    },
    /// No leader was found within these seconds; the text says why, server by server.
    #[error("no leader within {seconds} s among {tried}")]
    NoLeader {
        seconds: u64,
        tried: String,
    },
}

fn text_of<D: Display>(alloc: Global, value: &D) -> Result<String, AllocError> {
    format!(in alloc; "{value}")
}

impl Failure {
    /// The failure that a wrong command line is, or the want of memory.
    pub fn of_options(alloc: Global, error: &OptionError<'_>) -> Failure
        ensures { (failure_status result ≡ 2) ⊎ (failure_status result ≡ 4) }
    {
        if matches!(error, OptionError::NoMemory) {
            return Failure::NoMemory;
        }
        match text_of(alloc, error) {
            Ok(text) => Failure::Usage(text),
            Err(_) => Failure::NoMemory,
        }
    }

    /// What is wrong at this line of a configuration file, or the want of memory. Line 0 is none of its lines.
    pub fn in_file<D: Display>(alloc: Global, file: &str, line: u64, what: &D) -> Failure
        ensures { (failure_status result ≡ 2) ⊎ (failure_status result ≡ 4) }
    {
        let text = if line == 0 {
            format!(in alloc; "{file}: {what}")
        } else {
            format!(in alloc; "{file}:{line}: {what}")
        };
        match text {
            Ok(text) => Failure::Usage(text),
            Err(_) => Failure::NoMemory,
        }
    }

    /// The failure of a step with this address, name or file, or the want of memory.
    pub fn system<D: Display>(alloc: Global, step: Step, what: &D, error: io::Error) -> Failure
        ensures { (failure_status result ≡ 3) ⊎ (failure_status result ≡ 4) }
    {
        if error.kind() == ErrorKind::OutOfMemory {
            return Failure::NoMemory;
        }
        match text_of(alloc, what) {
            Ok(what) => Failure::System { step, what, error },
            Err(_) => Failure::NoMemory,
        }
    }

    /// What the server sent was refused in this dialect, or the text of that had no memory.
    pub fn refused(alloc: Global, fault: Fault, dialect: Dialect, server: &Server) -> Failure
        ensures { (failure_status result ≡ 7) ⊎ (failure_status result ≡ 4) }
    {
        match text_of(alloc, server) {
            Ok(server) => Failure::Refused {
                fault,
                dialect,
                server,
            },
            Err(_) => Failure::NoMemory,
        }
    }

    /// No leader was found within these seconds among the servers, or the text of that had no memory.
    pub fn no_leader(alloc: Global, seconds: u64, servers: &[Server], reasons: &[Reason]) -> Failure
        ensures { (failure_status result ≡ 8) ⊎ (failure_status result ≡ 4) }
    {
        match text_of(alloc, &Tried { servers, reasons }) {
            Ok(tried) => Failure::NoLeader { seconds, tried },
            Err(_) => Failure::NoMemory,
        }
    }

    /// The exit status: 2 for the command line, 3 for a name, a socket, a thread or a file, 4 for memory, 7 where what a
    /// leader sent was refused, 8 where none was found.
    pub fn status(&self) -> u8
        ensures { result ≡ failure_status self.now }
    {
        match self {
            Failure::Usage(_) => 2,
            Failure::System { .. } | Failure::Io(_) | Failure::NoThread | Failure::RecordCut => 3,
            Failure::NoMemory => 4,
            Failure::Refused { .. } => 7,
            Failure::NoLeader { .. } => 8,
        }
    }

    /// The last line of standard error, for scripts that look for it; None where the line of the failure is the last.
    pub(crate) fn last_word(&self) -> Option<&'static str>
        ensures { option_map (λ word. word.now) result ≡ last_word self.now }
    {
        match self {
            Failure::Usage(_) => Some("usage"),
            Failure::System { .. } | Failure::Io(_) | Failure::NoThread | Failure::RecordCut =>
                Some("cannot open"),
            Failure::NoMemory => Some("no memory"),
            Failure::Refused { .. } | Failure::NoLeader { .. } => None,
        }
    }

    /// Says on standard error why the server ends, and returns the exit status.
    pub fn tell<R: Eprint>(&self, rt: &R) -> u8
        ensures { result ≡ failure_status self.now }
    {
        // If standard error can't be written, only the status tells the failure.
        let _ = eprintln!(rt; "observer: {self}");
        if let Some(word) = self.last_word() {
            let _ = eprintln!(rt; "{word}");
        }
        self.status()
    }
}

impl From<NoMemory> for Failure {
    fn from(_error: NoMemory) -> Failure {
        Failure::NoMemory
    }
}

impl From<AllocError> for Failure {
    fn from(_error: AllocError) -> Failure {
        Failure::NoMemory
    }
}

impl<T: Drop> From<AllocFailed<T>> for Failure {
    fn from(_error: AllocFailed<T>) -> Failure {
        Failure::NoMemory
    }
}

impl From<io::Error> for Failure {
    fn from(error: io::Error) -> Failure {
        if error.kind() == ErrorKind::OutOfMemory {
            Failure::NoMemory
        } else {
            Failure::Io(error)
        }
    }
}
