//! The options of `serve`: a row for each.

ghost use Rattle.std.specs.Prelude.{◌≡◌, ◌<◌};
ghost use Rattle.serve_options.specs.Places.{name_place};
ghost use Rattle.serve_options.specs.Rows.{option_word, option_kind};
ghost use Rattle.serve_options.specs.Defaults.{option_default, default_value};
ghost use Rattle.serve_options.specs.Table.{row_said, option_said, IsOptionTable};

use std::fmt;

/// An option.
#[derive(Clone, Copy, Debug, PartialEq, Eq)]
pub enum Name {
    Config,
    CheckConfig,
    Leader,
    Servers,
    LeaderOnly,
    Client,
    Id,
    Dialect,
    Counter,
    SecretFile,
    SuperDigest,
    Workers,
    Batch,
    MaxClients,
    MaxPerAddress,
    MaxUnderWay,
    MaxWatches,
    Unconnected,
    Words,
    Tick,
    InitLimit,
    SyncLimit,
    MinSessionTimeout,
    MaxSessionTimeout,
    Checkpoint,
    GiveUp,
    Metrics,
    Record,
    Log,
    LogFormat,
    Help,
    Version,
}

/// The options, in the order in which help lists them.
pub const NAMES: [Name; 32] = [
    Name::Config,
    Name::CheckConfig,
    Name::Leader,
    Name::Servers,
    Name::LeaderOnly,
    Name::Client,
    Name::Id,
    Name::Dialect,
    Name::Counter,
    Name::SecretFile,
    Name::SuperDigest,
    Name::Workers,
    Name::Batch,
    Name::MaxClients,
    Name::MaxPerAddress,
    Name::MaxUnderWay,
    Name::MaxWatches,
    Name::Unconnected,
    Name::Words,
    Name::Tick,
    Name::InitLimit,
    Name::SyncLimit,
    Name::MinSessionTimeout,
    Name::MaxSessionTimeout,
    Name::Checkpoint,
    Name::GiveUp,
    Name::Metrics,
    Name::Record,
    Name::Log,
    Name::LogFormat,
    Name::Help,
    Name::Version,
];

/// The least and the greatest number of an option, both allowed.
#[derive(Clone, Copy, Debug, PartialEq, Eq)]
pub struct Bounds {
    pub least: u64,
    pub most: u64,
}

/// What the value of an option may be.
#[derive(Clone, Copy, Debug, PartialEq, Eq)]
pub enum Kind {
    /// The option has no value.
    Nothing,
    /// A port, with or without a host in front.
    Address,
    /// From 1 to 64 hosts with their ports, and commas between.
    Addresses,
    /// Four-letter words with commas between, or all or none of them.
    Words,
    /// A number in decimal digits.
    Number(Bounds),
    /// The name of a file.
    File,
    /// A level of the log; the option may also stand alone.
    Level,
    /// A format of the log.
    Format,
    /// The release whose dialect is spoken.
    Release,
    /// A user and the hash of its password.
    Digest,
}

// A number from the one to the other, both allowed.
macro_rules! from_to {
    ($least:expr, $most:expr) => {
        Kind::Number(Bounds {
            least: $least,
            most: $most,
        })
    };
}

impl fmt::Display for Kind {
    ghost use Rattle.std.specs.Prelude.{Some};
    ghost use Rattle.serve_options.specs.Texts.{kind_text};

    ghost output = { λ kind. Some (kind_text kind) };

    fn fmt<W: fmt::Write>(&self, f: &mut fmt::Formatter<W>) -> fmt::Result {
        match self {
            Kind::Nothing => f.write_str("no value"),
            Kind::Address => f.write_str("PORT or HOST:PORT"),
            Kind::Addresses => f.write_str("1 to 64 of HOST:PORT, with commas between"),
            Kind::Number(Bounds { least, most }) => {
                if *most == u64::MAX {
                    return write!(f, "at least {least}");
                }
                write!(f, "{least} to {most}")
            }
            Kind::Words => f.write_str(
                "all, none, or some of ruok,isro,srvr,stat,mntr,conf,envi,dirs,wchs,wchp,wchc,dump,cons,crst,srst",
            ),
            Kind::File => f.write_str("the name of a file"),
            Kind::Level => f.write_str("off, error, warn, info or debug"),
            Kind::Format => f.write_str("text or json"),
            Kind::Release => f.write_str("3.4 or 3.8"),
            Kind::Digest => f.write_str("a user, a colon and SHA-1 of `USER:PASSWORD` in base64"),
        }
    }
}

/// What holds where an option isn't given.
#[derive(Clone, Copy, Debug, PartialEq, Eq)]
pub enum Without {
    /// Nothing to tell.
    Nothing,
    /// This value, as it would be given.
    Value(&'static str),
    /// What happens then.
    Meaning(&'static str),
}

/// What there is to know of an option.
#[derive(Clone, Copy, Debug)]
pub struct Row {
    /// The option as it is given.
    pub word: &'static str,
    /// What stands for its value in the text of help.
    pub value: &'static str,
    pub kind: Kind,
    pub without: Without,
    /// What the option is for.
    pub help: &'static str,
}

const CONFIG: Row = Row {
    word: "--config",
    value: "FILE",
    kind: Kind::File,
    without: Without::Meaning("no file is read"),
    help: "takes from the ensemble's `zoo.cfg` what no option sets",
};

const CHECK_CONFIG: Row = Row {
    word: "--check-config",
    value: "FILE",
    kind: Kind::File,
    without: Without::Meaning("the server serves"),
    help: "prints what would be taken from such a file, and ends",
};

const LEADER: Row = Row {
    word: "--leader",
    value: "[HOST:]PORT",
    kind: Kind::Address,
    without: Without::Meaning("servers are given in place of it"),
    help: "where the leader listens for its learners: the first port of its `server.N` line. The server ends when this leader does",
};

const SERVERS: Row = Row {
    word: "--servers",
    value: "HOST:PORT,..",
    kind: Kind::Addresses,
    without: Without::Meaning("a leader is given in place of it"),
    help: "where each server that may lead listens for its learners; the leader is looked for among them, again and again",
};

const LEADER_ONLY: Row = Row {
    word: "--leader-only",
    value: "",
    kind: Kind::Nothing,
    without: Without::Nothing,
    help: "passes over `observerMasterPort`, so that no follower is tried; means nothing unless the file of `--config` has that key",
};

const CLIENT: Row = Row {
    word: "--client",
    value: "[ADDRESS:]PORT",
    kind: Kind::Address,
    without: Without::Meaning("it has to be there"),
    help: "where clients are listened for; at port 0 the system picks one",
};

const ID: Row = Row {
    word: "--id",
    value: "N",
    kind: from_to!(1, 255),
    without: Without::Meaning("it has to be there; beside a leader that is a port alone it is 1"),
    help: "the id of this server, which no other server of the ensemble has",
};

const DIALECT: Row = Row {
    word: "--dialect",
    value: "RELEASE",
    kind: Kind::Release,
    without: Without::Value("3.8"),
    help: "what the leader and the clients speak: the dialect of ZooKeeper 3.4, or that of 3.5 to 3.9, called 3.8",
};

const COUNTER: Row = Row {
    word: "--counter",
    value: "N",
    kind: from_to!(0, 72_057_594_037_927_934),
    without: Without::Meaning("the clock, so that no id is given out again"),
    help: "the ids of sessions begin after this number",
};

const SECRET_FILE: Row = Row {
    word: "--secret-file",
    value: "FILE",
    kind: Kind::File,
    without: Without::Meaning(
        "as ZooKeeper's own servers make them; in dialect 3.4 from no secret",
    ),
    help: "makes the passwords of sessions from the 1 to 64 bytes of this file, which others must not be able to read",
};

const SUPER_DIGEST: Row = Row {
    word: "--super-digest",
    value: "USER:HASH",
    kind: Kind::Digest,
    without: Without::Meaning("there is no super user"),
    help: "whoever shows the password of this digest is the super user, whom every access list lets in",
};

const WORKERS: Row = Row {
    word: "--workers",
    value: "N",
    kind: from_to!(1, 64),
    without: Without::Value("4"),
    help: "the threads that apply transactions and answer reads",
};

const BATCH: Row = Row {
    word: "--batch",
    value: "N",
    kind: from_to!(1, 4096),
    without: Without::Value("256"),
    help: "the most transactions that are applied together",
};

const MAX_CLIENTS: Row = Row {
    word: "--max-clients",
    value: "N",
    kind: from_to!(1, u64::MAX),
    without: Without::Meaning("any number"),
    help: "how many clients may be connected at a time; one more is closed at once",
};

const MAX_PER_ADDRESS: Row = Row {
    word: "--max-per-address",
    value: "N",
    kind: from_to!(1, u64::MAX),
    without: Without::Meaning("any number"),
    help: "how many of them may have the same address",
};

const MAX_UNDER_WAY: Row = Row {
    word: "--max-under-way",
    value: "MIB",
    kind: from_to!(1, 1_048_576),
    without: Without::Value("64"),
    help: "the MiB of answers that may wait until clients read them, of all clients together; beyond it the slowest is closed",
};

const MAX_WATCHES: Row = Row {
    word: "--max-watches",
    value: "N",
    kind: from_to!(0, 1_000_000_000),
    without: Without::Value("500000"),
    help: "the watches that a connection may leave; one with more is closed; 0: any number",
};

const UNCONNECTED: Row = Row {
    word: "--unconnected",
    value: "SECONDS",
    kind: from_to!(0, 3600),
    without: Without::Value("10"),
    help: "how long a connection may be without a session before it is closed; 0: as long as it likes",
};

const WORDS: Row = Row {
    word: "--words",
    value: "WORD,..",
    kind: Kind::Words,
    without: Without::Value("ruok,isro,srvr,stat,mntr,conf,envi,dirs,wchs"),
    help: "the four-letter words that are answered",
};

const TICK: Row = Row {
    word: "--tick",
    value: "MS",
    kind: from_to!(1, 3_600_000),
    without: Without::Value("2000"),
    help: "the milliseconds of a tick, as `tickTime` of the ensemble",
};

const INIT_LIMIT: Row = Row {
    word: "--init-limit",
    value: "N",
    kind: from_to!(0, 1_000_000),
    without: Without::Value("10"),
    help: "the ticks that a leader may be silent until it has brought this server up to date; 0: as long as it likes",
};

const SYNC_LIMIT: Row = Row {
    word: "--sync-limit",
    value: "N",
    kind: from_to!(0, 1_000_000),
    without: Without::Value("5"),
    help: "the ticks that it may be silent afterwards; 0: as long as it likes",
};

const MIN_SESSION_TIMEOUT: Row = Row {
    word: "--min-session-timeout",
    value: "MS",
    kind: from_to!(1, 2_147_483_647),
    without: Without::Meaning("two ticks"),
    help: "the least timeout that a session is given, whatever its client asks for",
};

const MAX_SESSION_TIMEOUT: Row = Row {
    word: "--max-session-timeout",
    value: "MS",
    kind: from_to!(1, 2_147_483_647),
    without: Without::Meaning("twenty ticks"),
    help: "the greatest timeout that a session is given, not below the least",
};

const CHECKPOINT: Row = Row {
    word: "--checkpoint",
    value: "MIB",
    kind: from_to!(0, 1_048_576),
    without: Without::Value("64"),
    help: "the least MiB of the leader's bytes between two checkpoints, which empty the log in memory; 0: none is taken",
};

const GIVE_UP: Row = Row {
    word: "--give-up",
    value: "SECONDS",
    kind: from_to!(1, 31_536_000),
    without: Without::Meaning("a leader is looked for without end"),
    help: "how long a leader is looked for before the server ends",
};

const METRICS: Row = Row {
    word: "--metrics",
    value: "[ADDRESS:]PORT",
    kind: Kind::Address,
    without: Without::Meaning("nowhere"),
    help: "where metrics are served over HTTP",
};

const RECORD: Row = Row {
    word: "--record",
    value: "FILE",
    kind: Kind::File,
    without: Without::Meaning("nothing is recorded"),
    help: "records what comes, as a script for `replay`",
};

const LOG: Row = Row {
    word: "--log",
    value: "[LEVEL]",
    kind: Kind::Level,
    without: Without::Value("warn"),
    help: "how much is told on standard error; alone: info",
};

const LOG_FORMAT: Row = Row {
    word: "--log-format",
    value: "FORMAT",
    kind: Kind::Format,
    without: Without::Value("text"),
    help: "how each line of it is written",
};

const HELP: Row = Row {
    word: "--help",
    value: "",
    kind: Kind::Nothing,
    without: Without::Nothing,
    help: "prints this list",
};

const VERSION: Row = Row {
    word: "--version",
    value: "",
    kind: Kind::Nothing,
    without: Without::Nothing,
    help: "prints the version",
};

/// The rows of all options, in the order of [`NAMES`].
pub(crate) static ROWS: [Row; 32] = [
    CONFIG,
    CHECK_CONFIG,
    LEADER,
    SERVERS,
    LEADER_ONLY,
    CLIENT,
    ID,
    DIALECT,
    COUNTER,
    SECRET_FILE,
    SUPER_DIGEST,
    WORKERS,
    BATCH,
    MAX_CLIENTS,
    MAX_PER_ADDRESS,
    MAX_UNDER_WAY,
    MAX_WATCHES,
    UNCONNECTED,
    WORDS,
    TICK,
    INIT_LIMIT,
    SYNC_LIMIT,
    MIN_SESSION_TIMEOUT,
    MAX_SESSION_TIMEOUT,
    CHECKPOINT,
    GIVE_UP,
    METRICS,
    RECORD,
    LOG,
    LOG_FORMAT,
    HELP,
    VERSION,
];

// The row of an option in a table.
fn row_in(rows: &[Row; 32], name: Name) -> Row
    ensures { IsOptionTable rows.now → row_said result ≡ option_said name }
{
    rows[name.place()]
}

impl Name {
    // The place of the option among all.
    fn place(self) -> usize
        ensures place { result ≡ name_place self }
        ensures bound { result < 32 }
    {
        self as usize
    }

    /// What there is to know of the option.
    pub fn row(self) -> Row
        ensures word { result.word.now ≡ option_word self }
        ensures kind { result.kind ≡ option_kind self }
        ensures default { default_value result.without ≡ option_default self }
    {
        row_in(&ROWS, self)
    }
}
