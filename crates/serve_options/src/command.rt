//! The commands of `serve`.

ghost use Rattle.std.specs.Prelude.{◌≡◌, ◌++◌, ℕ, pos, List, map, string_bytes, true, None, Some, Ok, IfSome, IfOk, option_map};
ghost use Rattle.serve_options.specs.Rows.{option_bounds, IsWithin};
ghost use Rattle.serve_options.specs.Values.{number_within, is_digest_text};
ghost use Rattle.serve_options.specs.Words.{is_among};
ghost use Rattle.serve_options.specs.Given.{value_of, number_given, number_answer};
ghost use Rattle.serve_options.specs.declared.command.Servers.{Servers as Followed};
ghost use Rattle.serve_options.specs.Commands.{IsWithinBounds, IsSetBy, IsAddressOf, IsFileOf, AreOptionsOver, AreWordsOf, command_asked, AreServersOf, id_given, timeout_given, timeouts_given, words_given, level_given, format_given, dialect_given, options_of};

use crate::error::OptionError;
use crate::given::{Given, find_given, given_in, spelled};
use crate::row::{Bounds, Kind, Name};
use crate::value::{
    Address, LogFormat, address_of, addresses_of, dialect_of, format_of, has_colon, is_digest_text,
    level_of, number_within,
};
use crate::words::{Words, words_of};
use batcher::Limits;
use log::LevelFilter;
use settings::{Dialect, FirstCounter, ServerId, TimeoutBounds};
use std::alloc::Global;

/// Which servers to follow.
#[derive(Debug, Drop)]
pub enum Servers<'a> {
    /// The leader at this address, until it ends.
    Leader(Address<'a>),
    /// Whichever of these leads: at least one, and at most 64.
    Any(Vec<Address<'a>>),
}

/// The options of `serve`.
#[derive(Drop)]
pub struct Options<'a> {
    pub servers: Servers<'a>,
    /// The address at which to listen for clients. With port 0 the system picks a port.
    pub client: Address<'a>,
    pub server_id: ServerId,
    /// Whether no id was given, so that it is 1, which a server that votes may have too.
    pub default_id: bool,
    /// What leaders speak.
    pub dialect: Dialect,
    /// The counter after which session ids begin; None: the clock's.
    pub first_counter: Option<FirstCounter>,
    /// The file of the secret that the passwords of sessions are made of.
    pub secret_file: Option<&'a str>,
    /// The digest that makes a super user of a client.
    pub super_digest: Option<&'a str>,
    pub limits: Limits,
    /// How many clients may be connected at a time, at least 1.
    pub max_clients: Option<u64>,
    /// How many clients of one address may be connected at a time, at least 1.
    pub max_per_address: Option<u64>,
    /// The MiB of answers that may wait for all clients together, from 1 to 1,048,576.
    pub max_under_way: u64,
    /// How many watches a connection may leave, at most 1,000,000,000; 0: any number.
    pub max_watches: u64,
    /// For how many seconds a connection may be without a session, at most 3600; 0: any number.
    pub unconnected: u64,
    pub words: Words,
    /// The file for the record of what comes.
    pub record: Option<&'a str>,
    pub log: LevelFilter,
    pub log_format: LogFormat,
    /// The milliseconds of a tick, from 1 to 3,600,000.
    pub tick: u64,
    /// How many ticks a leader may be silent until this server is up to date; 0: any number. At most 1,000,000.
    pub init_limit: u64,
    /// How many ticks it may be silent afterwards; 0: any number. At most 1,000,000.
    pub sync_limit: u64,
    /// The bounds of the timeouts of sessions.
    pub timeouts: TimeoutBounds,
    /// The least MiB of the leader's bytes between two checkpoints, at most 1,048,576; 0: none is taken.
    pub checkpoint: u64,
    /// For how many seconds a leader is looked for, from 1 to 31,536,000; None: without end.
    pub give_up: Option<u64>,
    /// The address at which HTTP requests for metrics are answered.
    pub metrics: Option<Address<'a>>,
}

/// A configuration file.
#[derive(Clone, Copy, Debug)]
pub struct ConfigFile<'a> {
    pub name: &'a str,
    /// Whether it is only to be told what it does.
    pub is_check: bool,
}

/// What a command line asks for.
#[derive(Drop)]
pub enum Command<'a> {
    Serve(Options<'a>),
    /// This file is to be read first, and then the options with it, by `options_over`.
    Configured(ConfigFile<'a>),
    Help,
    Version,
}

// How many groups a batch has at most.
const GROUPS: usize = 64;

const ANY: Bounds = Bounds {
    least: 0,
    most: u64::MAX,
};

fn invalid<'a>(name: Name, value: &'a str) -> OptionError<'a> {
    OptionError::Invalid {
        name,
        value,
        kind: name.row().kind,
    }
}

fn bounds_of(name: Name) -> Bounds
    ensures { result ≡ option_bounds name }
{
    match name.row().kind {
        Kind::Number(bounds) => bounds,
        Kind::Nothing
        | Kind::Address
        | Kind::Addresses
        | Kind::Words
        | Kind::File
        | Kind::Level
        | Kind::Format
        | Kind::Release
        | Kind::Digest => ANY,
    }
}

// The number of an option, given or not.
fn number_in<'a>(given: &[Given<'a>], name: Name) -> Result<Option<u64>, OptionError<'a>>
    ensures value { number_answer result ≡ option_map (number_within (option_bounds name)) (value_of name given.now) }
    ensures number { IfOk result (λ found. found ≡ number_given name given.now) }
    ensures bounds { IfOk result (λ found. IfSome found (IsWithin (option_bounds name))) }
{
    let Some(value) = spelled(given, name) else {
        return Ok(None);
    };
    match number_within(bounds_of(name), value) {
        Some(number) => Ok(Some(number)),
        None => Err(invalid(name, value)),
    }
}

// The number of an option that has one without being given.
fn number<'a>(given: &[Given<'a>], name: Name) -> Result<u64, OptionError<'a>>
    ensures value { IfOk result (λ number. number_given name given.now ≡ Some number) }
    ensures bounds { IfOk result (IsWithin (option_bounds name)) }
{
    match number_in(given, name)? {
        Some(number) => Ok(number),
        None => Err(OptionError::NoValue(name)),
    }
}

fn address_in<'a>(given: &[Given<'a>], name: Name) -> Result<Option<Address<'a>>, OptionError<'a>>
    ensures { IfOk result (IsAddressOf (value_of name given.now)) }
{
    let Some(value) = spelled(given, name) else {
        return Ok(None);
    };
    match address_of(value) {
        Some(address) => Ok(Some(address)),
        None => Err(invalid(name, value)),
    }
}

fn servers_in<'a>(alloc: Global, given: &[Given<'a>]) -> Result<Servers<'a>, OptionError<'a>>
    ensures { IfOk result (AreServersOf given.now) }
{
    let leader = address_in(given, Name::Leader)?;
    match (leader, spelled(given, Name::Servers)) {
        (Some(_), Some(_)) => Err(OptionError::LeaderAndServers),
        (None, None) => Err(OptionError::NoServers),
        (Some(leader), None) => Ok(Servers::Leader(leader)),
        (None, Some(value)) => match addresses_of(alloc, value)? {
            Some(servers) => Ok(Servers::Any(servers)),
            None => Err(invalid(Name::Servers, value)),
        },
    }
}

fn client_in<'a>(given: &[Given<'a>]) -> Result<Address<'a>, OptionError<'a>>
    ensures { IfOk result (λ client. IsAddressOf (value_of Name.Client given.now) (Some client)) }
{
    match address_in(given, Name::Client)? {
        Some(client) => Ok(client),
        None => Err(OptionError::NoClient),
    }
}

// Only beside a leader that is a port of this machine may the id be missing.
fn needs_id(given: &[Given<'_>]) -> bool {
    match spelled(given, Name::Leader) {
        Some(leader) => has_colon(leader),
        None => true,
    }
}

fn id_in<'a>(given: &[Given<'a>]) -> Result<ServerId, OptionError<'a>>
    ensures { IfOk result (λ id. id ≡ pos (id_given given.now)) }
{
    let number = match number_in(given, Name::Id)? {
        Some(number) => number,
        None if needs_id(given) => return Err(OptionError::NoId),
        None => 1,
    };
    match ServerId::new(number as i32) {
        Some(id) => Ok(id),
        None => Err(OptionError::NoId),
    }
}

fn counter_in<'a>(given: &[Given<'a>]) -> Result<Option<FirstCounter>, OptionError<'a>>
    ensures number { IfOk result (λ found. found ≡ number_given Name.Counter given.now) }
    ensures bounds { IfOk result (λ found. IfSome found (IsWithin (option_bounds Name.Counter))) }
{
    match number_in(given, Name::Counter)? {
        Some(number) => Ok(FirstCounter::new(number)),
        None => Ok(None),
    }
}

fn limits_in<'a>(given: &[Given<'a>]) -> Result<Limits, OptionError<'a>>
    ensures workers { IfOk result (λ limits. number_given Name.Workers given.now ≡ Some limits.workers) }
    ensures batch { IfOk result (λ limits. number_given Name.Batch given.now ≡ Some limits.batch) }
{
    let workers = number(given, Name::Workers)?;
    let batch = number(given, Name::Batch)?;
    match Limits::new(workers as usize, batch as usize, GROUPS) {
        Ok(limits) => Ok(limits),
        Err(_) => Err(OptionError::NoValue(Name::Workers)),
    }
}

// The least timeout of sessions, as it is given or as ZooKeeper takes it: two ticks.
fn least_timeout<'a>(given: &[Given<'a>]) -> Result<i32, OptionError<'a>>
    ensures { IfOk result (λ least. timeout_given Name.MinSessionTimeout 2 given.now ≡ Some least) }
{
    match number_in(given, Name::MinSessionTimeout)? {
        Some(least) => Ok(least as i32),
        None => Ok((2 * number(given, Name::Tick)?) as i32),
    }
}

// The greatest one: twenty ticks, if it isn't given.
fn greatest_timeout<'a>(given: &[Given<'a>]) -> Result<i32, OptionError<'a>>
    ensures { IfOk result (λ greatest. timeout_given Name.MaxSessionTimeout 20 given.now ≡ Some greatest) }
{
    match number_in(given, Name::MaxSessionTimeout)? {
        Some(greatest) => Ok(greatest as i32),
        None => Ok((20 * number(given, Name::Tick)?) as i32),
    }
}

fn timeouts_in<'a>(given: &[Given<'a>]) -> Result<TimeoutBounds, OptionError<'a>>
    ensures { IfOk result (λ timeouts. timeouts_given given.now ≡ Some timeouts) }
{
    let least = least_timeout(given)?;
    let greatest = greatest_timeout(given)?;
    match TimeoutBounds::new(least, greatest) {
        Some(timeouts) => Ok(timeouts),
        None => Err(OptionError::CrossedTimeouts { least, greatest }),
    }
}

fn words_in<'a>(given: &[Given<'a>]) -> Result<Words, OptionError<'a>>
    ensures { IfOk result (λ words. words_given given.now ≡ Some words) }
{
    let Some(value) = spelled(given, Name::Words) else {
        return Err(OptionError::NoValue(Name::Words));
    };
    match words_of(value) {
        Some(words) => Ok(words),
        None => Err(invalid(Name::Words, value)),
    }
}

fn level_in<'a>(given: &[Given<'a>]) -> Result<LevelFilter, OptionError<'a>>
    ensures { IfOk result (λ level. level_given given.now ≡ Some level) }
{
    let Some(value) = spelled(given, Name::Log) else {
        return Ok(LevelFilter::Info);
    };
    match level_of(value) {
        Some(level) => Ok(level),
        None => Err(invalid(Name::Log, value)),
    }
}

fn format_in<'a>(given: &[Given<'a>]) -> Result<LogFormat, OptionError<'a>>
    ensures { IfOk result (λ format. format_given given.now ≡ Some format) }
{
    let Some(value) = spelled(given, Name::LogFormat) else {
        return Ok(LogFormat::Text);
    };
    match format_of(value) {
        Some(format) => Ok(format),
        None => Err(invalid(Name::LogFormat, value)),
    }
}

fn dialect_in<'a>(given: &[Given<'a>]) -> Result<Dialect, OptionError<'a>>
    ensures { IfOk result (λ dialect. dialect_given given.now ≡ Some dialect) }
{
    let Some(value) = spelled(given, Name::Dialect) else {
        return Err(OptionError::NoValue(Name::Dialect));
    };
    match dialect_of(value) {
        Some(dialect) => Ok(dialect),
        None => Err(invalid(Name::Dialect, value)),
    }
}

// The digest of the super user, if there is one.
fn digest_in<'a>(given: &[Given<'a>]) -> Result<Option<&'a str>, OptionError<'a>>
    ensures digest { IfOk result (λ digest.
        option_map (λ text. text.now) digest ≡ value_of Name.SuperDigest given.now) }
    ensures form { IfOk result (λ digest. IfSome digest (λ text. is_digest_text text.now ≡ true)) }
{
    let Some(value) = spelled(given, Name::SuperDigest) else {
        return Ok(None);
    };
    if !is_digest_text(value) {
        return Err(invalid(Name::SuperDigest, value));
    }
    Ok(Some(value))
}

/// The options beside the servers. Nothing of them is owned, so nothing is to be dropped where one is wrong.
#[derive(Clone, Copy)]
pub struct Others<'a> {
    pub client: Address<'a>,
    pub server_id: ServerId,
    pub default_id: bool,
    pub dialect: Dialect,
    pub first_counter: Option<FirstCounter>,
    pub secret_file: Option<&'a str>,
    pub super_digest: Option<&'a str>,
    pub limits: Limits,
    pub max_clients: Option<u64>,
    pub max_per_address: Option<u64>,
    pub max_under_way: u64,
    pub max_watches: u64,
    pub unconnected: u64,
    pub words: Words,
    pub record: Option<&'a str>,
    pub log: LevelFilter,
    pub log_format: LogFormat,
    pub tick: u64,
    pub init_limit: u64,
    pub sync_limit: u64,
    pub timeouts: TimeoutBounds,
    pub checkpoint: u64,
    pub give_up: Option<u64>,
    pub metrics: Option<Address<'a>>,
}

fn others_in<'a>(given: &[Given<'a>]) -> Result<Others<'a>, OptionError<'a>>
    ensures set { IfOk result (λ others. (servers : Followed) → AreServersOf given.now servers
        → IsSetBy given.now (options_of servers others)) }
    ensures bounds { IfOk result (λ others. (servers : Followed) → IsWithinBounds (options_of servers others)) }
{
    Ok(Others {
        client: client_in(given)?,
        server_id: id_in(given)?,
        default_id: find_given(given, Name::Id).is_none(),
        dialect: dialect_in(given)?,
        first_counter: counter_in(given)?,
        secret_file: spelled(given, Name::SecretFile),
        super_digest: digest_in(given)?,
        limits: limits_in(given)?,
        max_clients: number_in(given, Name::MaxClients)?,
        max_per_address: number_in(given, Name::MaxPerAddress)?,
        max_under_way: number(given, Name::MaxUnderWay)?,
        max_watches: number(given, Name::MaxWatches)?,
        unconnected: number(given, Name::Unconnected)?,
        words: words_in(given)?,
        record: spelled(given, Name::Record),
        log: level_in(given)?,
        log_format: format_in(given)?,
        tick: number(given, Name::Tick)?,
        init_limit: number(given, Name::InitLimit)?,
        sync_limit: number(given, Name::SyncLimit)?,
        timeouts: timeouts_in(given)?,
        checkpoint: number(given, Name::Checkpoint)?,
        give_up: number_in(given, Name::GiveUp)?,
        metrics: address_in(given, Name::Metrics)?,
    })
}

fn options_in<'a>(alloc: Global, given: &[Given<'a>]) -> Result<Options<'a>, OptionError<'a>>
    ensures set { IfOk result (IsSetBy given.now) }
    ensures bounds { IfOk result IsWithinBounds }
{
    let servers = servers_in(alloc, given)?;
    match others_in(given) {
        Ok(others) => Ok(Options {
            servers,
            client: others.client,
            server_id: others.server_id,
            default_id: others.default_id,
            dialect: others.dialect,
            first_counter: others.first_counter,
            secret_file: others.secret_file,
            super_digest: others.super_digest,
            limits: others.limits,
            max_clients: others.max_clients,
            max_per_address: others.max_per_address,
            max_under_way: others.max_under_way,
            max_watches: others.max_watches,
            unconnected: others.unconnected,
            words: others.words,
            record: others.record,
            log: others.log,
            log_format: others.log_format,
            tick: others.tick,
            init_limit: others.init_limit,
            sync_limit: others.sync_limit,
            timeouts: others.timeouts,
            checkpoint: others.checkpoint,
            give_up: others.give_up,
            metrics: others.metrics,
        }),
        Err(error) => Err(error),
    }
}

// The configuration file, if one is given.
fn file_in<'a>(given: &[Given<'a>]) -> Result<Option<ConfigFile<'a>>, OptionError<'a>>
    ensures { IfOk result (IsFileOf given.now) }
{
    match (
        spelled(given, Name::Config),
        spelled(given, Name::CheckConfig),
    ) {
        (Some(_), Some(_)) => Err(OptionError::TwoFiles),
        (Some(name), None) => Ok(Some(ConfigFile {
            name,
            is_check: false,
        })),
        (None, Some(name)) => Ok(Some(ConfigFile {
            name,
            is_check: true,
        })),
        (None, None) => Ok(None),
    }
}

/// Whether an option is among the words.
pub fn has_option(words: &[String], option: &str) -> bool
    ensures { result ≡ is_among option.now (map string_bytes words.now) }
{
    words.iter().any(|word| word.as_str() == option)
}

/// Reads the words after `serve`. Where `--help` is among them, or else `--version`, nothing else counts. Fails with
/// the first thing that is wrong, or if an allocation is refused.
pub fn command_of<'a>(alloc: Global, words: &'a [String]) -> Result<Command<'a>, OptionError<'a>>
    ensures asked { IfSome (command_asked (map string_bytes words.now)) (λ command. result ≡ Ok command) }
    ensures words { IfOk result (λ command. AreWordsOf command (map string_bytes words.now)) }
{
    if has_option(words, "--help") {
        return Ok(Command::Help);
    }
    if has_option(words, "--version") {
        return Ok(Command::Version);
    }
    let given = given_in(alloc, words)?;
    match file_in(given.as_slice())? {
        Some(file) => Ok(Command::Configured(file)),
        None => Ok(Command::Serve(options_in(alloc, given.as_slice())?)),
    }
}

// The options that are given, and behind them those of a file.
fn with_filed<'a>(
    given: Vec<Given<'a>>,
    filed: &[Given<'a>],
) -> Result<Vec<Given<'a>>, OptionError<'a>>
    ensures { IfOk result (λ all. all.items ≡ given.entry.items ++ filed.now) }
{
    let mut all = given;
    for option in filed {
        all.push(*option)?;
    }
    Ok(all)
}

fn options_with<'a>(
    alloc: Global,
    given: Vec<Given<'a>>,
    filed: &[Given<'a>],
) -> Result<Options<'a>, OptionError<'a>>
    ensures set { IfOk result (IsSetBy (given.entry.items ++ filed.now)) }
    ensures bounds { IfOk result IsWithinBounds }
{
    let all = with_filed(given, filed)?;
    options_in(alloc, all.as_slice())
}

/// Reads the words after `serve` beside what a configuration file sets: an option that is given wins. Fails with the
/// first thing that is wrong, or if an allocation is refused.
pub fn options_over<'a>(
    alloc: Global,
    words: &'a [String],
    filed: &[Given<'a>],
) -> Result<Options<'a>, OptionError<'a>>
    ensures { IfOk result (AreOptionsOver (map string_bytes words.now) filed.now) }
{
    let given = given_in(alloc, words)?;
    options_with(alloc, given, filed)
}
