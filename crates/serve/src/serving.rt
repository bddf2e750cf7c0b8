//! The server, once its sockets are open.

ghost use Rattle.std.specs.Prelude.{◌≡◌, IfOk};

use crate::bounds::Bounds;
use crate::hub::{Hub, Parts};
use crate::leading::{Leading, Source};
use crate::listening::listen_for_scrapers;
use crate::log_keeping::LogKeeper;
use crate::logging::{Logging, start_logging};
use crate::silence::SilenceLimits;
use crate::telling::tally_of;
use batcher::SpreadThreshold;
use connection_loop::ReadsAhead;
use following::Finding;
use intake::{Desk, Waker};
use leader_search::{Finder, find_all, search_among};
use log::Log;
use mio::net::TcpListener;
use node_map::HashKey;
use observer_core::{Config, Settings};
use serve_bounds::Stopwatch;
use serve_config::{FileLines, create_record, first_counter, random_hash_key, read_secret};
use serve_door::{Accepting, Acceptor, DoorLimits, accept_all, open_door};
use serve_failures::{Failure, servers_of};
use serve_journal::Journal;
use serve_metrics::{DescriptorCount, STATUS, start_scraping};
use serve_options::{Address, Options, Servers};
use serve_record::Record;
use settings::{Epochs, FirstCounter, Secret};
use std::alloc::Global;
use std::fs::File;
use std::io::Write;
use std::net::{Net, TcpStream};
use std::random::RandomSource;
use std::rt::{Env, Files};
use std::sync::{Arc, Wait};
use std::thread::{JoinHandle, Threads};
use std::time::Clock;
use std::{fs, net, slice, thread};
use values::{NoMemory, Text};

// Work that is less than this is done by the hub's thread: starting threads takes as long as storing some megabytes.
// Small reads are quicker on one thread even in runs of some thousands.
const WORTH_THREADS: SpreadThreshold = SpreadThreshold {
    transactions: 2,
    bytes: 8_388_608,
    reads: 16_384,
};

// How many reads of all clients are sent on before the leader has answered what came before them. One packet of the
// leader releases their answers at once.
const READS_AHEAD: usize = 64;

// The observer's settings. Those without an option have the defaults of a script.
fn config_of(
    alloc: Global,
    options: &Options<'_>,
    secret: Secret,
    first_counter: FirstCounter,
    key: HashKey,
) -> Result<Config, NoMemory>
    ensures { IfOk result (λ config. config.hash_key ≡ key) }
{
    let super_digest = match options.super_digest {
        Some(digest) => Some(Text::new(alloc, digest)?),
        None => None,
    };
    let settings = Settings {
        server_id: options.server_id,
        epochs: Epochs::default(),
        timeouts: options.timeouts,
        secret,
        first_counter,
        dialect: options.dialect,
        super_digest,
    };
    let config = Config::from_settings(settings, options.limits);
    Ok(config.with_threshold(WORTH_THREADS).with_hash_key(key))
}

// The same, with what is drawn and read for it.
fn config_for<R: Clock + RandomSource>(
    rt: &R,
    alloc: Global,
    options: &Options<'_>,
    secret: Secret,
) -> Result<Config, Failure> {
    let first_counter = first_counter(rt, options)?;
    let key = random_hash_key(rt)?;
    Ok(config_of(alloc, options, secret, first_counter, key)?)
}

/// Where the first leader comes from.
#[derive(Drop)]
pub enum Origin {
    /// This connection, with whose end the server ends.
    Stream(TcpStream),
    /// The servers among the options, one of which leads at a time.
    Search(Finding),
}

// What is still to be started when the hub is there.
#[derive(Drop)]
enum Beginning {
    Stream(TcpStream),
    Finder(Finder),
}

// The addresses of the servers that may lead.
fn addresses_in<'a>(options: &'a Options<'a>) -> &'a [Address<'a>] {
    match &options.servers {
        Servers::Leader(address) => slice::from_ref(address),
        Servers::Any(addresses) => addresses.as_slice(),
    }
}

// Prepares for the first leader.
fn begin_at(
    alloc: Global,
    options: &Options<'_>,
    origin: Origin,
    now: u64,
) -> Result<(Source, Beginning), Failure> {
    let servers = servers_of(alloc, addresses_in(options))?;
    match origin {
        Origin::Stream(stream) => Ok((Source::Once(servers), Beginning::Stream(stream))),
        Origin::Search(finding) => {
            let (search, finder) = search_among(alloc, servers, finding, now)?;
            Ok((Source::Search(search), Beginning::Finder(finder)))
        }
    }
}

// Follows the connection, or starts the thread that looks for a leader.
fn start<
    R: Threads
        + Wait
        + Net<Stream = TcpStream, Listener = net::TcpListener>
        + Clock
        + Copy
        + Send
        + Sync
        + 'static,
    L: Log,
    W: Write + Drop,
>(rt: &R, hub: &mut Hub<L, W>, beginning: Beginning) -> Result<Option<JoinHandle<()>>, Failure> {
    match beginning {
        Beginning::Stream(stream) => {
            hub.follow(rt, stream)?;
            Ok(None)
        }
        Beginning::Finder(finder) => {
            let waker = hub.waker()?;
            let mine = *rt;
            match thread::spawn(rt, move || find_all(&mine, finder, &waker)) {
                Ok(finding) => Ok(Some(finding)),
                Err(_) => Err(Failure::NoThread),
            }
        }
    }
}

// Starts the thread that accepts clients.
fn start_accepting<R: Threads + Wait + Net + Clock + Copy + Send + 'static>(
    rt: &R,
    acceptor: Acceptor,
    waker: Arc<Waker, Global>,
) -> Result<JoinHandle<()>, Failure> {
    let mine = *rt;
    match thread::spawn(rt, move || accept_all(&mine, acceptor, &waker)) {
        Ok(accepting) => Ok(accepting),
        Err(_) => Err(Failure::NoThread),
    }
}

// Serves with a hub that has no connection yet.
fn serve_hub<
    R: Threads
        + Wait
        + Net<Stream = TcpStream, Listener = net::TcpListener>
        + Clock
        + Files
        + Copy
        + Send
        + Sync
        + 'static,
    L: Log,
    W: Write + Drop,
>(rt: &R, hub: &mut Hub<L, W>, beginning: Beginning, acceptor: Acceptor) -> Result<(), Failure> {
    hub.open_leader_port()?;
    let waker = hub.waker()?;
    let finding = start(rt, hub, beginning)?;
    let served = match start_accepting(rt, acceptor, waker) {
        Ok(accepting) => {
            let served = hub.serve(rt);
            hub.door.stop();
            accepting.join(rt);
            served
        }
        Err(error) => Err(error),
    };
    let ended = hub.end(rt, served);
    if let Some(finding) = finding {
        finding.join(rt);
    }
    ended
}

// What is prepared before there is a desk.
#[derive(Drop)]
struct Prepared {
    parts: Parts,
    beginning: Beginning,
    acceptor: Acceptor,
}

// Prepares to accept clients at the port, and for the first leader. What may be refused is done before more is owned.
fn prepare<R: Net + Clock + Files<File = File>>(
    rt: &R,
    alloc: Global,
    options: &Options<'_>,
    origin: Origin,
    listener: TcpListener,
    port: u16,
) -> Result<Prepared, Failure> {
    let mut clock = Stopwatch::start(rt);
    let bounds = Bounds::new(options);
    let ahead = Arc::new(alloc, ReadsAhead::new(READS_AHEAD))?;
    let tally = tally_of(rt, alloc, options, port)?;
    let at_door = DoorLimits {
        places: bounds.places,
        silent: bounds.session.unconnected,
    };
    let (source, beginning) = begin_at(alloc, options, origin, clock.now(rt))?;
    let Accepting {
        acceptor,
        from_acceptor,
        door,
    } = open_door(rt, alloc, listener, at_door, Arc::try_clone(&tally)?)?;
    let limits = SilenceLimits {
        tick: options.tick,
        init_limit: options.init_limit,
        sync_limit: options.sync_limit,
    };
    let descriptors = DescriptorCount::begin(rt, alloc, &*tally);
    let parts = Parts {
        clock,
        leading: Leading::new(source, limits, options.give_up),
        log_keeper: LogKeeper::new(options.checkpoint),
        bounds,
        ahead,
        tally,
        descriptors,
        from_acceptor,
        door,
    };
    Ok(Prepared {
        parts,
        beginning,
        acceptor,
    })
}

// Serves with a desk of its own. The desk is dropped with the hub, at the single end of this function and nowhere else:
// each drop of an observer is proved anew.
fn serve_with<
    R: Threads
        + Wait
        + Net<Stream = TcpStream, Listener = net::TcpListener>
        + Clock
        + Files
        + Copy
        + Send
        + Sync
        + 'static,
    L: Log + Drop,
    W: Write + Drop,
>(
    rt: &R,
    alloc: Global,
    config: Config,
    prepared: Prepared,
    journal: Journal<L>,
    record: Record<W>,
) -> Result<(), Failure> {
    let desk = Desk::new(alloc, config)?;
    let Prepared {
        parts,
        beginning,
        acceptor,
    } = prepared;
    let mut hub = Hub::new(alloc, desk, parts, journal, record);
    serve_hub(rt, &mut hub, beginning, acceptor)
}

/// What a server is started with.
#[derive(Drop)]
pub(crate) struct Startup<'a> {
    pub options: &'a Options<'a>,
    /// The lines of its configuration file.
    pub lines: FileLines<'a>,
    /// The secret that the passwords of sessions are made of.
    pub secret: Secret,
    /// Where monitoring systems connect, if they may.
    pub scraped: Option<TcpListener>,
}

/// The same as `serve_on`, with the reason why it ended.
pub(crate) fn try_serve_on<
    R: Threads
        + Wait
        + Net<Stream = TcpStream, Listener = net::TcpListener>
        + Clock
        + Files<File = File>
        + RandomSource
        + Env
        + Eprint
        + Copy
        + Send
        + Sync
        + 'static,
>(
    rt: &R,
    alloc: Global,
    start: Startup<'_>,
    origin: Origin,
    listener: TcpListener,
) -> Result<(), Failure> {
    let Startup {
        options,
        lines,
        secret,
        scraped,
    } = start;
    let port = listener.local_addr()?.port();
    let config = config_for(rt, alloc, options, secret)?;
    let mut record = Record::new(alloc, create_record(rt, alloc, options)?);
    record.begin(&config.settings);
    let prepared = prepare(rt, alloc, options, origin, listener, port)?;
    let Logging {
        journal,
        thread,
        end,
    } = start_logging(rt, alloc, options)?;
    journal.started(options, port);
    journal.started_by(lines);
    let silence = options.tick.saturating_mul(options.sync_limit);
    let status = fs::open(rt, STATUS).ok();
    let tally = &prepared.parts.tally;
    let served = match start_scraping(rt, alloc, scraped, tally, status, silence) {
        Ok(scraping) => {
            let served = serve_with(rt, alloc, config, prepared, journal, record);
            scraping.end(rt);
            served
        }
        Err(error) => Err(Failure::from(error)),
    };
    end.finish(rt, thread);
    served
}

// What a server is started with that has no configuration file.
fn opened<'a, R: Net + Files<File = File> + Env>(
    rt: &R,
    alloc: Global,
    options: &'a Options<'a>,
) -> Result<Startup<'a>, Failure> {
    Ok(Startup {
        options,
        lines: FileLines::none(),
        secret: read_secret(rt, alloc, options)?,
        scraped: listen_for_scrapers(rt, alloc, options)?,
    })
}

/// Follows the leader and serves clients until the leader's connection ends. Returns the exit status: 0 then, 2 if the
/// secret can't be taken, 3 if something couldn't be opened or recorded, 4 if an allocation was refused, 7 if what the
/// leader sent was refused. By then each connection is closed, and each thread that it started has ended, but for the
/// one that writes the log where standard error hasn't been read for 500 milliseconds.
pub fn serve_on<
    R: Threads
        + Wait
        + Net<Stream = TcpStream, Listener = net::TcpListener>
        + Clock
        + Files<File = File>
        + RandomSource
        + Env
        + Eprint
        + Copy
        + Send
        + Sync
        + 'static,
>(rt: &R, alloc: Global, options: &Options<'_>, leader: TcpStream, listener: TcpListener) -> u8 {
    let served = match opened(rt, alloc, options) {
        Ok(start) => try_serve_on(rt, alloc, start, Origin::Stream(leader), listener),
        Err(failure) => Err(failure),
    };
    match served {
        Ok(()) => 0,
        Err(failure) => failure.status(),
    }
}
