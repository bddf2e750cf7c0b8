//! The command `serve`.

use crate::listening::{listen, listen_for_scrapers};
use crate::logging::tell;
use crate::serving::{Origin, Startup, try_serve_on};
use following::Finding;
use serve_config::{FileLines, ReadFile, read_file, read_secret};
use serve_failures::{Failure, Step};
use serve_journal::print_check;
use serve_options::{Address, Command, Options, Servers, VERSION_LINES, command_of, help};
use std::alloc::Global;
use std::fs::File;
use std::net::{Net, SocketAddr, TcpStream, ToSocketAddrs};
use std::random::RandomSource;
use std::rt::{Env, Files};
use std::sync::Wait;
use std::thread::Threads;
use std::time::Clock;
use std::{io, net};

// Connects to an address of the leader without delay (TCP_NODELAY): the observer's packets are small, and none is to wait
// for an acknowledgement.
fn connect<R: Net<Stream = TcpStream>>(rt: &R, address: SocketAddr) -> io::Result<TcpStream> {
    let stream = TcpStream::connect(rt, address)?;
    stream.set_nodelay(true)?;
    Ok(stream)
}

// Connects to the leader, at the first of its addresses that accepts.
fn reach<R: Net<Stream = TcpStream>>(
    rt: &R,
    alloc: Global,
    leader: &Address<'_>,
) -> Result<TcpStream, Failure> {
    let found = match (leader.host, leader.port).to_socket_addrs(rt) {
        Ok(found) => found,
        Err(error) => return Err(Failure::system(alloc, Step::Resolve, &leader.host, error)),
    };
    let mut last = io::Error::from(io::ErrorKind::NotFound);
    for address in found {
        match connect(rt, address) {
            Ok(stream) => return Ok(stream),
            Err(error) => last = error,
        }
    }
    Err(Failure::system(alloc, Step::Connect, leader, last))
}

// Connects to the leader, or finds whom to search; opens the sockets, prints the port for clients, and serves.
fn run<
    R: Threads
        + Wait
        + Net<Stream = TcpStream, Listener = net::TcpListener>
        + Clock
        + Files<File = File>
        + RandomSource
        + Env
        + Print
        + Eprint
        + Copy
        + Send
        + Sync
        + 'static,
>(rt: &R, alloc: Global, options: &Options<'_>, lines: FileLines<'_>) -> Result<(), Failure> {
    let secret = read_secret(rt, alloc, options)?;
    let origin = match &options.servers {
        Servers::Leader(leader) => Origin::Stream(reach(rt, alloc, leader)?),
        Servers::Any(servers) => match Finding::new(servers.len(), options.server_id) {
            Some(finding) => Origin::Search(finding),
            None => return Err(Failure::NoMemory),
        },
    };
    let listener = listen(rt, alloc, &options.client)?;
    let scraped = listen_for_scrapers(rt, alloc, options)?;
    let port = listener.local_addr()?.port();
    println!(rt; "serving {port}")?;
    let start = Startup {
        options,
        lines,
        secret,
        scraped,
    };
    try_serve_on(rt, alloc, start, origin, listener)
}

// Serves by a file and the words, or prints what that would be.
fn run_configured<
    'a,
    R: Threads
        + Wait
        + Net<Stream = TcpStream, Listener = net::TcpListener>
        + Clock
        + Files<File = File>
        + RandomSource
        + Env
        + Print
        + Eprint
        + Copy
        + Send
        + Sync
        + 'static,
>(
    rt: &R,
    alloc: Global,
    words: &'a [String],
    read: &'a ReadFile<'_>,
    is_check: bool,
) -> Result<(), Failure> {
    let given = read.given(alloc, words)?;
    let filed = given.as_slice();
    let options = read.options(alloc, words, filed)?;
    let lines = read.lines();
    if is_check {
        let _secret = read_secret(rt, alloc, &options)?;
        return print_check(rt, alloc, &options, lines);
    }
    run(rt, alloc, &options, lines)
}

// Prints what a command asks for, or serves.
fn obey<
    R: Threads
        + Wait
        + Net<Stream = TcpStream, Listener = net::TcpListener>
        + Clock
        + Files<File = File>
        + RandomSource
        + Env
        + Print
        + Eprint
        + Copy
        + Send
        + Sync
        + 'static,
>(rt: &R, alloc: Global, words: &[String], command: &Command<'_>) -> Result<(), Failure> {
    match command {
        Command::Serve(options) => run(rt, alloc, options, FileLines::none()),
        Command::Configured(file) => {
            let read = read_file(rt, alloc, words, file.name)?;
            run_configured(rt, alloc, &words[..], &read, file.is_check)
        }
        Command::Help => {
            let text = help(alloc)?;
            print!(rt; "{text}")?;
            Ok(())
        }
        Command::Version => {
            print!(rt; "{VERSION_LINES}")?;
            Ok(())
        }
    }
}

/// Serves as the words after `serve` ask, and returns the exit status. If it isn't 0, the reason is on standard error.
pub fn serve<
    R: Threads
        + Wait
        + Net<Stream = TcpStream, Listener = net::TcpListener>
        + Clock
        + Files<File = File>
        + RandomSource
        + Env
        + Print
        + Eprint
        + Copy
        + Send
        + Sync
        + 'static,
>(rt: &R, alloc: Global, words: &[String]) -> u8 {
    let obeyed = match command_of(alloc, words) {
        Ok(command) => obey(rt, alloc, words, &command),
        Err(error) => Err(Failure::of_options(alloc, &error)),
    };
    match obeyed {
        Ok(()) => 0,
        Err(failure) => tell(rt, alloc, failure),
    }
}
