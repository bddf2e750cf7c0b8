//! A leader and a client over loopback.

use crate::rows::{
    ack, ack_epoch, connect, connected, create, create_session, diff_and_new_leader, get,
    got_with_session, leader_info, observer_info, session_request, up_to_date,
};
use mio::net::TcpListener as ClientListener;
use serve::{Command, command_of, serve_on};
use settings::Dialect;
use std::alloc::Global;
use std::fs::File;
use std::io::{self, Read, Write};
use std::net::{Ipv4Addr, Net, SocketAddr, SocketAddrV4, TcpListener, TcpStream};
use std::random::RandomSource;
use std::rt::{Env, Files};
use std::sync::Wait;
use std::test::Fail;
use std::thread::{Builder, Threads};
use std::time::{Clock, Duration};

// Reads this many bytes, and returns whether they are the expected ones.
fn reads(stream: &TcpStream, wanted: &[u8]) -> io::Result<bool> {
    let mut found = [0u8; 128];
    let length = wanted.len().min(found.len());
    let mut reader = stream;
    reader.read_exact(&mut found[..length])?;
    Ok(&found[..length] == wanted)
}

fn writes(stream: &TcpStream, bytes: &[u8]) -> io::Result<()> {
    let mut writer = stream;
    writer.write_all(bytes)
}

// Leads one observer through its handshake and a create. Returns whether everything that it sent was right.
fn lead(stream: &TcpStream) -> io::Result<bool> {
    let mut is_right = reads(stream, observer_info())?;
    writes(stream, leader_info())?;
    is_right &= reads(stream, ack_epoch())?;
    writes(stream, diff_and_new_leader())?;
    is_right &= reads(stream, ack())?;
    writes(stream, up_to_date())?;
    is_right &= reads(stream, ack())?;
    writes(stream, create())?;
    Ok(is_right)
}

// A connection to this port on this machine, whose reads take no longer than some seconds.
fn connection<R: Net<Stream = TcpStream>>(rt: &R, port: u16) -> io::Result<TcpStream> {
    let stream = TcpStream::connect(rt, (Ipv4Addr::LOCALHOST, port))?;
    stream.set_read_timeout(Some(Duration::from_secs(20)))?;
    Ok(stream)
}

// Opens a session, which the leader creates when it is asked to, and reads the node. Returns whether the leader and the
// client got what they expected.
fn ask<R: Net<Stream = TcpStream>>(
    rt: &R,
    leader: &TcpStream,
    port: u16,
    dialect: Dialect,
) -> io::Result<bool> {
    let stream = connection(rt, port)?;
    writes(&stream, connect())?;
    let is_asked = reads(leader, session_request())?;
    writes(leader, create_session())?;
    let is_connected = reads(&stream, connected(dialect))?;
    writes(&stream, get())?;
    Ok(reads(&stream, got_with_session())? && is_asked && is_connected)
}

// The leader's thread: it takes one observer, leads it, and leaves when a client has read the node.
fn lead_one<R: Net<Stream = TcpStream>>(
    rt: &R,
    listener: TcpListener,
    port: u16,
    dialect: Dialect,
) -> bool {
    let Ok((stream, _)) = listener.accept() else {
        return false;
    };
    let is_led = lead(&stream).unwrap_or(false);
    is_led && ask(rt, &stream, port, dialect).unwrap_or(false)
}

// Serves a leader and a client, as the words ask. Returns the exit status, and whether both got what they expected.
fn serve_one<
    R: Threads
        + Wait
        + Net<Stream = TcpStream, Listener = TcpListener>
        + Clock
        + Files<File = File>
        + RandomSource
        + Env
        + Eprint
        + Copy
        + Send
        + Sync
        + 'static,
>(rt: &R, alloc: Global, words: &str) -> Result<(u8, bool), Fail> {
    let leading = TcpListener::bind(rt, (Ipv4Addr::LOCALHOST, 0))?;
    let leader_port = leading.local_addr()?.port();
    let any = SocketAddr::V4(SocketAddrV4::new(Ipv4Addr::LOCALHOST, 0));
    let serving = ClientListener::bind(rt, any)?;
    let port = serving.local_addr()?.port();
    let words = words_of(alloc, words)?;
    let Ok(Command::Serve(options)) = command_of(alloc, words.as_slice()) else {
        return Err(Fail::from("refused"));
    };
    let mine = *rt;
    let dialect = options.dialect;
    let leader = Builder::new()
        .stack_size(256 * 1024)
        .spawn(rt, move || lead_one(&mine, leading, port, dialect))?;
    let stream = TcpStream::connect(rt, (Ipv4Addr::LOCALHOST, leader_port))?;
    let status = serve_on(rt, alloc, &options, stream, serving);
    Ok((status, leader.join(rt)))
}

// The words of a line.
fn words_of(alloc: Global, line: &str) -> Result<Vec<String>, Fail> {
    let mut words = Vec::new(alloc);
    for word in line.split_ascii_whitespace() {
        words.push(String::from_str(alloc, word)?)?;
    }
    Ok(words)
}

#[test]
fn a_client_reads_what_the_leader_made(rt: HostRuntime) -> Result<(), Fail> {
    for words in [
        "--leader 1 --client 0 --counter 0",
        "--leader 1 --client 0 --counter 0 --dialect 3.4 --workers 1 --batch 1 --max-clients 1",
    ] {
        let (status, is_right) = serve_one(&rt, rt.alloc(), words)?;
        assert!(rt; is_right, "{words}");
        assert_eq!(rt; status, 0, "{words}");
    }
    Ok(())
}
