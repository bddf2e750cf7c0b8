//! The threads of connections.

use connection_loop::{LeaderGone, ReadsAhead, SessionLimits, leader_loop};
use intake::{Port, PortEnd};
use mio::net::TcpStream;
use serve_clients::client_loop;
use serve_door::First;
use server_tally::ClientTally;
use session_streams::{Bell, Sides, split};
use std::alloc::Global;
use std::net::{IpAddr, Net};
use std::sync::{Arc, Mutex, Wait};
use std::thread::{Builder, JoinHandle, Threads};
use std::time::Clock;
use std::{io, net};
use values::Text;

// The stack of a connection's thread, in bytes.
const STACK: usize = 128 * 1024;

/// The thread of a client's connection.
#[derive(Drop)]
pub struct Client {
    pub handle: JoinHandle<Option<PortEnd>>,
    pub bell: Arc<Bell, Global>,
    pub address: IpAddr,
    /// The watches that it had after the last turn that told it something.
    pub watches: u64,
}

/// The thread of the leader's connection.
#[derive(Drop)]
pub struct Leader {
    pub handle: JoinHandle<Option<LeaderGone>>,
    pub bell: Arc<Bell, Global>,
}

/// A port that is handed to its thread. If no thread can be started, the port is still in here.
pub type Handed = Arc<Mutex<Option<Port>>, Global>;

/// Starts the thread of the leader's connection.
pub(crate) fn start_leader<R: Threads + Wait + Net + Clock + Copy + Send + 'static>(
    rt: &R,
    alloc: Global,
    stream: net::TcpStream,
    handed: Handed,
) -> io::Result<Leader> {
    stream.set_nonblocking(true)?;
    let sides = split(rt, alloc, TcpStream::from_std(stream))?;
    let Sides {
        reader,
        writer,
        bell,
    } = sides;
    let mine = *rt;
    let handle = Builder::new().stack_size(STACK).spawn(rt, move || {
        let port = handed.lock(&mine).take();
        match port {
            Some(port) => Some(leader_loop(&mine, alloc, reader, writer, port)),
            None => None,
        }
    })?;
    Ok(Leader { handle, bell })
}

/// A client's connection before it has a thread.
#[derive(Drop)]
pub struct Newcomer {
    pub address: IpAddr,
    /// The text of the address.
    pub text: Text,
    pub first: First,
    /// For how many milliseconds it has been connected.
    pub waited: u64,
    pub tally: ClientTally,
}

/// Starts the thread of a client's connection.
pub(crate) fn start_client<R: Threads + Wait + Net + Clock + Copy + Send + 'static>(
    rt: &R,
    alloc: Global,
    sides: Sides,
    handed: Handed,
    newcomer: Newcomer,
    limits: SessionLimits,
    ahead: Arc<ReadsAhead, Global>,
) -> io::Result<Client> {
    let Sides {
        reader,
        writer,
        bell,
    } = sides;
    let Newcomer {
        address,
        text,
        first,
        waited,
        tally,
    } = newcomer;
    let mine = *rt;
    let handle = Builder::new().stack_size(STACK).spawn(rt, move || {
        let port = handed.lock(&mine).take();
        match port {
            Some(port) => {
                Some(client_loop(
                    &mine,
                    alloc,
                    reader,
                    writer,
                    port,
                    Some(text),
                    first,
                    waited,
                    limits,
                    ahead,
                    tally,
                ))
            }
            None => None,
        }
    })?;
    Ok(Client {
        handle,
        bell,
        address,
        watches: 0,
    })
}
