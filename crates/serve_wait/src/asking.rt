//! One try: a server is asked whether it serves clients.

ghost use Rattle.std.specs.Prelude.{◌≡◌, ◌≢◌, IfSome, IfOk, IsErr, Ok};
ghost use Rattle.std.specs.IoError.{error_kind};
ghost use Rattle.serve_wait.specs.Answer.{IsNextByte, is_serving_answer};

use crate::command::WaitCommand;
use crate::deadline::{Deadline, try_limit};
use crate::ending::Obstacle;
use std::io;
use std::io::{ErrorKind, Read, Write};
use std::net::{Net, OpenStream, SocketAddr, TcpStream, ToSocketAddrs};
use std::time::{Clock, Duration};
use values::NoMemory;

// The four-letter word that a server answers by whether it serves clients.
const WORD: &[u8] = b"isro";

// Reads the next byte of an answer; None at its end.
fn next_byte<S: Read + OpenStream, R: Clock>(
    rt: &R,
    stream: &mut S,
    until: Deadline,
) -> io::Result<Option<u8>>
    ensures { IfOk result (λ next. IsNextByte (S.remaining stream.old) (S.remaining stream.new) next) }
{
    let left = until.left(rt);
    if left == 0 {
        return Err(io::Error::from(ErrorKind::TimedOut));
    }
    stream.set_read_timeout(Some(Duration::from_millis(left)))?;
    let mut byte = [0];
    if stream.read(&mut byte)? == 0 {
        return Ok(None);
    }
    Ok(Some(byte[0]))
}

// Reads an answer, until it can't be that of a server that serves clients, or to its end. Returns whether it is.
fn read_answer<S: Read + OpenStream, R: Clock>(
    rt: &R,
    stream: &mut S,
    until: Deadline,
) -> io::Result<bool>
    ensures { IfOk result (λ is_serving.
        IfSome (S.remaining stream.old) (λ answer. is_serving ≡ is_serving_answer answer)) }
{
    match next_byte(rt, stream, until)? {
        Some(b'r') => {}
        _ => return Ok(false),
    }
    match next_byte(rt, stream, until)? {
        Some(b'w') => {}
        _ => return Ok(false),
    }
    match next_byte(rt, stream, until)? {
        None => Ok(true),
        Some(_) => Ok(false),
    }
}

// Says the word, and reads the answer. The word has room in the buffer of a new connection, so that it is sent at once.
fn ask<S: Read + Write + OpenStream, R: Clock>(
    rt: &R,
    stream: &mut S,
    until: Deadline,
) -> io::Result<bool> {
    stream.write_all(WORD)?;
    read_answer(rt, stream, until)
}

// The obstacle that a failed step is, unless memory was refused.
fn obstacle_of(error: &io::Error, obstacle: Obstacle) -> Result<Obstacle, NoMemory>
    ensures no_memory { error_kind error.now ≡ ErrorKind.OutOfMemory → IsErr result }
    ensures obstacle { error_kind error.now ≢ ErrorKind.OutOfMemory → result ≡ Ok obstacle }
{
    if error.kind() == ErrorKind::OutOfMemory {
        return Err(NoMemory);
    }
    Ok(obstacle)
}

// Asks at an address. Returns what was in the way, or None if the server serves clients.
fn ask_at<R: Net + Clock>(
    rt: &R,
    address: &SocketAddr,
    time: Deadline,
) -> Result<Option<Obstacle>, NoMemory> {
    let limit = try_limit(time.left(rt));
    if limit == 0 {
        return Ok(Some(Obstacle::NoConnection));
    }
    let mut stream = match TcpStream::connect_timeout(rt, address, Duration::from_millis(limit)) {
        Ok(stream) => stream,
        Err(error) => return Ok(Some(obstacle_of(&error, Obstacle::NoConnection)?)),
    };
    let until = Deadline::new(rt, try_limit(time.left(rt)));
    match ask(rt, &mut stream, until) {
        Ok(true) => Ok(None),
        Ok(false) => Ok(Some(Obstacle::NotServing)),
        Err(error) => Ok(Some(obstacle_of(&error, Obstacle::NoAnswer)?)),
    }
}

/// Asks the server at each of its addresses. Returns what was in the way at the last, or None if it serves clients.
pub(crate) fn ask_server<R: Net + Clock>(
    rt: &R,
    command: &WaitCommand<'_>,
    time: Deadline,
) -> Result<Option<Obstacle>, NoMemory> {
    let found = match (command.host.as_str(), command.port).to_socket_addrs(rt) {
        Ok(found) => found,
        Err(error) => return Ok(Some(obstacle_of(&error, Obstacle::UnknownName)?)),
    };
    let mut last = Obstacle::UnknownName;
    for address in found {
        match ask_at(rt, &address, time)? {
            Some(obstacle) => last = obstacle,
            None => return Ok(None),
        }
    }
    Ok(Some(last))
}
