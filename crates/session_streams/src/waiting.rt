//! A socket with a reader that waits.

ghost use Rattle.std.specs.Io.{ReadsAtMost};

use crate::bell::Bell;
use connection_loop::{Close, Rest};
use mio::net::TcpStream;
use mio::{Events, Interest, Poll, Token, Waker};
use std::alloc::Global;
use std::io;
use std::io::{ErrorKind, Read, Write};
use std::net::{Net, Shutdown};
use std::sync::Arc;
use std::time::Duration;

const SOCKET: usize = 0;

const BELL: usize = 1;

/// The reader of a socket. If nothing can be read, `read` returns `WouldBlock`, and `rest` waits until the socket can be
/// read or written or the bell is rung.
///
/// Once the bell says that the session is to end, `read` returns 0, the end of the stream; `rest` fails with
/// `ConnectionAborted` if no thread takes what the session sends any more.
pub struct Waiting {
    stream: Arc<TcpStream, Global>,
    poll: Poll,
    events: Events,
    bell: Arc<Bell, Global>,
    // A read may return something.
    ready: bool,
    // The peer has closed its side, so a short read isn't the last one.
    ended: bool,
}

/// The writer of a socket. When it is dropped the socket is shut down, both ways.
pub struct Writing {
    stream: Arc<TcpStream, Global>,
    bell: Arc<Bell, Global>,
}

impl Drop for Waiting {
    fn drop(self) {
        let Waiting {
            stream,
            poll,
            events,
            bell,
            ready: _,
            ended: _,
        } = self;
        drop(poll);
        drop(events);
        drop(bell);
        drop(stream);
    }
}

impl Drop for Writing {
    fn drop(self) {
        let Writing { stream, bell } = self;
        let _ = stream.shutdown(Shutdown::Both);
        drop(stream);
        drop(bell);
    }
}

/// The two sides of a socket, and the bell of its reader.
#[derive(Drop)]
pub struct Sides {
    pub reader: Waiting,
    pub writer: Writing,
    pub bell: Arc<Bell, Global>,
}

/// Splits a socket into its sides.
pub fn split(net: &impl Net, alloc: Global, stream: TcpStream) -> io::Result<Sides> {
    let mut stream = stream;
    let poll = Poll::new(net)?;
    let interest = Interest::READABLE | Interest::WRITABLE;
    poll.registry()
        .register(&mut stream, Token(SOCKET), interest)?;
    let waker = Waker::new(poll.registry(), Token(BELL))?;
    let events = Events::with_capacity(alloc, 4)?;
    let bell = Arc::new(alloc, Bell::new(waker))?;
    let stream = Arc::new(alloc, stream)?;
    let writer = Writing {
        stream: Arc::try_clone(&stream)?,
        bell: Arc::try_clone(&bell)?,
    };
    let reader = Waiting {
        stream,
        poll,
        events,
        bell: Arc::try_clone(&bell)?,
        ready: true,
        ended: false,
    };
    Ok(Sides {
        reader,
        writer,
        bell,
    })
}

impl Waiting {
    // Waits up to `longest` milliseconds, and not at all if the bell was rung.
    fn wait(&mut self, longest: u64) -> io::Result<()> {
        let most = if self.bell.begin_wait() { longest } else { 0 };
        let polled = self
            .poll
            .poll(&mut self.events, Some(Duration::from_millis(most)));
        self.bell.end_wait();
        polled?;
        for event in self.events.iter() {
            if event.token() == Token(SOCKET) {
                self.ready = true;
                if event.is_read_closed() || event.is_error() {
                    self.ended = true;
                }
            }
        }
        Ok(())
    }

    // Reads what is there.
    fn read_now(&mut self, buf: &mut [u8]) -> io::Result<usize>
        ensures { ReadsAtMost result buf.new }
    {
        let room = buf.len();
        match (&*self.stream).read(buf) {
            Ok(count) => {
                if count < room && !self.ended {
                    self.ready = false;
                }
                Ok(count)
            }
            Err(error) => {
                if error.kind() == ErrorKind::WouldBlock {
                    self.ready = false;
                }
                Err(error)
            }
        }
    }
}

impl Read for Waiting {
    fn read(&mut self, buf: &mut [u8]) -> io::Result<usize> {
        if self.bell.is_stopped() {
            return Ok(0);
        }
        if !self.ready {
            return Err(io::Error::from(ErrorKind::WouldBlock));
        }
        self.read_now(buf)
    }
}

impl Rest for Waiting {
    fn rest(&mut self, longest: u64) -> io::Result<()> {
        self.wait(longest)?;
        if self.bell.is_abandoned() {
            return Err(io::Error::from(ErrorKind::ConnectionAborted));
        }
        Ok(())
    }

    fn is_hurried(&self) -> bool {
        self.bell.is_hurried()
    }
}

impl Write for Writing {
    fn write(&mut self, buf: &[u8]) -> io::Result<usize> {
        match (&*self.stream).write(buf) {
            Ok(count) => Ok(count),
            Err(error) => {
                // At the end the writer doesn't wait for a peer that doesn't read.
                if error.kind() == ErrorKind::WouldBlock && self.bell.is_stopped() {
                    return Err(io::Error::from(ErrorKind::BrokenPipe));
                }
                Err(error)
            }
        }
    }

    fn flush(&mut self) -> io::Result<()> {
        Ok(())
    }
}

impl Close for Writing {
    fn close(self) {
        drop(self);
    }
}
