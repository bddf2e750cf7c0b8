//! A stream whose reads and writes end in time.

use crate::scraping::ScrapeDoor;
use std::io;
use std::io::{ErrorKind, Read, Write};
use std::net::TcpStream;
use std::time::{Clock, Duration, Instant};

// How long a connection may last, in milliseconds.
const LIFE: u64 = 2000;

// How long one call waits, in milliseconds: the thread is told to end meanwhile, and looks no later than this.
const STEP: u64 = 100;

/// One side of a connection that ends when it has lasted for two seconds, or when the thread is to end.
#[derive(Drop)]
pub(crate) struct Timed<'a, T> {
    pub rt: &'a T,
    pub stream: &'a TcpStream,
    pub door: &'a ScrapeDoor,
    pub began: Option<Instant>,
}

// The call is only to be made again.
fn is_passing(error: &io::Error) -> bool {
    matches!(
        error.kind(),
        ErrorKind::WouldBlock | ErrorKind::TimedOut | ErrorKind::Interrupted
    )
}

impl<'a, T: Clock> Timed<'a, T> {
    // How long the next call may wait.
    fn left(&self) -> io::Result<Duration> {
        let gone = match (self.began, Instant::now(self.rt)) {
            (Some(began), Ok(now)) => {
                u64::try_from(now.duration_since(began).as_millis()).unwrap_or(u64::MAX)
            }
            _ => LIFE,
        };
        if gone >= LIFE || self.door.is_stopped() {
            return Err(ErrorKind::TimedOut.into());
        }
        Ok(Duration::from_millis(STEP))
    }
}

impl<'a, T: Clock> Read for Timed<'a, T> {
    fn read(&mut self, buf: &mut [u8]) -> io::Result<usize> {
        // Each step waits, so that there are no more than fit in the time.
        for _ in 0..LIFE {
            self.stream.set_read_timeout(Some(self.left()?))?;
            match (&mut &*self.stream).read(buf) {
                Err(error) if is_passing(&error) => {}
                done => return done,
            }
        }
        Err(ErrorKind::TimedOut.into())
    }
}

impl<'a, T: Clock> Write for Timed<'a, T> {
    fn write(&mut self, buf: &[u8]) -> io::Result<usize> {
        for _ in 0..LIFE {
            self.stream.set_write_timeout(Some(self.left()?))?;
            match (&mut &*self.stream).write(buf) {
                Err(error) if is_passing(&error) => {}
                done => return done,
            }
        }
        Err(ErrorKind::TimedOut.into())
    }

    fn flush(&mut self) -> io::Result<()> {
        Ok(())
    }
}
