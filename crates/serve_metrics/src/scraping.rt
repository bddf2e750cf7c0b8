//! The thread.

use crate::memory::resident_memory;
use crate::service::Pages;
use crate::timed::Timed;
use http_server::{Config, Connection, serve};
use mio::net::TcpListener;
use mio::{Events, Interest, Poll, Token, Waker};
use server_tally::Tally;
use std::alloc::Global;
use std::fs::File;
use std::hash::RandomState;
use std::io::ErrorKind;
use std::net::{Net, TcpStream};
use std::random::RandomSource;
use std::sync::atomic::{AtomicBool, Ordering};
use std::sync::{Arc, Wait};
use std::time::{Clock, Duration, Instant};
use std::{io, thread};

const LISTENER: usize = 0;

const STOP: usize = 1;

// The longest wait for a connection, in milliseconds; a wake that is lost costs no more than this.
const LONGEST_WAIT: u64 = 1000;

// The pause when the system has no descriptor left, in milliseconds.
const PAUSE: u64 = 100;

// The longest head of a request, and the longest body, in bytes. No page looks at a body.
const LONGEST: usize = 4096;

/// What ends the thread.
#[derive(Drop)]
pub(crate) struct ScrapeDoor {
    stopped: AtomicBool,
    waker: Waker,
}

impl ScrapeDoor {
    /// Ends the thread.
    pub fn stop(&self) {
        self.stopped.store(true, Ordering::SeqCst);
        // If the waker fails, the thread stops after its longest wait.
        let _ = self.waker.wake();
    }

    pub(crate) fn is_stopped(&self) -> bool {
        self.stopped.load(Ordering::SeqCst)
    }
}

/// The state of the thread.
pub(crate) struct Scraper {
    listener: TcpListener,
    poll: Poll,
    events: Events,
    door: Arc<ScrapeDoor, Global>,
    tally: Arc<Tally, Global>,
    status: Option<File>,
    alloc: Global,
    // By which the headers of requests are found.
    keys: RandomState,
    limit: u64,
}

impl Drop for Scraper {
    fn drop(self) {
        let Scraper {
            listener,
            poll,
            events,
            door,
            tally,
            status,
            alloc: _,
            keys: _,
            limit: _,
        } = self;
        drop(poll);
        drop(listener);
        drop(events);
        drop(door);
        drop(tally);
        drop(status);
    }
}

/// The state of the thread, and what ends it.
pub(crate) struct Scraping {
    pub scraper: Scraper,
    pub door: Arc<ScrapeDoor, Global>,
}

/// Prepares to answer from this tally. `status` is where the system tells of the process. The leader of a healthy server may be silent for `limit` milliseconds.
pub(crate) fn open_scraping<R: Net + RandomSource>(
    rt: &R,
    alloc: Global,
    listener: TcpListener,
    tally: Arc<Tally, Global>,
    status: Option<File>,
    limit: u64,
) -> io::Result<Scraping> {
    let mut listener = listener;
    let poll = Poll::new(rt)?;
    poll.registry()
        .register(&mut listener, Token(LISTENER), Interest::READABLE)?;
    let waker = Waker::new(poll.registry(), Token(STOP))?;
    let events = Events::with_capacity(alloc, 4)?;
    let door = Arc::new(
        alloc,
        ScrapeDoor {
            stopped: AtomicBool::new(false),
            waker,
        },
    )?;
    let scraper = Scraper {
        listener,
        poll,
        events,
        door: Arc::try_clone(&door)?,
        tally,
        status,
        alloc,
        keys: RandomState::new(rt)?,
        limit,
    };
    Ok(Scraping { scraper, door })
}

fn config() -> Config {
    let mut config = Config::default();
    config.limits.max_head_len = LONGEST;
    config.limits.max_extensions_len = LONGEST;
    config.limits.max_trailers_len = LONGEST;
    config.max_body_len = LONGEST;
    config
}

impl Scraper {
    // Answers the request of a connection.
    fn answer<T: Clock + Wait>(&mut self, rt: &T, stream: &TcpStream) -> io::Result<()> {
        stream.set_nonblocking(false)?;
        let memory = match &mut self.status {
            None => None,
            Some(status) => resident_memory(self.alloc, status),
        };
        let began = Instant::now(rt).ok();
        let door = &*self.door;
        let mut reader = Timed {
            rt,
            stream,
            door,
            began,
        };
        let mut writer = Timed {
            rt,
            stream,
            door,
            began,
        };
        let mut pages = Pages {
            rt,
            alloc: self.alloc,
            tally: &*self.tally,
            memory,
            limit: self.limit,
        };
        let mut connection = Connection::new(self.alloc, self.keys, config());
        serve(&mut connection, &mut pages, &mut reader, &mut writer)
    }

    // Answers the next connection, or waits for one.
    fn answer_next<T: Clock + Wait>(&mut self, rt: &T) {
        match self.listener.accept() {
            Ok((stream, _)) => {
                let stream = TcpStream::from(stream);
                // A peer that goes away, or is too slow, gets no answer.
                let _ = self.answer(rt, &stream);
            }
            Err(error) => match error.kind() {
                ErrorKind::WouldBlock => self.wait(),
                ErrorKind::Interrupted | ErrorKind::ConnectionAborted => {}
                // For example, no descriptor is left.
                _ => thread::sleep(rt, Duration::from_millis(PAUSE)),
            },
        }
    }

    fn wait(&mut self) {
        // If the wait fails, the next call accepts the connections for which it would have waited.
        let _ = self.poll.poll(&mut self.events, Some(Duration::from_millis(LONGEST_WAIT)));
    }
}

/// Answers connections, one at a time, until it is told to stop.
pub(crate) fn answer_scrapers<T: Clock + Wait>(rt: &T, scraper: Scraper) {
    let mut scraper = scraper;
    for _ in rt.forever() {
        if scraper.door.is_stopped() {
            return;
        }
        scraper.answer_next(rt);
    }
}
