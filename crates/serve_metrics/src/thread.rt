//! The thread, for the server.

use crate::scraping::{ScrapeDoor, Scraping, answer_scrapers, open_scraping};
use mio::net::TcpListener;
use server_tally::Tally;
use std::alloc::Global;
use std::fs::File;
use std::io;
use std::net::Net;
use std::random::RandomSource;
use std::sync::{Arc, Wait};
use std::thread::{Builder, JoinHandle, Threads};
use std::time::Clock;

// The stack of the thread, in bytes.
const STACK: usize = 256 * 1024;

/// The thread, if there is one.
#[derive(Drop)]
pub struct ScrapeThread {
    running: Option<(JoinHandle<()>, Arc<ScrapeDoor, Global>)>,
}

impl ScrapeThread {
    /// Ends the thread.
    pub fn end<R: Threads>(self, rt: &R) {
        if let Some((handle, door)) = self.running {
            door.stop();
            handle.join(rt);
        }
    }
}

/// Starts the thread, if there is a listener for it. `status` is an open `STATUS`, from which it reads how much memory
/// the process has. The leader of a healthy server may be silent for `limit`
/// milliseconds; 0: for any time.
pub fn start_scraping<R: Threads + Wait + Net + Clock + RandomSource + Copy + Send + 'static>(
    rt: &R,
    alloc: Global,
    listener: Option<TcpListener>,
    tally: &Arc<Tally, Global>,
    status: Option<File>,
    limit: u64,
) -> io::Result<ScrapeThread> {
    let Some(listener) = listener else {
        return Ok(ScrapeThread { running: None });
    };
    let tally = Arc::try_clone(tally)?;
    let Scraping { scraper, door } = open_scraping(rt, alloc, listener, tally, status, limit)?;
    let mine = *rt;
    let handle = Builder::new()
        .stack_size(STACK)
        .spawn(rt, move || answer_scrapers(&mine, scraper))?;
    Ok(ScrapeThread {
        running: Some((handle, door)),
    })
}
