//! The log of a server, and its last words, which nobody need read for the server to end.

use log::Logged;
use serve_failures::Failure;
use serve_journal::Journal;
use serve_log::{Done, LogEnd, OpenLog, Sink, has_journal, join_in_time, open_log, write_log};
use serve_options::Options;
use std::alloc::Global;
use std::rt::Env;
use std::sync::{Arc, Wait};
use std::thread;
use std::thread::{Builder, JoinHandle, SpawnError, Threads};
use std::time::Clock;

// The stack of the thread that writes the log, in bytes.
const STACK: usize = 128 * 1024;

/// A journal, and the thread that writes it to standard error.
#[derive(Drop)]
pub struct Logging<R> {
    pub journal: Journal<Logged<R, Sink<R>>>,
    pub thread: JoinHandle<()>,
    pub end: LogEnd,
}

/// Opens the log, and starts the thread that writes it.
pub(crate) fn start_logging<
    R: Threads + Wait + Clock + Env + Eprint + Copy + Send + Sync + 'static,
>(rt: &R, alloc: Global, options: &Options<'_>) -> Result<Logging<R>, Failure> {
    let OpenLog {
        logger,
        writer,
        end,
    } = open_log(rt, alloc, options.log, options.log_format, !has_journal(rt))?;
    let mine = *rt;
    let thread = Builder::new()
        .stack_size(STACK)
        .name(String::from_str(alloc, "log")?)
        .spawn(rt, move || write_log(&mine, &mine, writer));
    match thread {
        Ok(thread) => Ok(Logging {
            journal: Journal::new(alloc, logger),
            thread,
            end,
        }),
        Err(_) => Err(Failure::NoThread),
    }
}

/// Says on standard error why the server ends, and returns the exit status. Where standard error isn't read, that is
/// waited for no longer than 500 milliseconds.
pub fn tell<R: Threads + Wait + Clock + Eprint + Copy + Send + Sync + 'static>(
    rt: &R,
    alloc: Global,
    failure: Failure,
) -> u8 {
    let status = failure.status();
    let Ok(done) = Arc::new(alloc, Done::new()) else {
        return failure.tell(rt);
    };
    let Ok(theirs) = Arc::try_clone(&done) else {
        return failure.tell(rt);
    };
    let mine = *rt;
    let telling = thread::spawn(rt, move || {
        failure.tell(&mine);
        theirs.set();
    });
    match telling {
        Ok(thread) => {
            join_in_time(rt, thread, &done);
        }
        Err(SpawnError { value: tell }) => tell(),
    }
    status
}
