//! The thread that writes the log.

use crate::backlog::Backlog;
use crate::ending::join_in_time;
use crate::line::Line;
use crate::queue::{Dropped, Item, WaitingLines};
use log::Level;
use serve_options::LogFormat;
use std::alloc::Global;
use std::fmt;
use std::sync::{Arc, Wait};
use std::thread::{JoinHandle, Threads};
use std::time::Clock;

// What is told of so many lines that were dropped.
#[derive(Clone, Copy)]
struct DroppedLines(u64);

impl fmt::Display for DroppedLines {
    fn fmt<W: fmt::Write>(&self, f: &mut fmt::Formatter<W>) -> fmt::Result {
        let count = self.0;
        write!(
            f,
            "{count} lines were dropped: standard error wasn't read, or memory was refused"
        )
    }
}

/// The state of the thread that writes the log.
#[derive(Drop)]
pub struct LogWriter {
    pub(crate) lines: WaitingLines,
    pub(crate) format: LogFormat,
}

impl LogWriter {
    // Writes a line, or what is told of dropped ones. What can't be written is dropped.
    fn write<W: Eprint>(&self, to: &W, item: Item) {
        let _ = match item {
            Item::Line(line) => to.eprintln(line.as_str()),
            Item::Dropped(dropped) => {
                let Dropped { count, time } = dropped;
                let message = DroppedLines(count);
                to.eprintln(Line {
                    format: self.format,
                    time: &time,
                    level: Level::Warn,
                    target: "log",
                    message: &message,
                })
            }
        };
    }
}

/// Writes the lines that are put, each by one call, until the log is closed and all are written, or until it is given up.
pub fn write_log<R: Wait, W: Eprint>(rt: &R, to: &W, writer: LogWriter) {
    let mut writer = writer;
    for _ in rt.forever() {
        if writer.lines.backlog.is_given_up() {
            break;
        }
        let is_closed = writer.lines.backlog.is_closed();
        match writer.lines.next() {
            Some(item) => writer.write(to, item),
            None if is_closed => break,
            None => writer.lines.backlog.wait(rt),
        }
    }
    writer.lines.backlog.done.set();
}

/// The end of a log, for the one who has started the thread that writes it.
#[derive(Drop)]
pub struct LogEnd(pub(crate) Arc<Backlog, Global>);

impl LogEnd {
    /// Waits until all lines are written, once the logger was dropped, and joins the thread; but after 500 milliseconds
    /// it gives up what still waits, and leaves the thread to itself.
    pub fn finish<R: Threads + Clock>(&self, rt: &R, thread: JoinHandle<()>) {
        self.0.close();
        if !join_in_time(rt, thread, &self.0.done) {
            self.0.give_up();
        }
    }
}
