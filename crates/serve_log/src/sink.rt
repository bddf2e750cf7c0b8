//! Where the log is written to.

ghost use Rattle.std.specs.Prelude.{Some, true, []};

use crate::line::Line;
use crate::queue::LineQueue;
use crate::time::{Stamp, stamp_now};
use crate::writer::{LogEnd, LogWriter};
use log::kv::Source;
use log::span::Spans;
use log::{LevelFilter, Log, Logged, Metadata, Record};
use serve_options::LogFormat;
use std::alloc::{AllocError, Global};
use std::cell::RefCell;
use std::env::FillError;
use std::fmt::Display;
use std::rt::{Clock, Env};
use std::sync::Arc;

/// Makes a line of each record, and puts it into a queue. It never waits.
#[derive(Drop)]
pub struct Sink<R> {
    rt: R,
    alloc: Global,
    format: LogFormat,
    has_time: bool,
    queue: RefCell<LineQueue>,
}

impl<R: Clock> Sink<R> {
    // The time of a line that is logged now, if it is shown, and if the clock can be read.
    fn time(&self) -> Option<Stamp> {
        if !self.has_time {
            return None;
        }
        stamp_now(&self.rt)
    }

    // Puts a line, if it could be made.
    fn take(&self, made: Result<String, AllocError>, time: Option<Stamp>) {
        // Nobody else has borrowed it: no call from here logs.
        let Ok(mut queue) = self.queue.try_borrow_mut() else {
            return;
        };
        match made {
            Ok(line) => {
                queue.put(line, time);
            }
            Err(_) => queue.miss(time),
        }
    }
}

fn text_of<D: Display>(alloc: Global, value: &D) -> Result<String, AllocError> {
    format!(in alloc; "{value}")
}

impl<R: Clock> Log for Sink<R> {
    ghost enables = { λ _ _ _. Some true };

    ghost target_of = { λ _. Some [] };

    fn enabled(&self, _metadata: &Metadata<'_>) -> bool {
        true
    }

    fn log<D: Display, K: Source, S: Spans>(&self, record: &Record<'_, D, K, S>) {
        let time = self.time();
        let line = Line {
            format: self.format,
            time: &time,
            level: record.level(),
            target: record.target(),
            message: record.args(),
        };
        let made = text_of(self.alloc, &line);
        self.take(made, time);
    }

    fn flush(&self) {}

    fn target(&self) -> &str {
        ""
    }
}

/// A log that is open: a logger, the state of the thread that is to write what is logged, and its end.
#[derive(Drop)]
pub struct OpenLog<R> {
    pub logger: Logged<R, Sink<R>>,
    pub writer: LogWriter,
    pub end: LogEnd,
}

/// Opens a log of the records up to a level. Each line has the time in front, where it is asked for. Fails only if an
/// allocation is refused.
pub fn open_log<R: Clock + Copy>(
    rt: &R,
    alloc: Global,
    most: LevelFilter,
    format: LogFormat,
    has_time: bool,
) -> Result<OpenLog<R>, AllocError> {
    let (queue, lines) = LineQueue::new(alloc)?;
    let end = LogEnd(Arc::try_clone(&lines.backlog)?);
    let sink = Sink {
        rt: *rt,
        alloc,
        format,
        has_time,
        queue: RefCell::new(queue),
    };
    Ok(OpenLog {
        logger: Logged::new(*rt, most, sink),
        writer: LogWriter { lines, format },
        end,
    })
}

/// Whether standard error goes to systemd's journal, which notes the time itself: it sets the variable JOURNAL_STREAM.
pub fn has_journal<R: Env>(rt: &R) -> bool {
    let mut value = [0u8; 1];
    !matches!(
        rt.var("JOURNAL_STREAM", &mut value),
        Err(FillError::NotPresent)
    )
}
