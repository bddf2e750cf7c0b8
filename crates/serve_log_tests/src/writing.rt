//! Lines that are logged and written, into memory.

use log::{LevelFilter, debug, info, warn};
use serve_log::{Done, OpenLog, join_in_time, open_log, write_log};
use serve_options::LogFormat;
use std::alloc::Global;
use std::fmt::Display;
use std::sync::{Arc, Mutex, Wait};
use std::test::Fail;
use std::thread::Threads;
use std::time::Clock;
use std::{io, thread};

// A standard error that is read into memory.
#[derive(Drop)]
struct Memory<R> {
    rt: R,
    alloc: Global,
    text: Arc<Mutex<String>, Global>,
}

impl<R: Wait> Eprint for Memory<R> {
    fn eprint<D: Display + Drop>(&self, value: D) -> io::Result<()> {
        let shown = format!(in self.alloc; "{value}")?;
        self.text.lock(&self.rt).push_str(shown.as_str())?;
        Ok(())
    }

    fn eprintln<D: Display + Drop>(&self, value: D) -> io::Result<()> {
        let shown = format!(in self.alloc; "{value}\n")?;
        self.text.lock(&self.rt).push_str(shown.as_str())?;
        Ok(())
    }
}

// Logs before the lines are written, and so many lines more than wait. Returns what was written.
fn written<R: Threads + Wait + Clock + Copy + Send + Sync + 'static>(
    rt: &R,
    alloc: Global,
    format: LogFormat,
    more: u32,
) -> Result<String, Fail> {
    let text = Arc::new(alloc, Mutex::new(String::new(alloc)))?;
    let memory = Memory {
        rt: *rt,
        alloc,
        text: Arc::try_clone(&text)?,
    };
    let OpenLog {
        logger,
        writer,
        end,
    } = open_log(rt, alloc, LevelFilter::Info, format, false)?;
    info!(logger; target: "start", "\"1\"");
    debug!(logger; target: "client", "not shown");
    for number in 0..more {
        warn!(logger; target: "hub", "{number}");
    }
    let mine = *rt;
    let writing = thread::spawn(rt, move || write_log(&mine, &memory, writer))?;
    drop(logger);
    end.finish(rt, writing);
    let text = text.lock(rt).clone()?;
    Ok(text)
}

#[test]
fn lines_are_written_in_words_and_as_json(rt: HostRuntime) -> Result<(), Fail> {
    let text = written(&rt, rt.alloc(), LogFormat::Text, 1)?;
    assert_eq!(rt; text.as_str(), "INFO  start \"1\"\nWARN  hub 0\n");
    let json = written(&rt, rt.alloc(), LogFormat::Json, 0)?;
    assert_eq!(rt;
        json.as_str(),
        "{\"level\":\"INFO\",\"target\":\"start\",\"msg\":\"\\\"1\\\"\"}\n"
    );
    Ok(())
}

#[test]
fn dropped_lines_are_told(rt: HostRuntime) -> Result<(), Fail> {
    let text = written(&rt, rt.alloc(), LogFormat::Text, 1025)?;
    let last =
        "WARN  hub 1022\nWARN  log 2 lines were dropped: standard error wasn't read, or memory was refused\n";
    assert!(rt; text.as_str().ends_with(last));
    assert_eq!(rt; text.as_str().lines().count(), 1025);
    Ok(())
}

// Starts a thread, and waits for what it says of itself.
fn waits<R: Threads + Clock>(rt: &R, alloc: Global, says: bool) -> Result<bool, Fail> {
    let done = Arc::new(alloc, Done::new())?;
    let theirs = Arc::try_clone(&done)?;
    let thread = thread::spawn(rt, move || {
        if says {
            theirs.set();
        }
    })?;
    Ok(join_in_time(rt, thread, &done))
}

#[test]
fn a_thread_is_waited_for_in_time(rt: HostRuntime) -> Result<(), Fail> {
    assert!(rt; waits(&rt, rt.alloc(), true)?);
    assert!(rt; !waits(&rt, rt.alloc(), false)?);
    Ok(())
}
