//! The log of a server: lines on standard error, with a time and a level, and how often some of them are written.
//!
//! Who logs never waits. A line is put into a queue, from which a thread writes it; where the queue is full, since nobody
//! reads standard error, it is dropped and counted, and the log says so when there is room again.
//!
//! ```text
//! let OpenLog { logger, writer, end } = open_log(rt, alloc, LevelFilter::Warn, LogFormat::Text, true)?;
//! let writing = thread::spawn(rt, move || write_log(&mine, &mine, writer));
//! warn!(logger; target: "leader", "zk3:2888 ended");
//! // 2026-11-27T02:31:44.120Z WARN  leader zk3:2888 ended
//! // {"ts":"2026-11-27T02:31:44.120Z","level":"WARN","target":"leader","msg":"zk3:2888 ended"}     as JSON
//! drop(logger);
//! end.finish(rt, writing);
//! ```
#![tactic(auto)]

mod backlog;
mod ending;
mod escape;
mod line;
mod pace;
mod queue;
mod sink;
mod time;
mod writer;

pub use ending::{Done, join_in_time};
pub use escape::Quoted;
pub use pace::{Pace, Refusals};
pub use queue::{Dropped, Item, LineQueue, WaitingLines};
pub use sink::{OpenLog, Sink, has_journal, open_log};
pub use writer::{LogEnd, LogWriter, write_log};
