//! The lines of the log.

use crate::escape::Quoted;
use crate::time::Stamp;
use log::Level;
use serve_options::LogFormat;
use std::fmt;

// A level in five columns.
fn column_of(level: Level) -> &'static str {
    match level {
        Level::Error => "ERROR",
        Level::Warn => "WARN ",
        Level::Info => "INFO ",
        Level::Debug => "DEBUG",
        Level::Trace => "TRACE",
    }
}

/// Shows a record of the log as a line: of words, or as an object of JSON. Spans and key-values aren't shown, since nothing
/// here logs with them.
#[derive(Clone, Copy)]
pub struct Line<'a, D> {
    pub format: LogFormat,
    /// When it was logged, unless that isn't shown.
    pub time: &'a Option<Stamp>,
    pub level: Level,
    pub target: &'a str,
    pub message: &'a D,
}

impl<'a, D: fmt::Display> Line<'a, D> {
    fn put_words<W: fmt::Write>(&self, f: &mut fmt::Formatter<W>) -> fmt::Result {
        if let Some(time) = self.time {
            write!(f, "{time} ")?;
        }
        let level = column_of(self.level);
        let target = self.target;
        write!(f, "{level} {target} ")?;
        f.write(self.message)
    }

    fn put_json<W: fmt::Write>(&self, f: &mut fmt::Formatter<W>) -> fmt::Result {
        f.write_str("{")?;
        if let Some(time) = self.time {
            write!(f, "\"ts\":\"{time}\",")?;
        }
        let level = self.level;
        let target = Quoted(&self.target);
        let message = Quoted(self.message);
        write!(
            f,
            "\"level\":\"{level}\",\"target\":{target},\"msg\":{message}"
        )?;
        f.write_str("}")
    }
}

impl<'a, D: fmt::Display> fmt::Display for Line<'a, D> {
    fn fmt<W: fmt::Write>(&self, f: &mut fmt::Formatter<W>) -> fmt::Result {
        match self.format {
            LogFormat::Text => self.put_words(f),
            LogFormat::Json => self.put_json(f),
        }
    }
}
