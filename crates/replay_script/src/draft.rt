//! A script, while its lines are read.

ghost use Rattle.std.specs.Prelude.{◌≡◌, Some, None, OnOk, IfOk, if◌then◌else◌};

use crate::event::{Line, ScriptEvent, Setting};
use crate::line::line_of;
use crate::script::{Script, Settings};
use settings::{Dialect, Epochs, FirstCounter, Secret, ServerId, TimeoutBounds};
use std::alloc::Global;
use std::marker::Model;
use values::{Listed, NoMemory};

/// The settings and events of the lines read so far.
#[derive(Drop)]
pub struct Draft {
    settings: Settings,
    events: Vec<ScriptEvent>,
}

impl Model for Draft {
    ghost use Rattle.replay_script.specs.Script.{PartialScript};

    ghost Value = { PartialScript };

    ghost view = { λ d. record { settings = d.settings; events = d.events.items } };
}

impl Settings {
    ghost use Rattle.std.specs.Prelude.{◌≡◌};
    ghost use Rattle.replay_script.specs.Script.{is_set, with_setting};

    fn is_kept(&self, setting: &Setting) -> bool
        ensures { result ≡ is_set setting.now self.now }
    {
        match setting {
            Setting::Server(_) => self.server.is_some(),
            Setting::Counter(_) => self.counter.is_some(),
            Setting::Epochs(_) => self.epochs.is_some(),
            Setting::Timeouts(_) => self.timeouts.is_some(),
            Setting::Secret(_) => self.secret.is_some(),
            Setting::Dialect(_) => self.dialect.is_some(),
            Setting::Super(_) => self.super_digest.is_some(),
            Setting::Primed => self.primed,
        }
    }

    fn set(&mut self, setting: Setting)
        ensures { self.new ≡ with_setting self.old setting }
    {
        match setting {
            Setting::Server(id) => self.server = Some(id),
            Setting::Counter(first) => self.counter = Some(first),
            Setting::Epochs(epochs) => self.epochs = Some(epochs),
            Setting::Timeouts(timeouts) => self.timeouts = Some(timeouts),
            Setting::Secret(secret) => self.secret = Some(secret),
            Setting::Dialect(dialect) => self.dialect = Some(dialect),
            Setting::Super(digest) => self.super_digest = Some(digest),
            Setting::Primed => self.primed = true,
        }
    }
}

impl Draft {
    ghost use Rattle.std.specs.Prelude.{◌≡◌, Some, None, OnOk, IfOk, if◌then◌else◌};
    ghost use Rattle.replay_script.specs.Script.{empty_script, is_line_allowed, with_line, with_text, script_with};

    /// No line was read.
    pub fn new(alloc: Global) -> Draft
        ensures { result ≡ empty_script }
    {
        Draft {
            settings: Settings {
                server: None,
                counter: None,
                epochs: None,
                timeouts: None,
                secret: None,
                dialect: None,
                super_digest: None,
                primed: false,
            },
            events: Vec::new(alloc),
        }
    }

    fn may_stand(&self, line: &Line) -> bool
        ensures { result ≡ is_line_allowed self.now line.now }
    {
        match line {
            Line::Header(setting) => self.events.is_empty() && !self.settings.is_kept(setting),
            Line::Blank | Line::Happening(_) => true,
        }
    }

    fn take(&mut self, line: Line) -> Result<(), NoMemory>
        ensures { OnOk result (self.new ≡ with_line self.old line) }
    {
        match line {
            Line::Blank => {}
            Line::Header(setting) => self.settings.set(setting),
            Line::Happening(event) => self.events.push(event)?,
        }
        Ok(())
    }

    /// Takes the next line, and returns whether it is a valid line that is allowed here. After a refused allocation the
    /// draft is unspecified, and the caller drops it.
    pub(crate) fn take_line(&mut self, alloc: Global, text: &[u8]) -> Result<bool, NoMemory>
        ensures { IfOk result
            (λ taken. with_text self.old text.now ≡ (if taken then Some self.new else None)) }
    {
        match line_of(alloc, text)? {
            None => Ok(false),
            Some(line) => {
                if !self.may_stand(&line) {
                    return Ok(false);
                }
                self.take(line)?;
                Ok(true)
            }
        }
    }

    /// The script, with defaults for what no line has set.
    pub fn finish(self, alloc: Global) -> Script
        ensures { result ≡ script_with self }
    {
        let Draft { settings, events } = self;
        let Settings {
            server,
            counter,
            epochs,
            timeouts,
            secret,
            dialect,
            super_digest,
            primed,
        } = settings;
        Script {
            server_id: server.unwrap_or(ServerId::default()),
            first_counter: counter.unwrap_or(FirstCounter::default()),
            epochs: epochs.unwrap_or(Epochs::default()),
            timeouts: timeouts.unwrap_or(TimeoutBounds::default()),
            secret: secret.unwrap_or(Secret::empty(alloc)),
            dialect: dialect.unwrap_or(Dialect::default()),
            super_digest,
            primed,
            events: Listed::from_vec(events),
        }
    }
}
