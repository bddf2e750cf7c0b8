//! What the server tells of itself by words.

use crate::hub::Hub;
use learner_sync::Phase;
use log::Log;
use serve_options::{Options, VERSION, Words};
use server_tally::{EngineFigures, Tally, TallySettings};
use server_words::{AnsweredWords, ServerSettings, ServerWord};
use settings::Dialect;
use std::alloc::Global;
use std::io::Write;
use std::sync::Arc;
use std::time::Clock;
use values::{NoMemory, Text};

// The words that the server answers by itself.
fn answered(words: Words) -> AnsweredWords {
    let mut answered = AnsweredWords::none();
    for (word, is_answered) in words.each() {
        if let (true, Some(letters)) = (is_answered, word.as_bytes().first_chunk::<4>()) {
            if let Some(word) = ServerWord::from_bytes(*letters) {
                answered = answered.with(word);
            }
        }
    }
    answered
}

// The release of ZooKeeper whose dialect is spoken, by which clients tell what a server can do, and the own version.
fn version_text(alloc: Global, dialect: Dialect) -> Result<Text, NoMemory> {
    let release = match dialect {
        Dialect::Zk34 => "3.4.14",
        Dialect::Zk38 => "3.8.0",
    };
    let text = format!(in alloc; "{release}-kezhundam-{VERSION}")?;
    Text::new(alloc, text.as_str())
}

fn settings_of(options: &Options<'_>, client_port: u16) -> ServerSettings {
    ServerSettings {
        client_port: client_port as u64,
        tick: options.tick,
        per_address: options.max_per_address.unwrap_or(0),
        least_timeout: u64::try_from(options.timeouts.least()).unwrap_or(0),
        greatest_timeout: u64::try_from(options.timeouts.greatest()).unwrap_or(0),
        server_id: u64::try_from(options.server_id.number()).unwrap_or(0),
        init_limit: options.init_limit,
        sync_limit: options.sync_limit,
    }
}

/// The tally of a server with these options, which listens at this port.
pub(crate) fn tally_of<R: Clock>(
    rt: &R,
    alloc: Global,
    options: &Options<'_>,
    client_port: u16,
) -> Result<Arc<Tally, Global>, NoMemory> {
    let told = TallySettings {
        version: version_text(alloc, options.dialect)?,
        dialect: options.dialect,
        settings: settings_of(options, client_port),
        words: answered(options.words),
    };
    Ok(Arc::new(alloc, Tally::new(rt, alloc, told))?)
}

fn number_of(count: usize) -> u64 {
    u64::try_from(count).unwrap_or(u64::MAX)
}

impl<L: Log, W: Write + Drop> Hub<L, W> {
    // Counts the watches of the connections that were told something in the last turn, or of which it took messages: no
    // others have changed.
    fn count_watches(&mut self) {
        for number in self.desk.told() {
            if let Some(client) = self.clients.get_mut(number) {
                let watches = self.desk.engine().watches_of(*number as u64);
                let watches = u64::try_from(watches).unwrap_or(u64::MAX);
                let others = self.watches.saturating_sub(client.watches);
                self.watches = others.saturating_add(watches);
                client.watches = watches;
            }
        }
    }

    /// Stores what the last turn left, for the threads that answer words.
    pub(crate) fn store_figures(&mut self) {
        self.count_watches();
        let engine = self.desk.engine();
        let learner = engine.learner();
        let tree = engine.tree();
        self.tally.store(EngineFigures {
            serving: learner.phase() == Phase::Serving,
            zxid: learner.last_zxid(),
            paths: number_of(tree.paths()),
            watches: self.watches,
            pairs: number_of(tree.ephemerals().count()),
            sessions: number_of(tree.sessions().iter().len()),
            log: number_of(learner.since_base().len()),
        });
    }
}
