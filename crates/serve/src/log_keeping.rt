//! When the log of transactions is emptied.

use crate::hub::Hub;
use following::Checkpoints;
use intake::{Desk, Message, Port};
use learner_sync::Phase;
use log::Log;
use std::io::Write;

/// Between two looks at the log where no turn comes, in milliseconds.
const BETWEEN_LOOKS: u64 = 1000;

/// Asks the engine for a checkpoint when the leader has sent much since the last one.
#[derive(Drop)]
pub struct LogKeeper {
    pub(crate) checkpoints: Checkpoints,
    // The port that checkpoints are asked for by. It is opened for the first one.
    port: Option<Port>,
    // A checkpoint was asked for and hasn't been made: the transactions that were in the log then.
    asked: Option<usize>,
}

impl LogKeeper {
    /// `least` is the least number of mebibytes between two checkpoints; 0: there are none.
    pub fn new(least: u64) -> LogKeeper {
        LogKeeper {
            checkpoints: Checkpoints::new(least),
            port: None,
            asked: None,
        }
    }

    // Asks for a checkpoint. Without memory for a port, or without room in it, there is another look later.
    fn ask(&mut self, desk: &mut Desk) -> bool {
        if self.port.is_none() {
            self.port = desk.add_port(1).ok();
        }
        let Some(port) = &mut self.port else {
            return false;
        };
        let is_sent = port.send(Message::Checkpoint).is_ok();
        if is_sent {
            self.asked = Some(desk.engine().learner().since_base().len());
        }
        is_sent
    }
}

impl<L: Log, W: Write + Drop> Hub<L, W> {
    // Notes a checkpoint, if the last turn made one. The turn began and ended at these times.
    pub(crate) fn note_checkpoint(&mut self, began: u64, now: u64) {
        let mut messages = self.desk.fresh().iter();
        if !messages.any(|(_, message)| matches!(message, Message::Checkpoint)) {
            return;
        }
        let entries = self.log_keeper.asked.take().unwrap_or(0);
        let learner = self.desk.engine().learner();
        if learner.phase() != Phase::Serving {
            // The turn took a leader's end first, and passed the checkpoint over.
            return;
        }
        let zxid = learner.last_zxid();
        let pause = now.saturating_sub(began);
        let nodes = self.desk.engine().tree().paths();
        self.log_keeper.checkpoints.taken();
        self.journal.checkpoint(zxid, pause, nodes, entries);
    }

    /// Looks at the log after a turn, while clients are served. Returns for how many milliseconds there is nothing to
    /// do.
    pub(crate) fn look_at_log(&mut self) -> u64 {
        let phase = self.desk.engine().learner().phase();
        if self.log_keeper.asked.is_some() || phase != Phase::Serving {
            return BETWEEN_LOOKS;
        }
        if self.log_keeper.checkpoints.is_due() && self.log_keeper.ask(&mut self.desk) {
            return 0;
        }
        BETWEEN_LOOKS
    }
}
