//! How far a leader was followed.

ghost use Rattle.std.specs.Prelude.{◌≡◌, IfOk, OnErr, length};
ghost use Rattle.std.specs.Option.{option_map};
ghost use Rattle.settings.specs.Settings.{epoch_pair};
ghost use Rattle.learner_sync.specs.Learner.{new_learner, primed_learner};
ghost use Rattle.learner_sync.specs.Learn.{start_following, stop_following, checkpoint_learner, whole_log};

use crate::act::{Act, ActList};
use crate::answers::{act_list, empty_act_list};
use crate::phase::Phase;
use settings::{Dialect, Epochs, ServerId};
use std::alloc::Global;
use std::collections::VecDeque;
use std::marker::Model;
use txn_codec::Txn;
use values::NoMemory;

/// How far a leader was followed: phase, epochs, last zxid, log and proposals; and the dialect in which leaders speak,
/// which stays. A learner has no tree.
pub struct Learner {
    pub(crate) dialect: Dialect,
    pub(crate) phase: Phase,
    pub(crate) accepted_epoch: i32,
    pub(crate) current_epoch: i32,
    pub(crate) last_zxid: i64,
    pub(crate) base_zxid: i64,
    pub(crate) log: Vec<Txn>,
    pub(crate) proposals: VecDeque<Txn>,
    pub(crate) is_complete: bool,
}

impl Model for Learner {
    ghost use Rattle.settings.specs.contracts.dialect.Dialect as of_dialect;
    ghost use Rattle.txn_codec.specs.contracts.txn.Txn as of_txn;
    ghost use Rattle.learner_sync.specs.contracts.phase.Phase as of_phase;
    ghost use Rattle.learner_sync.specs.Learner.{Learner as TheLearner, learner_code};

    ghost Value = { TheLearner };

    ghost coded = { learner_code of_dialect.the_row.coded of_phase.the_row.coded of_txn.the_row.coded };

    ghost view = { λ l. record {
      dialect = l.dialect;
      phase = l.phase;
      accepted_epoch = l.accepted_epoch;
      current_epoch = l.current_epoch;
      last_zxid = l.last_zxid;
      base_zxid = l.base_zxid;
      log = l.log.items;
      proposals = l.proposals.items;
      is_complete = l.is_complete;
    } };
}

impl Drop for Learner {
    fn drop(self) {
        let Learner {
            dialect: _,
            phase: _,
            accepted_epoch: _,
            current_epoch: _,
            last_zxid: _,
            base_zxid: _,
            log,
            proposals,
            is_complete: _,
        } = self;
        drop(log);
        drop(proposals);
    }
}

impl Learner {
    /// A learner that hasn't followed a leader yet; its leaders will speak this dialect. Allocates nothing.
    pub fn new(alloc: Global, dialect: Dialect, epochs: Epochs) -> Learner
        ensures { result ≡ new_learner dialect epochs }
    {
        Learner {
            dialect,
            phase: Phase::Down,
            accepted_epoch: epochs.accepted(),
            current_epoch: epochs.current(),
            last_zxid: 0,
            base_zxid: 0,
            log: Vec::new(alloc),
            proposals: VecDeque::new(alloc),
            is_complete: true,
        }
    }

    /// A learner that serves in epoch 1 and has no transaction yet; its leaders speak this dialect. Allocates nothing.
    pub fn primed(alloc: Global, dialect: Dialect) -> Learner
        ensures { result ≡ primed_learner dialect }
    {
        Learner {
            dialect,
            phase: Phase::Serving,
            accepted_epoch: 1,
            current_epoch: 1,
            last_zxid: 0,
            base_zxid: 0,
            log: Vec::new(alloc),
            proposals: VecDeque::new(alloc),
            is_complete: true,
        }
    }

    /// A leader has connected. Returns the act to send the packet by which the observer introduces itself, or no act
    /// while the learner has a leader already. A refused allocation leaves the learner as it was.
    pub fn start(&mut self, alloc: Global, server_id: ServerId) -> Result<ActList, NoMemory>
        ensures ok { IfOk result (λ acts. start_following self.old server_id
            ≡ record { acts = acts; after = self.new }) }
        ensures err { OnErr result (self.new ≡ self.old) }
    {
        match self.phase {
            Phase::Down => {
                let introduction = self.introduction(alloc, server_id)?;
                let acts = act_list(alloc, Act::Send(introduction))?;
                self.phase = Phase::Hello;
                return Ok(acts);
            }
            Phase::Hello
            | Phase::Sync
            | Phase::Image(_)
            | Phase::ReplayOnImage(_)
            | Phase::Replay
            | Phase::Serving => return Ok(empty_act_list(alloc)),
        }
    }

    /// The leader is gone, or what it sent was refused. Proposals without a commit are forgotten.
    pub fn end(&mut self)
        ensures { self.new ≡ stop_following self.old }
    {
        self.phase = Phase::Down;
        self.proposals.clear();
    }

    /// Makes the present state the new base and empties the log, while clients are served; otherwise does nothing.
    pub fn checkpoint(&mut self)
        ensures { self.new ≡ checkpoint_learner self.old }
    {
        match self.phase {
            Phase::Serving => {
                self.base_zxid = self.last_zxid;
                self.log.clear();
                self.is_complete = false;
                return;
            }
            Phase::Down
            | Phase::Hello
            | Phase::Sync
            | Phase::Image(_)
            | Phase::ReplayOnImage(_)
            | Phase::Replay => return,
        }
    }

    /// The phase between the learner and its leader.
    pub fn phase(&self) -> Phase
        ensures { result ≡ self.now.phase }
    {
        self.phase
    }

    /// The dialect in which its leaders speak.
    pub fn dialect(&self) -> Dialect
        ensures { result ≡ self.now.dialect }
    {
        self.dialect
    }

    /// The accepted epoch, and the current epoch, which is that of the last leader that was followed.
    pub fn epochs(&self) -> (i32, i32)
        ensures accepted { result.0 ≡ self.now.accepted_epoch }
        ensures current { result.1 ≡ self.now.current_epoch }
    {
        (self.accepted_epoch, self.current_epoch)
    }

    /// The last zxid: the greater of the base's and that of the log's last transaction.
    pub fn last_zxid(&self) -> i64
        ensures { result ≡ self.now.last_zxid }
    {
        self.last_zxid
    }

    /// The transactions that were applied since the base, in order.
    pub fn since_base(&self) -> &[Txn]
        ensures { result.now ≡ self.now.log }
    {
        self.log.as_slice()
    }

    /// All transactions since the empty tree, in order; `None` once an image, a TRUNC or a checkpoint has taken effect.
    pub fn log(&self) -> Option<&[Txn]>
        ensures { option_map (λ txns. txns.now) result ≡ whole_log self.now }
    {
        if !self.is_complete {
            return None;
        }
        Some(self.log.as_slice())
    }
}
