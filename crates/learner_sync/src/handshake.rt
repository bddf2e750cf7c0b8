//! The handshake: what a leader sends before it brings a learner up to date.

ghost use Rattle.std.specs.Prelude.{◌≡◌};
ghost use Rattle.learner_sync.specs.Learn.{LearnsItem, leader_info, message_in_hello, truncate_log, await_image, message_in_sync};

use crate::act::{Act, ActList};
use crate::answers::{act_list, empty_act_list};
use crate::learner::Learner;
use crate::logged::{keep_up_to, zxid_after};
use crate::message::Message;
use crate::phase::Phase;
use jute::Reader;
use std::alloc::Global;
use values::{Fault, ReadError};

impl Learner {
    // Takes the leader's epoch. The data has to hold a protocol version; any version will do.
    fn leader_info(&mut self, alloc: Global, epoch: i32, bytes: &[u8]) -> Result<ActList, ReadError>
        ensures { LearnsItem result (leader_info self.old epoch bytes.now) self.old self.new }
    {
        if epoch < self.accepted_epoch {
            return Err(ReadError::Fault(Fault::EpochTooSmall));
        }
        let mut reader = Reader::new(bytes);
        reader.read_int()?;
        if self.accepted_epoch < epoch {
            let answer = self.epoch_answer(alloc, self.current_epoch)?;
            let acts = vec![in alloc; Act::Epochs, Act::Send(answer)]?;
            self.phase = Phase::Sync;
            self.accepted_epoch = epoch;
            return Ok(ActList::from_vec(acts));
        }
        let answer = self.epoch_answer(alloc, -1)?;
        let acts = act_list(alloc, Act::Send(answer))?;
        self.phase = Phase::Sync;
        Ok(acts)
    }

    /// Takes a message while the leader hasn't named its epoch yet.
    pub(crate) fn hello(
        &mut self,
        alloc: Global,
        message: Message<'_>,
    ) -> Result<ActList, ReadError>
        ensures { LearnsItem result (message_in_hello self.old message.entry) self.old self.new }
    {
        match message {
            Message::LeaderInfo { epoch, bytes } => {
                self.leader_info(alloc, epoch, bytes.as_slice())
            }
            _other => Err(ReadError::Fault(Fault::UnexpectedPacket)),
        }
    }

    // Drops the transactions above a zxid from the log.
    fn truncate(&mut self, alloc: Global, zxid: i64) -> Result<ActList, ReadError>
        ensures { LearnsItem result (truncate_log self.old zxid) self.old self.new }
    {
        if zxid < self.base_zxid {
            return Err(ReadError::Fault(Fault::CannotTruncate));
        }
        let acts = act_list(alloc, Act::Truncate(zxid))?;
        keep_up_to(&mut self.log, zxid);
        let last_kept = zxid_after(self.base_zxid, self.log.as_slice());
        self.last_zxid = self.base_zxid.max(last_kept);
        self.phase = Phase::Replay;
        self.is_complete = false;
        Ok(acts)
    }

    // Waits for the image that a SNAP packet of this zxid announces.
    fn await_image(&mut self, alloc: Global, zxid: i64) -> Result<ActList, ReadError>
        ensures { LearnsItem result (await_image self.old zxid) self.old self.new }
    {
        if zxid < 0 {
            return Err(ReadError::Fault(Fault::OutOfOrder));
        }
        self.phase = Phase::Image(zxid);
        Ok(empty_act_list(alloc))
    }

    /// Takes a message that says how the leader brings the learner up to date: DIFF, TRUNC or SNAP.
    pub(crate) fn sync(&mut self, alloc: Global, message: Message<'_>) -> Result<ActList, ReadError>
        ensures { LearnsItem result (message_in_sync self.old message.entry) self.old self.new }
    {
        match message {
            Message::Diff => {
                self.phase = Phase::Replay;
                Ok(empty_act_list(alloc))
            }
            Message::Trunc(zxid) => self.truncate(alloc, zxid),
            Message::Snap(zxid) => self.await_image(alloc, zxid),
            _ => Err(ReadError::Fault(Fault::UnexpectedPacket)),
        }
    }
}
