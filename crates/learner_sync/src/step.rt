//! What is learnt of an item of the leader's stream.

ghost use Rattle.std.specs.Prelude.{◌≡◌, IfOk, Ok};
ghost use Rattle.quorum_packet.specs.Lending.{owned_item};
ghost use Rattle.learner_sync.specs.Learn.{LearnsItem, message_in_phase, part_in_phase, load_part, acts_to_drop, learn_item};

use crate::act::{Act, ActList};
use crate::answers::{act_list, empty_act_list};
use crate::learner::Learner;
use crate::message::{Message, message_of_packet};
use crate::phase::Phase;
use quorum_packet::LentItem;
use snapshot_codec::ImagePart;
use std::alloc::Global;
use values::{Fault, NoMemory, ReadError};

// Loads a part of an image that wasn't asked for, only to find its faults.
fn load_to_drop(alloc: Global, part: ImagePart) -> Result<ActList, NoMemory>
    ensures { IfOk result (λ acts. acts ≡ acts_to_drop part) }
{
    match part {
        ImagePart::End => return act_list(alloc, Act::DropImage),
        part => return act_list(alloc, Act::LoadPart(part)),
    }
}

impl Learner {
    // Loads a part of the image that a SNAP packet of this zxid announced.
    fn load(&mut self, alloc: Global, part: ImagePart, zxid: i64) -> Result<ActList, ReadError>
        ensures { LearnsItem result (Ok (load_part part self.old zxid)) self.old self.new }
    {
        if !part.is_end() {
            return Ok(act_list(alloc, Act::LoadPart(part))?);
        }
        let acts = act_list(alloc, Act::LoadImage)?;
        self.phase = Phase::ReplayOnImage(0);
        self.last_zxid = zxid;
        self.base_zxid = zxid;
        self.log.clear();
        self.is_complete = false;
        Ok(acts)
    }

    fn step_message(&mut self, alloc: Global, message: Message<'_>) -> Result<ActList, ReadError>
        ensures { LearnsItem result (message_in_phase self.old.phase self.old message.entry) self.old self.new }
    {
        match self.phase {
            Phase::Down => Ok(empty_act_list(alloc)),
            Phase::Hello => self.hello(alloc, message),
            Phase::Sync => self.sync(alloc, message),
            Phase::Image(_) => Err(ReadError::Fault(Fault::UnexpectedPacket)),
            Phase::ReplayOnImage(_) | Phase::Replay => self.replay(alloc, message),
            Phase::Serving => self.serve(alloc, message),
        }
    }

    fn step_part(&mut self, alloc: Global, part: ImagePart) -> Result<ActList, ReadError>
        ensures { LearnsItem result (part_in_phase self.old.phase self.old part) self.old self.new }
    {
        match self.phase {
            Phase::Hello | Phase::Sync => Err(ReadError::Fault(Fault::UnexpectedPacket)),
            Phase::Image(zxid) => self.load(alloc, part, zxid),
            Phase::Down | Phase::ReplayOnImage(_) | Phase::Replay | Phase::Serving => {
                Ok(load_to_drop(alloc, part)?)
            }
        }
    }

    /// Takes the next item of the leader's stream and returns the acts to do, in order.
    ///
    /// The faults are those of the learner's rules, `UnexpectedPacket`, `EpochTooSmall`, `CannotTruncate`, `OutOfOrder`
    /// and `CommitMismatch`, and those of the data that a packet carries. A refused item or a refused allocation leaves
    /// the learner as it was.
    pub fn step(&mut self, alloc: Global, item: LentItem<'_>) -> Result<ActList, ReadError>
        ensures { LearnsItem result (learn_item self.old (owned_item item.entry)) self.old self.new }
    {
        match item {
            LentItem::Packet(packet) => {
                self.step_message(alloc, message_of_packet(self.dialect, packet))
            }
            LentItem::Part(part) => self.step_part(alloc, part),
        }
    }
}
