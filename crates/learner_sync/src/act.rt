//! What a learner has its replica do for an item of the leader's stream.

ghost use Rattle.std.specs.Prelude.{◌≡◌, ◌↔◌, ◌∷◌, [], IfOk, IsTrue};

use quorum_packet::QuorumPacket;
use snapshot_codec::ImagePart;
use std::alloc::Global;
use std::marker::Model;
use values::{Listed, NoMemory};

/// An act: one thing to do for an item of the leader's stream.
#[derive(Debug, Drop)]
pub enum Act {
    /// Send the packet to the leader.
    Send(QuorumPacket),
    /// Answer the leader's PING; the packet is the PING itself.
    AnswerPing(QuorumPacket),
    /// The leader has done the oldest sync that it was asked for.
    SettleSync,
    /// The leader has answered whether a session that a client brought lives.
    Revalidated { session: i64, is_valid: bool },
    /// Apply the last transaction of the log to the tree.
    Apply,
    /// Load the part, apart from the tree.
    LoadPart(ImagePart),
    /// The image is complete: it replaces the tree and is the new base.
    LoadImage,
    /// The image is complete but wasn't asked for: drop what was loaded.
    DropImage,
    /// Rebuild the tree from the base and the log, which keeps no transaction above this zxid.
    Truncate(i64),
    /// The epochs have changed.
    Epochs,
    /// Serve clients from now on.
    ServeFrom,
}

/// The acts to do for an item, in order. The one act to which most items come, [`Act::Apply`], takes no memory.
#[derive(Drop)]
pub struct ActList {
    // `None` is the one act `Act::Apply`.
    listed: Option<Listed<Act>>,
}

impl Model for ActList {
    ghost use Rattle.std.specs.Prelude.{List};
    ghost use Rattle.learner_sync.specs.declared.act.Act.{Act};
    ghost use Rattle.learner_sync.specs.Inner.{acts_or_apply};

    ghost Value = { List Act };

    ghost view = { λ a. acts_or_apply a.listed };
}

impl ActList {
    /// The one act `Act::Apply`.
    pub(crate) fn apply() -> ActList
        ensures { result ≡ Act.Apply ∷ [] }
    {
        ActList { listed: None }
    }

    /// The vector's acts.
    pub(crate) fn from_vec(acts: Vec<Act>) -> ActList
        ensures { result ≡ acts.items }
    {
        ActList {
            listed: Some(Listed::from_vec(acts)),
        }
    }

    /// Whether `Act::Apply` is the one act.
    pub fn is_apply(&self) -> bool
        ensures { IsTrue result ↔ (self.now ≡ Act.Apply ∷ []) }
    {
        match &self.listed {
            None => return true,
            Some(acts) => match acts.as_slice() {
                [Act::Apply] => true,
                _ => false,
            },
        }
    }

    /// The acts in a vector. Fails only if an allocation is refused.
    pub fn into_vec(self, alloc: Global) -> Result<Vec<Act>, NoMemory>
        ensures { IfOk result (λ acts. acts.items ≡ self) }
    {
        match self.listed {
            None => Ok(vec![in alloc; Act::Apply]?),
            Some(acts) => Ok(acts.into_vec()),
        }
    }
}
