//! The replica: a tree that follows a leader.

ghost use Rattle.std.specs.Prelude.{◌≡◌, ◌⊎◌, IfOk, OnOk, OnErr};
ghost use Rattle.std.specs.List.{AllByRecursion};
ghost use Rattle.quorum_packet.specs.Packet.{packet_format};
ghost use Rattle.replica.specs.Replica.{new_replica, primed_replica};
ghost use Rattle.replica.specs.Taking.{follow_leader, without_leader, checkpoint_replica, is_serving};

use based_tree::BasedTree;
use data_tree::{HashKey, Tree};
use learner_sync::{Act, Learner, Phase};
use quorum_packet::QuorumPacket;
use settings::{Dialect, Epochs, ServerId};
use std::alloc::Global;
use std::marker::Model;
use values::{Listed, NoMemory};

/// A tree that follows a leader, with the base that its log starts from.
pub struct Replica {
    pub(crate) learner: Learner,
    pub(crate) based: BasedTree,
}

impl Model for Replica {
    ghost use Rattle.learner_sync.specs.contracts.learner.Learner as of_learner;
    ghost use Rattle.data_tree.specs.contracts.tree.Tree as of_tree;
    ghost use Rattle.replica.specs.Replica.{Replica as TheReplica, replica_code};

    ghost Value = { TheReplica };

    ghost coded = { replica_code of_learner.the_row.coded of_tree.the_row.coded };

    ghost view = { λ r. record { learner = r.learner; base = r.based.base; tree = r.based.tree } };
}

impl Drop for Replica {
    fn drop(self) {
        let Replica { learner, based } = self;
        drop(learner);
        drop(based);
    }
}

impl Replica {
    /// A replica that hasn't followed a leader yet: the tree before any transaction. Its leaders will speak this
    /// dialect, and its nodes are found by this key. Fails only if an allocation is refused.
    pub fn new(
        alloc: Global,
        key: HashKey,
        dialect: Dialect,
        epochs: Epochs,
    ) -> Result<Replica, NoMemory>
        ensures { IfOk result (λ r. r ≡ new_replica dialect epochs) }
    {
        let tree = Tree::fresh_with_key(alloc, key)?;
        Ok(Replica {
            learner: Learner::new(alloc, dialect, epochs),
            based: BasedTree::new(alloc, tree),
        })
    }

    /// A replica that serves in epoch 1, and whose tree has one session with this timeout in milliseconds. Its leaders
    /// speak this dialect, and its nodes are found by this key. Fails only if an allocation is refused.
    pub fn primed(
        alloc: Global,
        key: HashKey,
        dialect: Dialect,
        session: i64,
        time_out: i32,
    ) -> Result<Replica, NoMemory>
        ensures { IfOk result (λ r. r ≡ primed_replica dialect session time_out) }
    {
        let mut tree = Tree::fresh_with_key(alloc, key)?;
        tree.put_session(session, time_out)?;
        Ok(Replica {
            learner: Learner::primed(alloc, dialect),
            based: BasedTree::new(alloc, tree),
        })
    }

    /// How far the leader was followed.
    pub fn learner(&self) -> &Learner
        ensures { result.now ≡ self.now.learner }
    {
        &self.learner
    }

    /// The tree that reads show.
    pub fn tree(&self) -> &Tree
        ensures { result.now ≡ self.now.tree }
    {
        self.based.tree()
    }

    /// Whether clients are served.
    pub fn is_serving(&self) -> bool
        ensures { result ≡ is_serving self.now }
    {
        match self.learner.phase() {
            Phase::Serving => true,
            Phase::Down
            | Phase::Hello
            | Phase::Sync
            | Phase::Image(_)
            | Phase::ReplayOnImage(_)
            | Phase::Replay => false,
        }
    }

    /// A leader has connected. Returns the packet by which the replica introduces itself, or none while it has a
    /// leader. A refused allocation leaves the replica as it was, or as if the packet had been returned.
    pub fn start(
        &mut self,
        alloc: Global,
        server_id: ServerId,
    ) -> Result<Listed<QuorumPacket>, NoMemory>
        ensures replies { IfOk result (λ replies. replies ≡ (follow_leader self.old server_id).replies) }
        ensures after { OnOk result (self.new ≡ (follow_leader self.old server_id).replica) }
        ensures err { OnErr result
            ((self.new ≡ self.old) ⊎ (self.new ≡ (follow_leader self.old server_id).replica)) }
        ensures writable { IfOk result (λ replies. AllByRecursion packet_format.Writable replies) }
    {
        learner_sync::law::acts();
        let acts = self.learner.start(alloc, server_id)?;
        let mut replies = Vec::new(alloc);
        for act in acts.into_vec(alloc)? {
            if let Act::Send(packet) = act {
                replies.push(packet)?;
            }
        }
        Ok(Listed::from_vec(replies))
    }

    /// The leader is gone, or what it sent was refused. The tree stays.
    pub fn end(&mut self)
        ensures { self.new ≡ without_leader self.old }
    {
        self.learner.end();
    }

    /// Makes the tree the new base and empties the log, while clients are served; otherwise does nothing. Allocates
    /// nothing.
    pub fn checkpoint(&mut self, alloc: Global)
        ensures { self.new ≡ checkpoint_replica self.old }
    {
        if !self.is_serving() {
            return;
        }
        self.based.rebase(alloc);
        self.learner.checkpoint();
    }
}
