//! The machine of the definitions as Rust holds it.

use quorum_packet::PacketFeed;
use snapshot_codec::Loader;
use std::marker::Model;
use world::Stage;

/// The state of a leader's stream.
pub struct Leader {
    pub feed: PacketFeed,
    /// The image that is being loaded, separate from the tree.
    pub loader: Loader,
}

impl Model for Leader {
    ghost use Rattle.quorum_packet.specs.contracts.feed.PacketFeed as of_feed;
    ghost use Rattle.snapshot_codec.specs.contracts.loader.Loader as of_loader;
    ghost use Rattle.observer_core.specs.Machine.{Leader as TheLeader, leader_code};

    ghost Value = { TheLeader };

    ghost coded = { leader_code of_feed.the_row.coded of_loader.the_row.coded };

    ghost view = { λ l. record { place = l.feed; loading = l.loader } };
}

impl Drop for Leader {
    fn drop(self) {
        let Leader { feed, loader } = self;
        drop(feed);
        drop(loader);
    }
}

/// The whole state of an observer, and the outputs so far.
pub struct Machine {
    /// The state of the leader's stream, while there is a leader.
    pub leader: Option<Leader>,
    pub stage: Stage,
}

impl Model for Machine {
    ghost use Rattle.observer_core.specs.contracts.machine.Leader as of_leader;
    ghost use Rattle.world.specs.contracts.stage.Stage as of_stage;
    ghost use Rattle.world.specs.Steps.{StepResult};
    ghost use Rattle.observer_core.specs.Machine.{Machine as TheMachine, staged_machine_code};

    ghost Value = { StepResult TheMachine };

    ghost coded = { staged_machine_code of_leader.the_row.coded of_stage.the_row.coded };

    ghost view = { λ m. record {
      outputs = m.stage.outputs;
      after = record { leader = m.leader; world = m.stage.after };
    } };
}

impl Drop for Machine {
    fn drop(self) {
        let Machine { leader, stage } = self;
        drop(leader);
        drop(stage);
    }
}
