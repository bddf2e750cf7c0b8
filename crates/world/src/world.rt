//! Everything but the state of the leader's stream, as Rust holds it.

use crate::clients::Clients;
use replica::Replica;
use settings::{Dialect, Epochs, FirstCounter, Secret, ServerId, TimeoutBounds};
use std::marker::Model;
use values::Text;

/// The settings of an observer: the part of its configuration that its answers depend on.
#[derive(Debug, Drop)]
pub struct Settings {
    pub server_id: ServerId,
    pub epochs: Epochs,
    pub timeouts: TimeoutBounds,
    pub secret: Secret,
    pub first_counter: FirstCounter,
    pub dialect: Dialect,
    /// The digest "user:hash" that makes a super user of a client; None: no client is one.
    pub super_digest: Option<Text>,
}

/// Everything but the state of the leader's stream.
pub struct World {
    pub settings: Settings,
    /// The tree that reads show, and how far the leader was followed.
    pub replica: Replica,
    pub clients: Clients,
}

impl Model for World {
    ghost use Rattle.world.specs.contracts.world.Settings as of_settings;
    ghost use Rattle.replica.specs.contracts.replica.Replica as of_replica;
    ghost use Rattle.world.specs.World.{World as TheWorld, world_code};

    ghost Value = { TheWorld };

    ghost coded = { world_code of_settings.the_row.coded of_replica.the_row.coded };

    ghost view = { λ w. record { settings = w.settings; replica = w.replica; clients = w.clients } };
}

impl Drop for World {
    fn drop(self) {
        let World {
            settings,
            replica,
            clients,
        } = self;
        drop(settings);
        drop(replica);
        drop(clients);
    }
}
