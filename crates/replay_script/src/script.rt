//! Scripts as a whole.

use crate::event::ScriptEvent;
use settings::{Dialect, Epochs, FirstCounter, Secret, ServerId, TimeoutBounds};
use values::{Listed, Text};

/// A script: the settings, and the events in order.
#[derive(Debug, Drop)]
pub struct Script {
    pub server_id: ServerId,
    pub first_counter: FirstCounter,
    pub epochs: Epochs,
    pub timeouts: TimeoutBounds,
    pub secret: Secret,
    pub dialect: Dialect,
    pub super_digest: Option<Text>,
    /// Whether the observer serves from the start.
    pub primed: bool,
    pub events: Listed<ScriptEvent>,
}

/// The settings of the header lines so far.
#[derive(Drop)]
pub struct Settings {
    pub server: Option<ServerId>,
    pub counter: Option<FirstCounter>,
    pub epochs: Option<Epochs>,
    pub timeouts: Option<TimeoutBounds>,
    pub secret: Option<Secret>,
    pub dialect: Option<Dialect>,
    pub super_digest: Option<Text>,
    pub primed: bool,
}
