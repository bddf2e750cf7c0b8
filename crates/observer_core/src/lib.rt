//! The observer as a machine: events in, outputs out.
//!
//! An [`Engine`] is fed lists of [`Event`]s and appends the [`Output`]s that they cause. specs/Play defines what these
//! are. It speaks of a machine (specs/Machine), which is the state of a leader's stream and a world, and of steps, each
//! of which gives outputs and the world after it.
//!
//! A packet of the leader, or a part of an image, is a step (specs/Leader): the replica takes it, its answers are sent,
//! the watchers of what it changed are told at once, and then `leader_answers` answers a PING, or the client whose
//! session was created or has ended, whose write was applied, or whose sync is done. If it is refused, the leader and
//! all clients are closed, the transactions that wait for a commit are forgotten, and nothing else changes. A frame of
//! a client is a step of `client_service`, answered at the present state. Clients are served from the moment the leader
//! has brought the replica up to date until the leader is gone. An event makes a step of each item that it completes.
//!
//! `replica` follows the leader and keeps the tree; `client_service` does what a client's bytes ask; `leader_answers`
//! gives clients what they wait for. This crate says in which order all this happens, and what is sent. specs/Plays
//! states what `feed_inline` and `feed` return, refused allocations included. Each item is told as soon as it is read.
//! In an event of the leader that may be worth threads, `feed` gathers the transactions instead: worker threads apply
//! them as one list, in batches, before anything that could tell the difference. A transaction that answers a client
//! ends such a list. Likewise `feed` lets reads wait while nothing but reads follows, in the same event or in the next,
//! and worker threads answer them together. No answer depends on either.
//!
//! `leader` does the leader's steps, with `gathering` for the transactions of an event, and `run` plays the events.
//! specs/Gathering and specs/Inner have the contracts of their private functions; no public contract needs them.
//!
//! ```text
//! // server id, two epochs, two timeouts in milliseconds, secret, limits
//! let config = Config::new(3, 0, 0, 4000, 40_000, secret, default_limits())?;
//! let mut engine = Engine::primed(alloc, config)?;           // serves in epoch 1, and connection 1 is open; or: new
//! let events = [Event::LeaderBytes(Bytes::new(inform)), Event::ClientBytes(1, Bytes::new(frame))];
//! engine.feed_inline(alloc, &events, &mut outputs)?;         // appends Output::ToClient(1, reply); or: feed
//! engine.learner().last_zxid(), engine.tree().node("/a")     // the state after these events
//! ```
#![tactic(auto)]

mod config;
mod engine;
mod event;
mod gathering;
mod law;
mod leader;
mod machine;
mod run;
mod timeouts;

pub use client_service::CLIENT_FRAME_LIMIT;
pub use config::{BadConfig, Config, default_limits};
pub use data_tree::HashKey;
pub use engine::{Engine, Stop};
pub use event::Event;
pub use law::{
    answers_reach_one_client, clients_are_apart, connected_sessions_live, connections_agree,
    cut_anywhere, ids_are_given_once, logs_are_followed, machines_are_sound, nothing_waits_in_vain,
    parts_are_whole_images, plays_on, refusals_change_nothing, replies_show_trees,
    sessions_are_served, silent_without_leader, worked_rows,
};
pub use world::{Output, Settings};
