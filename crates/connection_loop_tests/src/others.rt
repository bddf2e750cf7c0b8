//! The other ports of a hub: what they say, and what they hear.

use crate::rows::{connect, create, create_session, get};
use intake::{Hub, Message, Port};
use learner_sync::Phase;
use observer_core::Output;
use std::alloc::Global;
use values::Blob;

// How often the other client asks.
const ASKED: usize = 8;

/// The leader's port, unless it is the one that is tried, and a client's.
#[derive(Drop)]
pub struct Others {
    pub leader: Option<Port>,
    pub client: Port,
    /// Whether the client has to ask for a session.
    pub connects: bool,
    pub heard: Vec<Output>,
    said: usize,
}

// Sends bytes. What finds no room isn't sent.
fn say(alloc: Global, port: &mut Port, bytes: &[u8]) {
    if let Ok(bytes) = Blob::new(alloc, bytes) {
        let _ = port.send(Message::Bytes(bytes));
    }
}

// Moves what a port has received to a list. Returns whether there was anything.
fn hear(port: &mut Port, heard: &mut Vec<Output>) -> bool {
    let before = heard.len();
    for _ in 0..10_000 {
        match port.receive() {
            None => break,
            Some(output) => {
                let _ = heard.push(output);
            }
        }
    }
    port.written_all();
    heard.len() > before
}

impl Others {
    pub fn new(alloc: Global, leader: Option<Port>, client: Port) -> Others {
        Others {
            connects: leader.is_none(),
            leader,
            client,
            heard: Vec::new(alloc),
            said: 0,
        }
    }

    // The leader makes /a first, and then the session that it is asked for: connection 1 has the first one.
    fn lead(&mut self, alloc: Global) {
        let Some(leader) = &mut self.leader else {
            return;
        };
        if self.said == 0 {
            say(alloc, leader, create());
        }
        if hear(leader, &mut self.heard) {
            say(alloc, leader, &create_session(2));
        }
    }

    // The client comes, and once clients are served it asks a few times.
    fn ask(&mut self, alloc: Global, is_served: bool) {
        match self.said {
            0 => {
                let _ = self.client.send(Message::Up(None));
            }
            1 if self.connects && is_served => say(alloc, &mut self.client, connect()),
            _ if is_served && self.said < ASKED => say(alloc, &mut self.client, get()),
            _ => return,
        }
        self.said = self.said.saturating_add(1);
    }

    /// Both say and hear what they may.
    pub fn step(&mut self, alloc: Global, hub: &Hub) {
        let is_served = hub.desk().engine().learner().phase() == Phase::Serving;
        self.lead(alloc);
        self.ask(alloc, is_served);
        let _ = hear(&mut self.client, &mut self.heard);
    }
}
