//! The hub: a desk, and the list of all messages that it took.

ghost use Rattle.std.specs.Prelude.{◌≡◌, ◌≢◌, ◌⊎◌, ◌++◌, ◌<◌, ◌≤◌, ◌∷◌, length, IfErr, IfOk, OnErr, OnOk, Err, []};
ghost use Rattle.observer_core.specs.Play.{new_machine, primed_machine};
ghost use Rattle.intake.specs.declared.message.AddPortError.TheVariants as errors;
ghost use Rattle.intake.specs.Ports.{sent_through, received_through, unread_through, HasRoom, SamePort};
ghost use Rattle.intake.specs.Links.{taken_at, waiting_at, outbox_at, IsEnd};
ghost use Rattle.intake.specs.Desk.{TakesNothing};
ghost use Rattle.intake.specs.Steps.{BeginsTurn};
ghost use Rattle.intake.specs.Hub.{new_hub, GainsPort, RefusesTurn, TurnsHub, without_port};

use crate::desk::Desk;
use crate::message::{AddPortError, Message};
use crate::port::{Port, PortEnd};
use apply_workers::Gate;
use observer_core::{Config, Stop};
use port_hints::Unlimited;
use std::alloc::Global;
use std::marker::Model;
use std::thread::Threads;
use values::NoMemory;

/// A desk, and the list of all messages that it took, which only grows.
pub struct Hub {
    desk: Desk,
    taken: Vec<(usize, Message)>,
    // For each port, by number, how many messages were taken when it was added.
    since: Vec<usize>,
}

impl Model for Hub {
    ghost use Rattle.std.specs.Coded.{coded_list, coded×, coded_ℕ};
    ghost use Rattle.intake.specs.contracts.desk.Desk as of_desk;
    ghost use Rattle.intake.specs.contracts.message.Message as of_message;
    ghost use Rattle.intake.specs.Hub.{Hub as TheHub, hub_code};

    ghost Value = { TheHub };

    ghost coded = { hub_code of_desk.the_row.coded (coded_list (coded× coded_ℕ of_message.the_row.coded)) };

    ghost view = { λ h. record { desk = h.desk; taken = h.taken.items; since = h.since.items } };
}

impl Drop for Hub {
    fn drop(self) {
        let Hub { desk, taken, since } = self;
        drop(desk);
        drop(taken);
        drop(since);
    }
}

impl Hub {
    /// A hub whose observer hasn't followed a leader yet. Fails only if an allocation is refused.
    pub fn new(alloc: Global, config: Config) -> Result<Hub, NoMemory>
        ensures { IfOk result (λ h. h ≡ new_hub (new_machine config.settings)) }
    {
        Ok(Hub {
            desk: Desk::new(alloc, config)?,
            taken: Vec::new(alloc),
            since: Vec::new(alloc),
        })
    }

    /// A hub whose observer follows a leader in epoch 1, with connection 1 open. Fails only if an allocation is
    /// refused.
    pub fn primed(alloc: Global, config: Config) -> Result<Hub, NoMemory>
        ensures { IfOk result (λ h. h ≡ new_hub (primed_machine config.settings)) }
    {
        Ok(Hub {
            desk: Desk::primed(alloc, config)?,
            taken: Vec::new(alloc),
            since: Vec::new(alloc),
        })
    }

    /// Adds the next port, as a desk does. A port that is refused changes nothing.
    pub fn add_port(&mut self, capacity: usize) -> Result<Port, AddPortError>
        ensures ok { IfOk result (λ port. GainsPort self.old port self.new) }
        ensures room { IfOk result (HasRoom capacity) }
        ensures err { OnErr result (self.new ≡ self.old) }
        ensures bounds { OnOk result ((0 < capacity) × (capacity ≤ 1024)) }
        ensures out_of_bounds { result ≡ Err errors.BadCapacity → (capacity ≡ 0) ⊎ (1024 < capacity) }
    {
        if self.since.reserve(1).is_err() {
            return Err(AddPortError::NoMemory);
        }
        match self.desk.add_port(capacity) {
            Err(error) => return Err(error),
            Ok(port) => {
                self.since.push_reserved(self.taken.len());
                Ok(port)
            }
        }
    }

    /// All messages taken, in order, each with its port's number.
    pub fn taken(&self) -> &[(usize, Message)]
        ensures { result.now ≡ self.now.taken }
    {
        self.taken.as_slice()
    }

    pub fn desk(&self) -> &Desk
        ensures { result.now ≡ self.now.desk }
    {
        &self.desk
    }

    /// Makes a turn of the desk, and appends its messages to the list. Returns the number of messages taken. Fails as
    /// [`Desk::turn`] does. The list grows before anything is taken: if it can't, the messages stay where they are, and
    /// the desk isn't closed.
    #[tactic(auto, using(crate::proofs::Turning::answers_closed))]
    pub fn turn<R: Threads + Sync, G: Gate + Sync>(
        &mut self,
        rt: &R,
        gate: &G,
    ) -> Result<usize, Stop>
        ensures { TurnsHub result self.old self.new }
    {
        self.prepare()?;
        match self.desk.serve(rt, gate, &mut Unlimited) {
            Err(NoMemory) => Err(Stop::NoMemory),
            Ok(count) => match self.desk.hand_over(&mut self.taken) {
                Err(NoMemory) => Err(Stop::NoMemory),
                Ok(()) => Ok(count),
            },
        }
    }

    // Begins a turn of the desk, and makes room in the list for its messages. Refused here, the messages stay where they
    // are, and the desk isn't closed.
    #[tactic(auto, using(crate::proofs::Turning::answers_refused))]
    fn prepare(&mut self) -> Result<(), Stop>
        ensures ok { OnOk result (BeginsTurn self.old.desk self.new.desk) }
        ensures err { IfErr result (λ stop. RefusesTurn stop self.old self.new) }
        ensures machine { self.new.desk.machine ≡ self.old.desk.machine }
        ensures list { (self.new.taken ≡ self.old.taken) × (self.new.since ≡ self.old.since) }
    {
        let seen = self.desk.prepare()?;
        if self.taken.reserve(seen).is_err() {
            return Err(Stop::NoMemory);
        }
        Ok(())
    }

    /// The number of messages of a finished port that weren't taken yet. The next turn takes them.
    pub fn left(&mut self, end: &mut PortEnd) -> usize
        requires { IsEnd end.old self.old.desk.links }
        ensures count { result ≡ length (waiting_at self.new.desk.links end.old.number) }
        ensures sent { taken_at self.new.desk.links end.old.number ++ waiting_at self.new.desk.links end.old.number
            ≡ sent_through end.new }
        ensures received { received_through end.new ++ unread_through end.new
            ≡ outbox_at self.new.desk.links end.old.number }
        ensures desk { TakesNothing self.old.desk self.new.desk }
        ensures later { self.new.desk.later ≡ self.old.desk.later }
        ensures taken { self.new.taken ≡ self.old.taken }
        ensures since { self.new.since ≡ self.old.since }
        ensures end { SamePort end.old end.new }
    {
        self.desk.left(end)
    }

    /// Removes a finished port, with the outputs kept for it and the messages that weren't taken.
    pub fn close(&mut self, end: PortEnd)
        ensures { self.new ≡ without_port self.old end.number }
    {
        self.desk.close(end);
    }
}
