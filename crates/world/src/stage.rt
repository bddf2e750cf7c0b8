//! A world with the outputs so far, and the steps that send to a client or close it.

ghost use Rattle.std.specs.Prelude.{◌≡◌, []};
ghost use Rattle.read_processor.specs.Look.{without_body};
ghost use Rattle.world.specs.Sending.{close_client, send_or_close, send_last, send_reply, send_reply_last, close_client_if_some};
ghost use Rattle.world.specs.Results.{MakesStep};

use crate::output::Output;
use crate::world::World;
use read_processor::Look;
use std::alloc::Global;
use std::marker::Model;
use values::{Blob, NoMemory};

/// A world, and what has been sent so far. A function that makes a step changes the world and appends the outputs.
pub struct Stage {
    pub world: World,
    pub outputs: Vec<Output>,
}

impl Model for Stage {
    ghost use Rattle.world.specs.contracts.world.World as of_world;
    ghost use Rattle.world.specs.contracts.output.Output as of_output;
    ghost use Rattle.world.specs.World.{World as TheWorld};
    ghost use Rattle.world.specs.Steps.{StepResult, step_result_code};

    ghost Value = { StepResult TheWorld };

    ghost coded = { step_result_code of_output.the_row.coded of_world.the_row.coded };

    ghost view = { λ s. record { outputs = s.outputs.items; after = s.world } };
}

impl Drop for Stage {
    fn drop(self) {
        let Stage { world, outputs } = self;
        drop(world);
        drop(outputs);
    }
}

impl Stage {
    /// A world, and no output.
    pub fn new(alloc: Global, world: World) -> Stage
        ensures { result ≡ record { outputs = []; after = world } }
    {
        Stage {
            world,
            outputs: Vec::new(alloc),
        }
    }

    /// Closes a connection; its session stays.
    pub fn close_client(&mut self, number: u64) -> Result<(), NoMemory>
        ensures { MakesStep result self.old (close_client number) self.new }
    {
        self.outputs.push(Output::CloseClient(number))?;
        self.world.clients.close(number);
        Ok(())
    }

    /// Closes a connection that has lost its session; does nothing for None.
    pub fn close_client_if_some(&mut self, left: Option<u64>) -> Result<(), NoMemory>
        ensures { MakesStep result self.old (λ w. close_client_if_some w left) self.new }
    {
        match left {
            None => return Ok(()),
            Some(number) => self.close_client(number),
        }
    }

    /// Sends a frame. None is a reply too long for a frame; it closes the connection.
    pub fn send_frame(&mut self, number: u64, frame: Option<Blob>) -> Result<(), NoMemory>
        ensures { MakesStep result self.old (λ w. send_or_close number w frame) self.new }
    {
        match frame {
            None => self.close_client(number),
            Some(frame) => {
                self.outputs.push(Output::ToClient(number, frame))?;
                Ok(())
            }
        }
    }

    /// Sends a frame and closes the connection.
    #[tactic(auto, using(crate::proofs::Steps::then_meets, crate::proofs::Steps::first_stops))]
    pub fn send_frame_last(&mut self, number: u64, frame: Option<Blob>) -> Result<(), NoMemory>
        ensures { MakesStep result self.old (λ w. send_last number w frame) self.new }
    {
        self.send_frame(number, frame)?;
        self.close_client(number)
    }

    /// Sends a reply with the zxid of the tree that it shows.
    pub fn send_reply(&mut self, number: u64, xid: i32, seen: Look) -> Result<(), NoMemory>
        ensures { MakesStep result self.old (λ w. send_reply number w xid seen) self.new }
    {
        let frame = seen.into_frame(xid, self.world.replica.learner().last_zxid());
        self.send_frame(number, frame)
    }

    /// Sends a reply without a body. `error` is ZooKeeper's error code, 0 for success.
    pub fn answer_without_body(
        &mut self,
        alloc: Global,
        number: u64,
        xid: i32,
        error: i32,
    ) -> Result<(), NoMemory>
        ensures { MakesStep result self.old (λ w. send_reply number w xid (without_body error)) self.new }
    {
        self.send_reply(number, xid, Look::without_body(alloc, error)?)
    }

    /// Sends a reply without a body and closes the connection. `error` is ZooKeeper's error code, 0 for success.
    pub fn answer_without_body_last(
        &mut self,
        alloc: Global,
        number: u64,
        xid: i32,
        error: i32,
    ) -> Result<(), NoMemory>
        ensures { MakesStep result self.old (λ w. send_reply_last number w xid (without_body error)) self.new }
    {
        let seen = Look::without_body(alloc, error)?;
        let frame = seen.into_frame(xid, self.world.replica.learner().last_zxid());
        self.send_frame_last(number, frame)
    }
}
