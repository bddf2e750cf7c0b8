//! An engine in a program of one's own: it is fed events, and queried.
//!
//! The leader sends the create of /a with the data "hi", and the client of connection 1 reads it. The engine returns
//! outputs, which a server would write to its sockets; this program prints what they are.
//!
//! The functions are short and have no contracts. A proof about one that knew both the bytes and the contract of the
//! engine for them would have to compute the answer, which takes minutes.
#![tactic(auto)]

use anyhow::Result;
use observer_core::{Config, Engine, Event, Output, default_limits};
use std::alloc::Global;
use std::process::ExitCode;
use values::{Blob, Bytes};

// An INFORM, the packet by which an observer learns a transaction: the create of /a with the zxid 0x100000001.
fn inform_of_create() -> &'static [u8] {
    b"\0\0\0\x08\0\0\0\x01\0\0\0\x01\0\0\0\x4c\0\0\0\0\0\0\0\x07\0\0\0\x01\
    \0\0\0\x01\0\0\0\x01\0\0\0\0\0\0\x03\xe8\0\0\0\x01\0\0\0\x02/a\0\0\0\x02hi\
    \0\0\0\x01\0\0\0\x1f\0\0\0\x05world\0\0\0\x06anyone\0\0\0\0\x01\xff\xff\xff\xff"
}

// A client's frame: getData of /a, without a watch.
fn get_data() -> &'static [u8] {
    b"\0\0\0\x0f\0\0\0\x01\0\0\0\x04\0\0\0\x02/a\0"
}

// An observer with server id 3, epochs 0, timeouts of 4 to 40 seconds, no secret, and the default limits. It follows a
// leader, and connection 1 is open.
fn started(alloc: Global) -> Result<Engine> {
    let secret = Blob::new(alloc, &[])?;
    let config = Config::new(3, 0, 0, 4000, 40_000, secret, default_limits())?;
    Ok(Engine::primed(alloc, config)?)
}

// Feeds the events and returns the outputs. After a refused allocation the engine is closed.
fn fed(alloc: Global, engine: &mut Engine, events: &[Event<'_>]) -> Result<Vec<Output>> {
    let mut outputs = Vec::new(alloc);
    engine.feed_inline(alloc, events, &mut outputs)?;
    Ok(outputs)
}

// Feeds the leader's packet, and then the client's frame. Both may be fed in any pieces.
fn fed_both(alloc: Global, engine: &mut Engine) -> Result<Vec<Output>> {
    let events = [
        Event::LeaderBytes(Bytes::new(inform_of_create())),
        Event::ClientBytes(1, Bytes::new(get_data())),
    ];
    fed(alloc, engine, &events)
}

// One line for each output.
fn print_outputs(rt: &HostRuntime, outputs: &[Output]) -> Result<()> {
    for output in outputs {
        match output {
            Output::ToLeader(packet) => println!(rt; "leader: {} bytes", packet.as_slice().len())?,
            Output::ToClient(connection, frame) => println!(rt;
                "connection {connection}: {} bytes",
                frame.as_slice().len()
            )?,
            Output::CloseLeader(fault) => println!(rt; "leader: closed, {fault}")?,
            Output::CloseClient(connection) => println!(rt; "connection {connection}: closed")?,
        }
    }
    Ok(())
}

// The number of nodes, and how far the leader was followed.
fn print_end(rt: &HostRuntime, engine: &Engine) -> Result<()> {
    let paths = engine.tree().paths();
    let zxid = engine.learner().last_zxid();
    println!(rt; "{paths} paths, zxid {zxid:#x}")?;
    Ok(())
}

fn feed_and_print(rt: &HostRuntime, engine: &mut Engine) -> Result<()> {
    let outputs = fed_both(rt.alloc(), engine)?;
    print_outputs(rt, outputs.as_slice())?;
    print_end(rt, engine)
}

fn run(rt: &HostRuntime) -> Result<()> {
    let mut engine = started(rt.alloc())?;
    feed_and_print(rt, &mut engine)
}

fn main(rt: HostRuntime) -> ExitCode {
    match run(&rt) {
        Ok(()) => ExitCode::SUCCESS,
        Err(error) => {
            // If standard error can't be written, only the status tells the failure.
            let _ = eprintln!(rt; "{error}");
            ExitCode::FAILURE
        }
    }
}
