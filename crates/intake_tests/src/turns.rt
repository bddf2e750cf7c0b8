//! The messages that turns take, and the outputs that they put.
//!
//! A test makes the desk and has a function of its own do the rest, so that the desk is dropped at one place.
use crate::helpers::{
    asks, asks_twice, hub_port, hub_turn, port, primed, primed_hub, receives, sends, syncs, taken,
    turn,
};
use intake::{Desk, Hub, Message};
use std::alloc::Global;
use std::process::Abort;
use std::sync::Wait;
use std::test::Fail;
use std::thread;
use std::thread::Threads;
use std::time::Duration;

fn serve<R: Abort + Threads + Sync>(rt: &R, alloc: Global, desk: &mut Desk) -> Result<(), Fail> {
    let _leader = port(desk, 4)?;
    let mut client = port(desk, 4)?;
    assert!(rt; sends(alloc, &mut client, &asks(1)));
    assert_eq!(rt; turn(rt, desk), Some(1));
    assert_eq!(rt; desk.told(), [1].as_slice());
    assert_eq!(rt; receives(&mut client), Some(1));
    desk.close(client.finish());
    Ok(())
}

#[test]
fn a_port_is_served_and_finishes(rt: HostRuntime) -> Result<(), Fail> {
    let mut desk = primed(rt.alloc())?;
    serve(&rt, rt.alloc(), &mut desk)
}

// Each sync of the client is an output for the leader, of which no message is taken.
fn forward<R: Abort + Threads + Sync>(rt: &R, alloc: Global, desk: &mut Desk) -> Result<(), Fail> {
    let mut leader = port(desk, 4)?;
    let mut client = port(desk, 4)?;
    for xid in 1..4 {
        assert!(rt; sends(alloc, &mut client, &syncs(xid)));
        assert_eq!(rt; turn(rt, desk), Some(1));
        assert_eq!(rt; desk.told(), [1, 0].as_slice());
        assert!(rt; leader.receive().is_some());
    }
    Ok(())
}

#[test]
fn a_thread_is_told_in_the_turn_of_each_output(rt: HostRuntime) -> Result<(), Fail> {
    let mut desk = primed(rt.alloc())?;
    forward(&rt, rt.alloc(), &mut desk)
}

fn serve_through_a_small_outbox<R: Abort + Threads + Sync>(
    rt: &R,
    alloc: Global,
    desk: &mut Desk,
) -> Result<(), Fail> {
    let frames = asks_twice(alloc)?;
    let _leader = port(desk, 1)?;
    let mut client = port(desk, 1)?;
    assert!(rt; client.send(Message::Bytes(frames)).is_ok());
    assert_eq!(rt; turn(rt, desk), Some(1));
    assert_eq!(rt; receives(&mut client), Some(1));
    assert_eq!(rt; receives(&mut client), None);
    assert_eq!(rt; turn(rt, desk), Some(0));
    assert_eq!(rt; receives(&mut client), Some(2));
    assert_eq!(rt; receives(&mut client), None);
    Ok(())
}

#[test]
fn replies_come_in_order_through_a_small_outbox(rt: HostRuntime) -> Result<(), Fail> {
    let mut desk = primed(rt.alloc())?;
    serve_through_a_small_outbox(&rt, rt.alloc(), &mut desk)
}

fn finish_with_an_end<R: Abort + Threads + Sync>(rt: &R, desk: &mut Desk) -> Result<(), Fail> {
    let _leader = port(desk, 2)?;
    let mut client = port(desk, 2)?;
    assert!(rt; client.send(Message::End).is_ok());
    let end = client.finish();
    assert_eq!(rt; turn(rt, desk), Some(1));
    assert_eq!(rt; desk.ended(), [1].as_slice());
    desk.close(end);
    Ok(())
}

#[test]
fn what_a_finished_port_sent_is_taken(rt: HostRuntime) -> Result<(), Fail> {
    let mut desk = primed(rt.alloc())?;
    finish_with_an_end(&rt, &mut desk)
}

fn wait_for_a_thread<R: Abort + Threads + Wait + Sync>(
    rt: &R,
    desk: &mut Desk,
) -> Result<(), Fail> {
    let mut leader = port(desk, 4)?;
    let sender = thread::spawn(rt, move || leader.send(Message::End).is_ok())?;
    let mut took = 0;
    for _ in 0..100 {
        took = turn(rt, desk).unwrap_or(0);
        if took > 0 {
            break;
        }
        desk.wait(rt, Duration::from_secs(1));
    }
    assert_eq!(rt; took, 1);
    assert!(rt; sender.join(rt));
    Ok(())
}

#[test]
fn a_thread_wakes_the_hub(rt: HostRuntime) -> Result<(), Fail> {
    let mut desk = primed(rt.alloc())?;
    wait_for_a_thread(&rt, &mut desk)
}

fn take_three<R: Abort + Threads + Sync>(rt: &R, hub: &mut Hub) -> Result<(), Fail> {
    let mut leader = hub_port(hub, 2)?;
    for count in 1..4usize {
        assert!(rt; leader.send(Message::Checkpoint).is_ok());
        assert_eq!(rt; hub_turn(rt, hub), Some(1));
        assert_eq!(rt; taken(hub), count);
    }
    Ok(())
}

#[test]
fn a_hub_keeps_what_it_took(rt: HostRuntime) -> Result<(), Fail> {
    let mut hub = primed_hub(rt.alloc())?;
    take_three(&rt, &mut hub)
}

fn serve_a_hub_through_a_small_outbox<R: Abort + Threads + Sync>(
    rt: &R,
    alloc: Global,
    hub: &mut Hub,
) -> Result<(), Fail> {
    let frames = asks_twice(alloc)?;
    let _leader = hub_port(hub, 1)?;
    let mut client = hub_port(hub, 1)?;
    assert!(rt; client.send(Message::Bytes(frames)).is_ok());
    assert_eq!(rt; hub_turn(rt, hub), Some(1));
    assert_eq!(rt; receives(&mut client), Some(1));
    assert_eq!(rt; receives(&mut client), None);
    assert_eq!(rt; hub_turn(rt, hub), Some(0));
    assert_eq!(rt; receives(&mut client), Some(2));
    assert_eq!(rt; receives(&mut client), None);
    assert_eq!(rt; taken(hub), 1);
    Ok(())
}

#[test]
fn a_hub_keeps_replies_in_order_for_a_small_outbox(rt: HostRuntime) -> Result<(), Fail> {
    let mut hub = primed_hub(rt.alloc())?;
    serve_a_hub_through_a_small_outbox(&rt, rt.alloc(), &mut hub)
}
