//! Boards whose seats take turns, on one thread.

ghost use Rattle.std.specs.Prelude.{◌≡◌, ◌<◌};
ghost use Rattle.apply_board.specs.Seats.{IsOpener};

use crate::doubling::{Doubled, Number, numbers, shown};
use apply_board::{Board, Seat};
use apply_workers::{Job, OpenGate, work};
use std::test::Fail;

#[test]
fn three_works_two_seats(rt: HostRuntime) -> Result<(), Fail> {
    let alloc = rt.alloc();
    let (board, mut a) = Board::open(alloc, numbers(alloc, 3)?)?;
    let Some(mut b) = board.seat(&mut a) else {
        panic!(rt; "a second seat")
    };
    let Some((first, work)) = board.claim(&mut a) else {
        panic!(rt; "the first claim")
    };
    let doubled = work.apply();
    let Some((second, other)) = board.claim(&mut b) else {
        panic!(rt; "the second claim")
    };
    assert!(rt; first.number == 0 && second.number == 1);
    board.give(&mut b, second, other.apply());
    board.give(&mut a, first, doubled);
    let Some((third, work)) = board.claim(&mut b) else {
        panic!(rt; "the third claim")
    };
    assert!(rt; third.number == 2 && board.claim(&mut a).is_none());
    board.give(&mut b, third, work.apply());
    let mut seats = Vec::new(alloc);
    seats.push(a)?;
    seats.push(b)?;
    let groups = board.close(seats);
    assert_eq!(rt; shown(alloc, groups.as_slice())?.as_str(), "=20=22=24");
    Ok(())
}

#[test]
fn what_nobody_claimed_comes_back(rt: HostRuntime) -> Result<(), Fail> {
    let alloc = rt.alloc();
    let (board, mut a) = Board::open(alloc, numbers(alloc, 3)?)?;
    let Some((first, work)) = board.claim(&mut a) else {
        panic!(rt; "the first claim")
    };
    board.give(&mut a, first, work.apply());
    let mut seats = Vec::new(alloc);
    seats.push(a)?;
    let groups = board.close(seats);
    assert_eq!(rt; shown(alloc, groups.as_slice())?.as_str(), "=20?11?12");
    Ok(())
}

#[test]
fn no_work(rt: HostRuntime) -> Result<(), Fail> {
    let alloc = rt.alloc();
    let (board, mut a) = Board::<Number, Doubled>::open(alloc, Vec::new(alloc))?;
    assert!(rt; board.claim(&mut a).is_none());
    assert!(rt; board.claim(&mut a).is_none());
    let mut seats = Vec::new(alloc);
    seats.push(a)?;
    assert!(rt; board.close(seats).is_empty());
    Ok(())
}

#[test]
fn a_worker_claims_what_is_left(rt: HostRuntime) -> Result<(), Fail> {
    let alloc = rt.alloc();
    let (board, mut a) = Board::open(alloc, numbers(alloc, 3)?)?;
    let Some(b) = board.seat(&mut a) else {
        panic!(rt; "a second seat")
    };
    let Some((first, number)) = board.claim(&mut a) else {
        panic!(rt; "the first claim")
    };
    let b = work(&board, b, 1, &OpenGate);
    board.give(&mut a, first, number.apply());
    assert!(rt; board.claim(&mut a).is_none());
    let mut seats = Vec::new(alloc);
    seats.push(a)?;
    seats.push(b)?;
    let groups = board.close(seats);
    assert_eq!(rt; shown(alloc, groups.as_slice())?.as_str(), "=20=22=24");
    Ok(())
}

// The number of seats that the board makes besides the opener's, when a hundred are asked for.
fn seats_beside(board: &Board<Number, Doubled>, opener: &mut Seat<Number, Doubled>) -> u64
    requires own { opener.old.board ≡ board.now }
    requires opener { IsOpener opener.old }
{
    for made in 0..100 {
        if board.seat(opener).is_none() {
            return made;
        }
    }
    100
}

#[test]
fn at_most_64_seats(rt: HostRuntime) -> Result<(), Fail> {
    let alloc = rt.alloc();
    let (board, mut opener) = Board::<Number, Doubled>::open(alloc, numbers(alloc, 1)?)?;
    assert!(rt; seats_beside(&board, &mut opener) == 63);
    Ok(())
}
