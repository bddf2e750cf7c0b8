//! Works on threads.
ghost use Rattle.std.specs.Prelude.{◌≡◌, ◌<◌, IfOk, All, map, length};
ghost use Rattle.apply_board.specs.Seats.{IsIdle, IsOpener};
ghost use Rattle.apply_board.specs.Closing.{AreHome};
ghost use Rattle.apply_workers.specs.Working.{IsWorked};
ghost use Rattle.apply_workers.specs.Inner.{AreReady, AreWorked};

use crate::gate::Gate;
use crate::job::{Job, work};
use crate::starts::{AllStart, Starts};
use apply_board::{Board, Group, Seat, Yields};
use std::alloc::Global;
use std::thread::{Threads, join};
use values::NoMemory;

// A worker with its number.
#[derive(Drop)]
struct Worker<W: Yields<F>, F> {
    number: usize,
    seat: Seat<W, F>,
}

// Up to this many workers, one for each seat, the opener's first. Its worker has number 0.
fn make_workers<W: Yields<F> + Drop, F: Drop>(
    alloc: Global,
    board: &Board<W, F>,
    mut opener: Seat<W, F>,
    workers: usize,
) -> Result<Vec<Worker<W, F>>, NoMemory>
    requires own { opener.board ≡ board.now }
    requires opener { IsOpener opener × (opener.view.unjoined ≡ 1) × IsIdle opener }
    requires workers { 0 < workers }
    ensures { IfOk result (λ v. AreReady board.now opener.view.works (map (λ w. w.seat) v.items)) }
{
    let mut crew = Vec::with_capacity(alloc, workers)?;
    while crew.len() + 1 < workers {
        let Some(seat) = board.seat(&mut opener) else {
            break;
        };
        let number = crew.len() + 1;
        crew.push_reserved(Worker { number, seat });
    }
    crew.push_reserved(Worker {
        number: 0,
        seat: opener,
    });
    crew.reverse();
    Ok(crew)
}

// The workers' seats once all works are claimed. The first worker works on the calling thread, which starts the threads
// of all others: where one new thread starts another, the system mostly puts both on the same processor.
fn run_workers<
    W: Job<F> + Drop + Send + Sync,
    F: Drop + Send + Sync,
    G: Gate + Sync,
    R: Threads + Sync,
>(
    rt: &R,
    alloc: Global,
    board: &Board<W, F>,
    mut crew: Vec<Worker<W, F>>,
    gate: &G,
) -> Result<Vec<Seat<W, F>>, NoMemory>
    requires { All (λ w. (w.seat.board ≡ board.now) × IsIdle w.seat) crew.items }
    ensures { IfOk result (λ v. AreWorked (map (λ w. w.seat) crew.items) v.items) }
{
    let Some(last) = crew.pop() else {
        return Ok(Vec::new(alloc));
    };
    if crew.is_empty() {
        let mut seats = Vec::new(alloc);
        seats.push(work(board, last.seat, last.number, gate))?;
        return Ok(seats);
    }
    let one = move || -> Seat<W, F>
        requires { (last.seat.board ≡ board.now) × IsIdle last.seat }
        ensures { IsWorked last.seat result }
    { work(board, last.seat, last.number, gate) };
    let others = move || -> Result<Vec<Seat<W, F>>, NoMemory>
        requires { All (λ w. (w.seat.board ≡ board.now) × IsIdle w.seat) crew.items }
        ensures { IfOk result (λ v. AreWorked (map (λ w. w.seat) crew.items) v.items) }
    { run_workers(rt, alloc, board, crew, gate) };
    let (seat, seats) = join(rt, one, others);
    let mut seats = seats?;
    seats.push(seat)?;
    Ok(seats)
}

// The number of workers, the calling thread among them, if each of the others' threads is started that may be.
fn workers_on<S: Starts>(workers: usize, starts: &S) -> usize
    requires { 0 < workers }
    ensures { 0 < result }
{
    let mut count = 1usize;
    for worker in 1..workers {
        if starts.may_start(worker) {
            count += 1;
        }
    }
    count
}

/// Does the works with up to that many workers, each work once, and returns the results in the order of the works.
/// Worker 0 is the calling thread. If a thread can't be started, fewer work.
pub fn run<
    W: Job<F> + Drop + Send + Sync,
    F: Drop + Send + Sync,
    G: Gate + Sync,
    R: Threads + Sync,
>(
    rt: &R,
    alloc: Global,
    works: Vec<W>,
    workers: usize,
    gate: &G,
) -> Result<Vec<Group<W, F>>, NoMemory>
    requires { 0 < workers }
    ensures count { IfOk result (λ v. length v.items ≡ length works.items) }
    ensures home { IfOk result (λ v. AreHome W.gives works.items v.items) }
{
    run_on(rt, alloc, works, workers, gate, &AllStart)
}

/// The same, with only those of the workers' threads started that may be. The workers that there are have the numbers
/// from 0 on.
pub fn run_on<
    W: Job<F> + Drop + Send + Sync,
    F: Drop + Send + Sync,
    G: Gate + Sync,
    R: Threads + Sync,
    S: Starts,
>(
    rt: &R,
    alloc: Global,
    works: Vec<W>,
    workers: usize,
    gate: &G,
    starts: &S,
) -> Result<Vec<Group<W, F>>, NoMemory>
    requires { 0 < workers }
    ensures count { IfOk result (λ v. length v.items ≡ length works.items) }
    ensures home { IfOk result (λ v. AreHome W.gives works.items v.items) }
{
    let (board, opener) = Board::open(alloc, works)?;
    let crew = make_workers(alloc, &board, opener, workers_on(workers, starts))?;
    let seats = run_workers(rt, alloc, &board, crew, gate)?;
    Ok(board.close(seats))
}
