//! A batch has the state and the outcomes of its transactions one after the other, however many workers there are.
use crate::words::{
    CLOSE_SESSION, TWO_GROUPS, answers, batches_of, one_by_one, sizes, state, tree_behind,
};
use apply_workers::{OpenGate, Step, apply_batch, apply_inline};
use batcher::{Batch, HashKey, Limits, cut};
use batcher_tests::read_txn;
use data_tree::{Outcome, Tree};
use std::alloc::Global;
use std::test::Fail;
use std::thread::Threads;
use txn_codec::Body;
use values::NoMemory;

// Two workers that share two groups of three transactions, and then some steps that can't be taken.
const TWO_WORKERS: [Step; 10] = [
    Step::Claim(0),
    Step::Claim(1),
    Step::Do(1),
    Step::Give(1),
    Step::Do(0),
    Step::Give(0),
    Step::Do(0),
    Step::Give(0),
    Step::Claim(1),
    Step::Do(2),
];

// The second of two groups is applied first.
const SECOND_FIRST: [Step; 5] = [
    Step::Claim(0),
    Step::Claim(1),
    Step::Do(1),
    Step::Do(1),
    Step::Give(1),
];

// The way to apply a batch: by this many workers, or by steps.
#[derive(Clone, Copy)]
enum Way {
    OneWorker,
    TwoWorkers,
    MostWorkers,
    StepsOfTwo,
    NoSteps,
}

const WAYS: [Way; 5] = [
    Way::OneWorker,
    Way::TwoWorkers,
    Way::MostWorkers,
    Way::StepsOfTwo,
    Way::NoSteps,
];

fn do_batch<R: Threads + Sync>(
    rt: &R,
    alloc: Global,
    tree: &mut Tree,
    batch: Batch,
    way: Way,
) -> Result<Vec<Outcome>, NoMemory> {
    match way {
        Way::OneWorker => apply_batch(rt, alloc, tree, batch, 1, &OpenGate),
        Way::TwoWorkers => apply_batch(rt, alloc, tree, batch, 2, &OpenGate),
        Way::MostWorkers => apply_batch(rt, alloc, tree, batch, 64, &OpenGate),
        Way::StepsOfTwo => apply_inline(alloc, tree, batch, &TWO_WORKERS),
        Way::NoSteps => apply_inline(alloc, tree, batch, &[]),
    }
}

// The outcomes and the state of the batches of these words, one after the other.
fn told_of<R: Threads + Sync>(
    rt: &R,
    alloc: Global,
    tree: &mut Tree,
    words: &str,
    way: Way,
) -> Result<String, Fail> {
    let mut text = String::new(alloc);
    for batch in batches_of(alloc, words)? {
        let outcomes = do_batch(rt, alloc, tree, batch, way)?;
        text.push_str(answers(alloc, outcomes.as_slice())?.as_str())?;
    }
    text.push_str(state(alloc, tree)?.as_str())?;
    Ok(text)
}

// The same, after those of the words before.
fn in_batches<R: Threads + Sync>(
    rt: &R,
    alloc: Global,
    (before, words): (&str, &str),
    way: Way,
) -> Result<String, Fail> {
    let mut tree = tree_behind(alloc, before)?;
    told_of(rt, alloc, &mut tree, words, way)
}

// Whether each way to apply the batches of the words has this result, after those of the words before.
fn is_so_each_way<R: Threads + Sync>(
    rt: &R,
    alloc: Global,
    words: (&str, &str),
    wanted: &str,
) -> Result<bool, Fail> {
    for way in WAYS {
        if in_batches(rt, alloc, words, way)?.as_str() != wanted {
            return Ok(false);
        }
    }
    Ok(true)
}

// Whether the batches of these words have these sizes, and whether 1, 2 and 64 workers, the steps of two, no steps at
// all, and the transactions one after the other all have this result.
fn is_so<R: Threads + Sync>(
    rt: &R,
    alloc: Global,
    (before, words): (&str, &str),
    wanted_sizes: &str,
    wanted: &str,
) -> Result<bool, Fail> {
    Ok(
        sizes(alloc, batches_of(alloc, words)?.as_slice())?.as_str() == wanted_sizes
            && one_by_one(alloc, before, words)?.as_str() == wanted
            && is_so_each_way(rt, alloc, (before, words), wanted)?,
    )
}

// A batch that creates session 9 twice, in two groups, with timeouts of 5000 and of 6000.
fn two_timeouts(alloc: Global) -> Result<Batch, Fail> {
    let mut later = read_txn(alloc, "open")?;
    later.body = Body::CreateSession(6000);
    let mut txns = Vec::new(alloc);
    txns.push(read_txn(alloc, "open")?)?;
    txns.push(read_txn(alloc, "/a")?)?;
    txns.push(later)?;
    let limits = Limits::new(2, 256, 64)?;
    Ok(cut(alloc, HashKey::default(), txns.as_slice(), &limits)?)
}

// The timeout of session 9 after that batch, applied by two workers.
fn timeout_by_workers<R: Threads + Sync>(rt: &R, alloc: Global) -> Result<Option<i32>, Fail> {
    let batch = two_timeouts(alloc)?;
    let mut tree = tree_behind(alloc, "")?;
    let _outcomes = apply_batch(rt, alloc, &mut tree, batch, 2, &OpenGate)?;
    Ok(tree.sessions().get(9))
}

// The same, applied by steps of which the second group's come first.
fn timeout_by_steps(alloc: Global) -> Result<Option<i32>, Fail> {
    let batch = two_timeouts(alloc)?;
    let mut tree = tree_behind(alloc, "")?;
    let _outcomes = apply_inline(alloc, &mut tree, batch, &SECOND_FIRST)?;
    Ok(tree.sessions().get(9))
}

#[test]
fn groups_are_done_apart(rt: HostRuntime) -> Result<(), Fail> {
    let alloc = rt.alloc();
    let (words, wanted) = TWO_GROUPS;
    assert!(rt; is_so(&rt, alloc, words, "3 ", wanted)?);
    assert!(rt;
        is_so(
            &rt,
            alloc,
            ("/a /b", "/a/x /b/y /a/x /b/z open"),
            "5 ",
            "0+/a/x~/a;0+/b/y~/b;-110;0+/b/z~/b;0;8 a b zookeeper; x; y z; 5000 3,1,3 2,2,4",
        )?
    );
    Ok(())
}

#[test]
fn what_meets_two_groups_begins_the_next_batch(rt: HostRuntime) -> Result<(), Fail> {
    let alloc = rt.alloc();
    assert!(rt;
        is_so(
            &rt,
            alloc,
            ("/a /b", "/a/x /b/y +/a/p,/b/q"),
            "2 1 ",
            "0+/a/x~/a;0+/b/y~/b;0+/a/p~/a+/b/q~/b;9 a b zookeeper; p x; q y; -1 2,2,3 2,2,3",
        )?
    );
    Ok(())
}

#[test]
fn a_barrier_is_done_on_the_tree(rt: HostRuntime) -> Result<(), Fail> {
    let alloc = rt.alloc();
    let (words, wanted) = CLOSE_SESSION;
    assert!(rt; is_so(&rt, alloc, words, "1 1 1 ", wanted)?);
    Ok(())
}

#[test]
fn the_empty_batch_does_nothing(rt: HostRuntime) -> Result<(), Fail> {
    let alloc = rt.alloc();
    assert!(rt; is_so(&rt, alloc, ("/a", ""), "0 ", "4 a zookeeper;;; -1 0,0,1 -")?);
    Ok(())
}

#[test]
fn timeouts_are_set_in_the_order_of_the_batch(rt: HostRuntime) -> Result<(), Fail> {
    let alloc = rt.alloc();
    assert!(rt; two_timeouts(alloc)?.groups().len() == 2);
    assert!(rt; timeout_by_workers(&rt, alloc)? == Some(6000));
    assert!(rt; timeout_by_steps(alloc)? == Some(6000));
    Ok(())
}
