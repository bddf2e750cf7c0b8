//! The steps of a batch's groups that are taken.

use crate::words::{batch_of, ending, state, tree_behind};
use apply_workers::{Groups, Step};
use data_tree::Tree;
use std::alloc::Global;
use std::test::Fail;

const TWO_WORKERS: [Step; 8] = [
    Step::Claim(0),
    Step::Claim(1),
    Step::Do(1),
    Step::Give(1),
    Step::Do(0),
    Step::Give(0),
    Step::Do(0),
    Step::Give(0),
];

// For each step whether it is taken, as "+" or "-".
fn signs(alloc: Global, groups: &mut Groups, steps: &[Step]) -> Result<String, Fail> {
    let mut text = String::new(alloc);
    for step in steps {
        let sign = if groups.step(alloc, *step)? { "+" } else { "-" };
        text.push_str(sign)?;
    }
    Ok(text)
}

// The state without the cells of the batch, the steps that are taken, and the outcomes and the state of the batch.
fn taken_of(alloc: Global, tree: &mut Tree, words: &str, steps: &[Step]) -> Result<String, Fail> {
    let mut groups = Groups::open(alloc, tree, batch_of(alloc, words)?)?;
    let without = state(alloc, tree)?;
    let taken = signs(alloc, &mut groups, steps)?;
    let outcomes = groups.home(alloc, tree)?;
    let home = ending(alloc, outcomes.as_slice(), tree)?;
    Ok(format!(in alloc; "{without}|{taken}|{home}")?)
}

// The same, after the words before.
fn taken(alloc: Global, before: &str, words: &str, steps: &[Step]) -> Result<String, Fail> {
    let mut tree = tree_behind(alloc, before)?;
    taken_of(alloc, &mut tree, words, steps)
}

#[test]
fn steps_are_taken_where_they_can_be(rt: HostRuntime) -> Result<(), Fail> {
    let alloc = rt.alloc();
    let text = taken(alloc, "/a /b", "/a/x /a/y /b/z", &TWO_WORKERS)?;
    assert_eq!(rt;
        text.as_str(),
        "3 a b zookeeper;;; -1 - -|+++++-++|\
        0+/a/x~/a;0+/a/y~/a;0+/b/z~/b;8 a b zookeeper; x y; z; -1 2,2,2 1,1,3"
    );
    Ok(())
}
