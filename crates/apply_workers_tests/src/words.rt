//! Batches and trees given as words, and their outcomes in words.

use batcher::{Batch, HashKey, Limits, cut};
use batcher_tests::read_txns;
use data_tree::{Outcome, Tree, Trigger};
use std::alloc::Global;
use std::test::Fail;

/// Words to begin with, words of transactions in two groups, and the outcomes and the state of these.
pub const TWO_GROUPS: ((&str, &str), &str) = (
    ("/a /b", "/a/x /a/y /b/z"),
    "0+/a/x~/a;0+/a/y~/a;0+/b/z~/b;8 a b zookeeper; x y; z; -1 2,2,2 1,1,3",
);

/// The same, of words with a barrier between two groups.
pub const CLOSE_SESSION: ((&str, &str), &str) = (
    ("open /a /b !/a/e !/a/f !/b/g", "/a/x close /b/y"),
    "0+/a/x~/a;0-/a/e~/a-/a/f~/a-/b/g~/b;0+/b/y~/b;7 a b zookeeper; x; y; -1 5,1,2 3,1,3",
);

// The tree that every log starts from. It has no contract, so that no proof computes anything from the tree.
fn fresh(alloc: Global) -> Result<Tree, Fail> {
    Ok(Tree::fresh(alloc)?)
}

// Applies the transactions of these words.
fn apply_all(alloc: Global, tree: &mut Tree, words: &str) -> Result<Vec<Outcome>, Fail> {
    let mut outcomes = Vec::new(alloc);
    for txn in read_txns(alloc, words)? {
        outcomes.push(tree.apply(alloc, &txn)?)?;
    }
    Ok(outcomes)
}

/// The fresh tree, after the transactions of these words.
pub fn tree_behind(alloc: Global, words: &str) -> Result<Tree, Fail> {
    let mut tree = fresh(alloc)?;
    apply_all(alloc, &mut tree, words)?;
    Ok(tree)
}

/// The batch cut from the transactions of these words with the default limits.
pub fn batch_of(alloc: Global, words: &str) -> Result<Batch, Fail> {
    let limits = Limits::new(4, 256, 64)?;
    let txns = read_txns(alloc, words)?;
    Ok(cut(alloc, HashKey::default(), txns.as_slice(), &limits)?)
}

/// All batches cut from the transactions of these words, one after the other; without transactions the empty one.
pub fn batches_of(alloc: Global, words: &str) -> Result<Vec<Batch>, Fail> {
    let limits = Limits::new(4, 256, 64)?;
    let txns = read_txns(alloc, words)?;
    let mut rest = txns.as_slice();
    let mut batches = Vec::new(alloc);
    for _ in 0..=txns.len() {
        let batch = cut(alloc, HashKey::default(), rest, &limits)?;
        if batch.len() <= rest.len() {
            rest = &rest[batch.len()..];
        }
        batches.push(batch)?;
        if rest.is_empty() {
            return Ok(batches);
        }
    }
    Ok(batches)
}

/// The number of transactions in each batch.
pub fn sizes(alloc: Global, batches: &[Batch]) -> Result<String, Fail> {
    let mut text = String::new(alloc);
    for batch in batches {
        let size = batch.len();
        text.push_str(format!(in alloc; "{size} ")?.as_str())?;
    }
    Ok(text)
}

// A trigger as a sign and a path.
fn told(trigger: &Trigger) -> (char, &str) {
    match trigger {
        Trigger::Created(path) => ('+', path.as_str()),
        Trigger::Deleted(path) => ('-', path.as_str()),
        Trigger::DataChanged(path) => ('=', path.as_str()),
        Trigger::ChildrenChanged(path) => ('~', path.as_str()),
    }
}

/// Each outcome's error, and its triggers: "+" for a node that was created, "-" for one that was deleted, "=" if its
/// data changed, "~" if its children did.
pub fn answers(alloc: Global, outcomes: &[Outcome]) -> Result<String, Fail> {
    let mut text = String::new(alloc);
    for outcome in outcomes {
        let err = outcome.results.err;
        text.push_str(format!(in alloc; "{err}")?.as_str())?;
        for trigger in outcome.triggers.as_slice() {
            let (sign, path) = told(trigger);
            text.push(sign)?;
            text.push_str(path)?;
        }
        text.push_str(";")?;
    }
    Ok(text)
}

// The names of the children of the node at the path.
fn names(alloc: Global, tree: &Tree, path: &str) -> Result<String, Fail> {
    let mut text = String::new(alloc);
    if let Some(children) = tree.children(path) {
        for name in children.iter() {
            text.push_str(" ")?;
            text.push_str(name.as_str())?;
        }
    }
    Ok(text)
}

// The cversion, the number of children and the pzxid in the Stat of the node at the path, or a dash.
fn figures(alloc: Global, tree: &Tree, path: &str) -> Result<String, Fail> {
    let Some(stat) = tree.stat(path) else {
        return Ok(String::from_str(alloc, "-")?);
    };
    let (cversion, children, pzxid) = (stat.cversion, stat.num_children, stat.pzxid);
    Ok(format!(in alloc; "{cversion},{children},{pzxid}")?)
}

/// The number of nodes, the children of "/", "/a" and "/b", the timeout of session 9, or -1, and the figures of "/a"
/// and "/b".
pub fn state(alloc: Global, tree: &Tree) -> Result<String, Fail> {
    let count = tree.paths();
    let root = names(alloc, tree, "/")?;
    let a = names(alloc, tree, "/a")?;
    let b = names(alloc, tree, "/b")?;
    let timeout = tree.sessions().get(9).unwrap_or(-1);
    let of_a = figures(alloc, tree, "/a")?;
    let of_b = figures(alloc, tree, "/b")?;
    Ok(format!(in alloc; "{count}{root};{a};{b}; {timeout} {of_a} {of_b}")?)
}

/// These outcomes, and the tree afterwards.
pub fn ending(alloc: Global, outcomes: &[Outcome], tree: &Tree) -> Result<String, Fail> {
    let mut text = answers(alloc, outcomes)?;
    text.push_str(state(alloc, tree)?.as_str())?;
    Ok(text)
}

// The outcomes and the state of the transactions of these words, one after the other.
fn ending_behind(alloc: Global, tree: &mut Tree, words: &str) -> Result<String, Fail> {
    let outcomes = apply_all(alloc, tree, words)?;
    ending(alloc, outcomes.as_slice(), tree)
}

/// The same, after those of the words before.
pub fn one_by_one(alloc: Global, before: &str, words: &str) -> Result<String, Fail> {
    let mut tree = tree_behind(alloc, before)?;
    ending_behind(alloc, &mut tree, words)
}
