//! The outcomes of transactions, one after the other.

use data_tree::{Outcome, PartResult, Tree, Trigger};
use settings::Dialect;
use std::alloc::Global;
use std::test::Fail;
use txn_codec::{Txn, decode_txn, decode_txn_in};

// Session 9 creates the ephemeral /e.
const CREATE_E: &[u8; 51] =
    b"\0\0\0\0\0\0\0\x09\0\0\0\x01\0\0\0\0\0\0\0\x01\0\0\0\0\0\0\x03\xe8\0\0\0\x01\0\0\0\x02/e\xff\xff\xff\xff\xff\xff\xff\xff\x01\xff\xff\xff\xff";
// Session 9 creates the ephemeral /d.
const CREATE_D: &[u8; 51] =
    b"\0\0\0\0\0\0\0\x09\0\0\0\x01\0\0\0\0\0\0\0\x02\0\0\0\0\0\0\x03\xe8\0\0\0\x01\0\0\0\x02/d\xff\xff\xff\xff\xff\xff\xff\xff\x01\xff\xff\xff\xff";
// Session 7 creates /d/x; the cversion of /d becomes 2,147,483,647.
const CREATE_X: &[u8; 53] =
    b"\0\0\0\0\0\0\0\x07\0\0\0\x01\0\0\0\0\0\0\0\x03\0\0\0\0\0\0\x03\xe8\0\0\0\x01\0\0\0\x04/d/x\xff\xff\xff\xff\xff\xff\xff\xff\0\x7f\xff\xff\xff";
// Session 7 creates /d/y; the cversion of /d counts up by one.
const CREATE_Y: &[u8; 53] =
    b"\0\0\0\0\0\0\0\x07\0\0\0\x01\0\0\0\0\0\0\0\x04\0\0\0\0\0\0\x03\xe8\0\0\0\x01\0\0\0\x04/d/y\xff\xff\xff\xff\xff\xff\xff\xff\0\xff\xff\xff\xff";
// A multi that failed: a create of /m, an error of -101, a delete of /e.
const FAILED_MULTI: &[u8; 89] =
    b"\0\0\0\0\0\0\0\x07\0\0\0\x01\0\0\0\0\0\0\0\x05\0\0\0\0\0\0\x03\xe8\0\0\0\x0e\0\0\0\x03\0\0\0\x01\0\0\0\x13\0\0\0\x02/m\xff\xff\xff\xff\xff\xff\xff\xff\0\xff\xff\xff\xff\xff\xff\xff\xff\0\0\0\x04\xff\xff\xff\x9b\0\0\0\x02\0\0\0\x06\0\0\0\x02/e";
// A multi: a create of /e, which exists, and null data for /e.
const MULTI: &[u8; 85] =
    b"\0\0\0\0\0\0\0\x07\0\0\0\x01\0\0\0\0\0\0\0\x06\0\0\0\0\0\0\x03\xe8\0\0\0\x0e\0\0\0\x02\0\0\0\x01\0\0\0\x13\0\0\0\x02/e\xff\xff\xff\xff\xff\xff\xff\xff\0\0\0\0\x01\0\0\0\x05\0\0\0\x0e\0\0\0\x02/e\xff\xff\xff\xff\0\0\0\x01";
// A multi: null data for /e, version 1, and then a delete of /e.
const SET_AND_DELETE: &[u8; 72] =
    b"\0\0\0\0\0\0\0\x07\0\0\0\x02\0\0\0\0\0\0\0\x02\0\0\0\0\0\0\x03\xe8\0\0\0\x0e\0\0\0\x02\0\0\0\x05\0\0\0\x0e\0\0\0\x02/e\xff\xff\xff\xff\0\0\0\x01\0\0\0\x02\0\0\0\x06\0\0\0\x02/e";
// The open list for /d, aversion 4.
const SET_ACL: &[u8; 46] =
    b"\0\0\0\0\0\0\0\x07\0\0\0\x01\0\0\0\0\0\0\0\x07\0\0\0\0\0\0\x03\xe8\0\0\0\x07\0\0\0\x02/d\xff\xff\xff\xff\0\0\0\x04";
// Session 9 ends.
const CLOSE: &[u8; 32] =
    b"\0\0\0\0\0\0\0\x09\0\0\0\x01\0\0\0\0\0\0\0\x08\0\0\0\0\0\0\x03\xe8\xff\xff\xff\xf5";

// A trigger as a sign and its path.
fn sign_of(trigger: &Trigger) -> (&'static str, &str) {
    match trigger {
        Trigger::Created(path) => (" +", path.as_str()),
        Trigger::Deleted(path) => (" -", path.as_str()),
        Trigger::DataChanged(path) => (" =", path.as_str()),
        Trigger::ChildrenChanged(path) => (" ~", path.as_str()),
    }
}

fn add_error(alloc: Global, text: &mut String, part: &PartResult) -> Result<(), Fail> {
    let shown = format!(in alloc; " {}", part.err)?;
    text.push_str(shown.as_str())?;
    Ok(())
}

// Appends the errors of the parts.
fn add_errors(alloc: Global, text: &mut String, parts: &[PartResult]) -> Result<(), Fail> {
    for part in parts {
        add_error(alloc, text, part)?;
    }
    Ok(())
}

// Appends the triggers, as signs and paths.
fn add_signs(text: &mut String, triggers: &[Trigger]) -> Result<(), Fail> {
    for trigger in triggers {
        let (sign, path) = sign_of(trigger);
        text.push_str(sign)?;
        text.push_str(path)?;
    }
    Ok(())
}

/// Appends a number.
pub fn add_number(alloc: Global, text: &mut String, number: i32) -> Result<(), Fail> {
    let shown = format!(in alloc; "{number}")?;
    text.push_str(shown.as_str())?;
    Ok(())
}

/// Appends the error, the parts' errors, and the triggers.
pub fn add_outcome(alloc: Global, text: &mut String, outcome: &Outcome) -> Result<(), Fail> {
    add_number(alloc, text, outcome.results.err)?;
    add_errors(alloc, text, outcome.results.parts.as_slice())?;
    add_signs(text, outcome.triggers.as_slice())
}

/// Applies the transaction and appends its outcome.
pub fn apply(alloc: Global, tree: &mut Tree, txn: &Txn, text: &mut String) -> Result<(), Fail> {
    add_outcome(alloc, text, &tree.apply(alloc, txn)?)
}

// Applies the transaction that the bytes spell, and appends its outcome.
fn apply_bytes(
    alloc: Global,
    tree: &mut Tree,
    rules: Dialect,
    bytes: &[u8],
    text: &mut String,
) -> Result<(), Fail> {
    apply(alloc, tree, &decode_txn_in(rules, alloc, bytes)?, text)
}

// Applies these transactions, one after the other, and appends their outcomes.
fn apply_all(
    alloc: Global,
    tree: &mut Tree,
    rules: Dialect,
    texts: &[&[u8]],
    text: &mut String,
) -> Result<(), Fail> {
    for bytes in texts {
        apply_bytes(alloc, tree, rules, bytes, text)?;
        text.push_str("; ")?;
    }
    Ok(())
}

/// Applies the transactions that these bytes spell in the dialect, and returns their outcomes.
pub fn answers(
    alloc: Global,
    tree: &mut Tree,
    rules: Dialect,
    texts: &[&[u8]],
) -> Result<String, Fail> {
    let mut text = String::new(alloc);
    apply_all(alloc, tree, rules, texts, &mut text)?;
    Ok(text)
}

// The cversion of the Stat, the number of children, the pzxid and the aversion of a node.
fn numbers(tree: &Tree, path: &str) -> Option<(i32, i32, i64, i32)> {
    let stat = tree.stat(path)?;
    Some((stat.cversion, stat.num_children, stat.pzxid, stat.aversion))
}

/// The tree that every log starts from. It has no contract, so that no proof computes anything from the tree.
pub fn fresh(alloc: Global) -> Result<Tree, Fail> {
    Ok(Tree::fresh(alloc)?)
}

// The outcomes of the transactions, and the numbers of a node afterwards.
fn answers_and_node(
    alloc: Global,
    texts: &[&[u8]],
    path: &str,
) -> Result<(String, Option<(i32, i32, i64, i32)>), Fail> {
    let mut tree = fresh(alloc)?;
    let all = answers(alloc, &mut tree, Dialect::Zk34, texts)?;
    Ok((all, numbers(&tree, path)))
}

#[test]
fn creates_are_answered(rt: HostRuntime) -> Result<(), Fail> {
    let texts: [&[u8]; 4] = [CREATE_E, CREATE_D, CREATE_X, CREATE_Y];
    let wanted = "0 +/e ~/; 0 +/d ~/; 0 +/d/x ~/d; 0 +/d/y ~/d; ";
    let (all, numbers) = answers_and_node(rt.alloc(), &texts, "/d")?;
    assert_eq!(rt; all.as_str(), wanted);
    assert_eq!(rt; numbers, Some((-2, 2, 4, 0)));
    Ok(())
}

#[test]
fn the_others_are_answered(rt: HostRuntime) -> Result<(), Fail> {
    let texts: [&[u8]; 6] = [CREATE_E, CREATE_D, FAILED_MULTI, MULTI, SET_ACL, CLOSE];
    let wanted = "0 +/e ~/; 0 +/d ~/; -101 0 -101 -2; -110 -110 0 =/e; 0; 0 -/d ~/ -/e ~/; ";
    let (all, numbers) = answers_and_node(rt.alloc(), &texts, "/m")?;
    assert_eq!(rt; all.as_str(), wanted);
    assert_eq!(rt; numbers, None);
    Ok(())
}

// The version and the mzxid of a part's Stat.
fn stat_numbers(part: &PartResult) -> Option<(i32, i64)> {
    match &part.stat {
        None => None,
        Some(stat) => Some((stat.version, stat.mzxid)),
    }
}

// The Stats of the parts of a multi that sets data of /e and then deletes it.
fn stats_of_parts(parts: &[PartResult]) -> Option<(Option<(i32, i64)>, Option<(i32, i64)>)> {
    let [set, delete] = parts else {
        return None;
    };
    Some((stat_numbers(set), stat_numbers(delete)))
}

// Whether the first part has the Stat of its node and the second none.
fn has_one_stat(alloc: Global, tree: &mut Tree, txn: &Txn) -> Result<bool, Fail> {
    let outcome = tree.apply(alloc, txn)?;
    let stats = stats_of_parts(outcome.results.parts.as_slice());
    Ok(stats == Some((Some((1, 2)), None)))
}

/// A part's Stat is that of its node right after the part, although the next part deletes the node.
#[test]
fn parts_have_their_stats(rt: HostRuntime) -> Result<(), Fail> {
    let alloc = rt.alloc();
    let mut tree = fresh(alloc)?;
    assert!(rt; answers(alloc, &mut tree, Dialect::Zk34, &[CREATE_E])?.len() > 0);
    assert!(rt; has_one_stat(alloc, &mut tree, &decode_txn(alloc, SET_AND_DELETE)?)?);
    assert!(rt; tree.node("/e").is_none());
    Ok(())
}
