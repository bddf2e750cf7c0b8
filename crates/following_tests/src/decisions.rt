//! Searches, waits, limits, checkpoints and verdicts, in words.

use following::{Checkpoints, Finding, Outcome, Patience, Stage, Verdict, silence_limit};
use settings::ServerId;
use std::alloc::Global;
use std::test::Fail;
use values::Fault;

// The servers that are tried and the pauses before, with what becomes of each.
fn tries(alloc: Global, finding: &mut Finding, outcomes: &[Outcome]) -> Result<String, Fail> {
    let mut text = String::new(alloc);
    for outcome in outcomes {
        let candidate = finding.next();
        finding.report(candidate.server, *outcome);
        text.push_str(format!(in alloc; "{}+{} ", candidate.server, candidate.pause)?.as_str())?;
    }
    Ok(text)
}

// Three servers: the second one leads, falls silent, and then nobody does; at last five are refused.
fn search(alloc: Global) -> Result<String, Fail> {
    let Some(mut finding) = Finding::new(3, ServerId::default()) else {
        return Ok(String::new(alloc));
    };
    let silent = Outcome::Silent { served: 60_000 };
    let lost = [
        Outcome::NotLeading,
        silent,
        Outcome::NotLeading,
        Outcome::NotLeading,
        Outcome::Ended { served: 0 },
    ];
    let mut text = tries(alloc, &mut finding, &lost)?;
    let refused = [Outcome::Refused; 5];
    text.push_str(tries(alloc, &mut finding, &refused)?.as_str())?;
    text.push_str(format!(in alloc; "{}", finding.is_hopeless())?.as_str())?;
    Ok(text)
}

// A leader that was heard at 1,000, and then again at 12,300, at the second look: so only its next silence counts.
fn wait(alloc: Global) -> Result<String, Fail> {
    let mut patience = Patience::new(0);
    patience.heard(1000);
    let first = patience.judge(4000, Some(10_000));
    let stopped = patience.judge(12_000, Some(10_000));
    patience.heard(12_300);
    let kept = patience.judge(12_400, Some(10_000));
    let silent = patience.judge(22_300, Some(10_000));
    let gone = patience.judge(22_500, Some(10_000));
    Ok(format!(in alloc; "{first:?} {stopped:?} {kept:?} {silent:?} {gone:?}")?)
}

// With ticks of 2,000 ms, 10 of them to synchronise and 5 to serve: before LEADERINFO, the first time and again; before
// UPTODATE; without a session, and with one of 8 s and of 3 s.
fn limits(alloc: Global) -> Result<String, Fail> {
    let serving = Stage::Serving;
    let rows = [
        (Stage::Greeting, None),
        (Stage::GreetingAgain, None),
        (Stage::Synchronising, None),
        (serving, None),
        (serving, Some(8000)),
        (serving, Some(3000)),
    ];
    let mut text = String::new(alloc);
    for (stage, least_timeout) in &rows {
        let limit = silence_limit(*stage, 2000, 10, 5, *least_timeout).unwrap_or(0);
        text.push_str(format!(in alloc; "{limit} ")?.as_str())?;
    }
    Ok(text)
}

// After 64 MiB, after one byte more, and after a checkpoint and then 64 MiB in two pieces.
fn checkpoints(alloc: Global) -> Result<String, Fail> {
    let mut plan = Checkpoints::new(64);
    plan.received(67_108_864);
    let before = plan.is_due();
    plan.received(1);
    let due = plan.is_due();
    plan.taken();
    plan.received(60_000_000);
    plan.received(7_108_864);
    let again = plan.is_due();
    Ok(format!(in alloc; "{before} {due} {again}")?)
}

// Where none is wanted.
fn no_checkpoints() -> bool {
    let mut plan = Checkpoints::new(0);
    plan.received(u64::MAX);
    plan.is_due()
}

// Of a leader that just ended, of an old one, and of one that cut too far.
fn verdicts(alloc: Global) -> Result<String, Fail> {
    let ended = Verdict::after(None);
    let old = Verdict::after(Some(Fault::EpochTooSmall));
    let cut = Verdict::after(Some(Fault::CannotTruncate));
    Ok(format!(in alloc; "{ended:?} {old:?} {cut:?}")?)
}

#[test]
fn servers_in_turn(rt: HostRuntime) -> Result<(), Fail> {
    let text = search(rt.alloc())?;
    assert_eq!(rt;
        text.as_str(),
        "0+0 1+0 2+0 0+0 1+0 2+100 0+150 1+150 2+150 0+225 true"
    );
    Ok(())
}

#[test]
fn silences(rt: HostRuntime) -> Result<(), Fail> {
    let text = wait(rt.alloc())?;
    let text = text.as_str();
    assert_eq!(rt;
        text,
        "Wait(7000) SecondLook Wait(9900) SecondLook GivenUp { silent: 10200 }"
    );
    Ok(())
}

#[test]
fn limits_of_silence(rt: HostRuntime) -> Result<(), Fail> {
    let text = limits(rt.alloc())?;
    assert_eq!(rt; text.as_str(), "3000 500 20000 10000 6000 3000 ");
    Ok(())
}

#[test]
fn checkpoints_by_bytes(rt: HostRuntime) -> Result<(), Fail> {
    let text = checkpoints(rt.alloc())?;
    assert_eq!(rt; text.as_str(), "false true false");
    assert!(rt; !no_checkpoints());
    Ok(())
}

#[test]
fn ends(rt: HostRuntime) -> Result<(), Fail> {
    let text = verdicts(rt.alloc())?;
    assert_eq!(rt; text.as_str(), "SameEngine Pause NewProcess");
    Ok(())
}
