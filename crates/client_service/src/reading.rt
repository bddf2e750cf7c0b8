//! Answers to reads and to requests for watches, and the watches that they leave.

ghost use Rattle.std.specs.Prelude.{◌≡◌, IfOk, IfSome, OnOk, Some};
ghost use Rattle.read_processor.specs.Renewal.{renew_watches, renew_all_watches};
ghost use Rattle.read_processor.specs.Watch.{watch_to_add, watch_sought};
ghost use Rattle.client_service.specs.Serve.{kind_of_other, with_watch, with_each_watch, with_watch_if, answer_read, answer_set_watches, answer_add_watch, has_sought_watch, look_of_sought, answer_check_watches, answer_remove_watches};
ghost use Rattle.client_service.specs.Inner.{IsReadIn};
ghost use Rattle.world.specs.Results.{MakesStep};

use crate::asked::AskedRead;
use crate::later_reads::answer_unreadable;
use crate::request::{SessionCall, readable_call};
use client_frames::{Call, CallBody, LocalCall};
use client_records::codes::{NO_WATCHER, OK};
use client_records::{AddWatch, PathAndKind, SetWatches, SetWatches2};
use jute::codes::BAD_ARGUMENTS;
use read_processor::{
    Look, Renewal, Request, SoughtWatch, Watch, look, look_of_added, renew, renew_all, watch_of,
    watch_sought, watch_to_add,
};
use std::alloc::Global;
use values::NoMemory;
use watch_manager::{WatchKind, WatchMode, Watches};
use world::{Stage, World, notify_all};

// The kind of the lasting watches that aren't of this mode.
fn kind_of_other(mode: WatchMode) -> WatchKind
    ensures { result ≡ kind_of_other mode }
{
    match mode {
        WatchMode::Persistent => WatchKind::Recursive,
        WatchMode::Recursive => WatchKind::Persistent,
    }
}

// Sets a watch; it may be set already.
fn set_watch(
    alloc: Global,
    number: u64,
    watches: &mut Watches,
    watch: &Watch<'_>,
) -> Result<(), NoMemory>
    ensures { OnOk result (watches.new ≡ with_watch number watches.old watch.now) }
{
    match watch {
        Watch::Data(path) => watches.set_data(alloc, number, path.as_str()),
        Watch::Child(path) => watches.set_child(alloc, number, path.as_str()),
        Watch::Lasting(path, mode) => watches.set_lasting(alloc, number, path.as_str(), *mode),
        Watch::LastingAlone(path, mode) => {
            watches.set_lasting(alloc, number, path.as_str(), *mode)?;
            watches.remove_watch(number, path.as_str(), kind_of_other(*mode));
            Ok(())
        }
    }
}

/// Sets a watch that a read leaves; does nothing for None.
pub(crate) fn set_watch_if(
    alloc: Global,
    number: u64,
    watches: &mut Watches,
    watch: &Option<Watch<'_>>,
) -> Result<(), NoMemory>
    ensures { OnOk result (watches.new ≡ with_watch_if number watches.old watch.now) }
{
    match watch {
        None => return Ok(()),
        Some(watch) => set_watch(alloc, number, watches, watch),
    }
}

fn set_watches(
    alloc: Global,
    number: u64,
    watches: &mut Watches,
    asked: &[Watch<'_>],
) -> Result<(), NoMemory>
    ensures { OnOk result (watches.new ≡ with_each_watch number watches.old asked.now) }
{
    for watch in asked {
        set_watch(alloc, number, watches, watch)?;
    }
    Ok(())
}

fn read_of_call<'a, 'b>(call: &'b Call<'a>) -> Option<&'b Request<'a>>
    ensures { IfSome result (λ asked. call.now.body ≡ CallBody.Local (LocalCall.Read asked.now)) }
{
    match &call.body {
        CallBody::Local(LocalCall::Read(asked)) => Some(asked),
        CallBody::Local(
            LocalCall::SetWatches(_)
            | LocalCall::SetWatches2(_)
            | LocalCall::AddWatch(_)
            | LocalCall::CheckWatches(_)
            | LocalCall::RemoveWatches(_)
            | LocalCall::MultiRead(_)
            | LocalCall::GetEphemerals(_)
            | LocalCall::GetAllChildrenNumber(_)
            | LocalCall::WhoAmI
            | LocalCall::Sasl(_)
            | LocalCall::Unreadable
            | LocalCall::InvalidPath
            | LocalCall::Ping
            | LocalCall::Refused
            | LocalCall::Unknown,
        )
        | CallBody::Forward(_)
        | CallBody::Sync(_)
        | CallBody::Auth(_) => None,
    }
}

/// The read that is asked for; None if an earlier request of its connection waits for the leader, or if anything else
/// is asked.
pub(crate) fn gathered_read(
    alloc: Global,
    number: u64,
    world: &World,
    request: &Option<SessionCall<'_>>,
) -> Result<Option<AskedRead>, NoMemory>
    ensures { IfOk result (λ found. IfSome found (IsReadIn number world.now request.now)) }
{
    let Some(call) = readable_call(request) else {
        return Ok(None);
    };
    let Some(asked) = read_of_call(call) else {
        return Ok(None);
    };
    if !world.clients.pending.is_idle(number) {
        return Ok(None);
    }
    Ok(Some(AskedRead::of(alloc, number, call.xid, asked)?))
}

/// Answers a read at the present state, and leaves its watch.
pub(crate) fn answer_request(
    alloc: Global,
    number: u64,
    stage: &mut Stage,
    xid: i32,
    asked: &Request<'_>,
) -> Result<(), NoMemory>
    ensures { MakesStep result stage.old (λ w. answer_read number w xid asked.now) stage.new }
{
    let ids = stage.world.clients.sessions.ids(number);
    let seen = look(alloc, stage.world.replica.tree(), ids, asked)?;
    let watch = watch_of(asked, seen.error);
    set_watch_if(alloc, number, &mut stage.world.clients.watches, &watch)?;
    stage.send_reply(number, xid, seen)
}

// Sets a client's watches again, and sends it the events that it missed and then the reply.
#[tactic(auto, using(world::proofs::Steps::behind_meets, values::proofs::Gaining::gains_first))]
fn answer_missed(
    alloc: Global,
    number: u64,
    stage: &mut Stage,
    xid: i32,
    missed: &Renewal<'_>,
) -> Result<(), NoMemory>
    ensures { MakesStep result stage.old (λ w. answer_set_watches number w xid (Some missed.now)) stage.new }
{
    let watches = &mut stage.world.clients.watches;
    set_watches(alloc, number, watches, missed.watches.as_slice())?;
    notify_all(alloc, number, missed.events.as_slice(), &mut stage.outputs)?;
    stage.answer_without_body(alloc, number, xid, OK)
}

/// Answers a SetWatches of a client that has reconnected: first the events that it missed, then the reply.
pub(crate) fn answer_renewal(
    alloc: Global,
    number: u64,
    stage: &mut Stage,
    xid: i32,
    asked: &SetWatches<'_>,
) -> Result<(), NoMemory>
    ensures { MakesStep result stage.old
        (λ w. answer_set_watches number w xid (renew_watches w.settings.dialect w.replica.tree asked.now))
        stage.new }
{
    let rules = stage.world.settings.dialect;
    match renew(alloc, stage.world.replica.tree(), asked, rules)? {
        None => stage.answer_without_body(alloc, number, xid, BAD_ARGUMENTS),
        Some(missed) => answer_missed(alloc, number, stage, xid, &missed),
    }
}

/// Answers a SetWatches2, as a SetWatches on whatever paths, and sets the lasting watches.
pub(crate) fn answer_renewal_of_all(
    alloc: Global,
    number: u64,
    stage: &mut Stage,
    xid: i32,
    asked: &SetWatches2<'_>,
) -> Result<(), NoMemory>
    ensures { MakesStep result stage.old
        (λ w. answer_set_watches number w xid (Some (renew_all_watches w.replica.tree asked.now)))
        stage.new }
{
    let missed = renew_all(alloc, stage.world.replica.tree(), asked)?;
    answer_missed(alloc, number, stage, xid, &missed)
}

/// Answers an addWatch: the watch is set, whether or not there is a node.
pub(crate) fn answer_add_watch(
    alloc: Global,
    number: u64,
    stage: &mut Stage,
    xid: i32,
    asked: &AddWatch<'_>,
) -> Result<(), NoMemory>
    ensures { MakesStep result stage.old
        (λ w. answer_add_watch number w xid (watch_to_add w.settings.dialect asked.now))
        stage.new }
{
    let rules = stage.world.settings.dialect;
    match watch_to_add(asked, rules) {
        None => answer_unreadable(alloc, number, stage, xid),
        Some(watch) => {
            set_watch(alloc, number, &mut stage.world.clients.watches, &watch)?;
            stage.send_reply(number, xid, look_of_added(alloc, rules)?)
        }
    }
}

// Whether the connection has the watch.
fn has_watch(number: u64, world: &World, sought: &SoughtWatch<'_>) -> bool
    ensures { result ≡ has_sought_watch number world.now sought.now }
{
    let watches = &world.clients.watches;
    watches.has_watch(number, sought.path.as_str(), sought.kind)
}

// The reply that says whether a watch is there.
fn look_of_sought(alloc: Global, is_there: bool) -> Result<Look, NoMemory>
    ensures { IfOk result (λ look. look ≡ look_of_sought is_there) }
{
    if is_there {
        Look::without_body(alloc, OK)
    } else {
        Look::without_body(alloc, NO_WATCHER)
    }
}

/// Answers a checkWatches: whether the client has the watch.
pub(crate) fn answer_check_watches(
    alloc: Global,
    number: u64,
    stage: &mut Stage,
    xid: i32,
    asked: &PathAndKind<'_>,
) -> Result<(), NoMemory>
    ensures { MakesStep result stage.old (λ w. answer_check_watches number w xid (watch_sought asked.now)) stage.new }
{
    match watch_sought(asked) {
        None => answer_unreadable(alloc, number, stage, xid),
        Some(sought) => {
            let is_there = has_watch(number, &stage.world, &sought);
            stage.send_reply(number, xid, look_of_sought(alloc, is_there)?)
        }
    }
}

/// Answers a removeWatches: the watch is gone, and the client is told whether it was there.
pub(crate) fn answer_remove_watches(
    alloc: Global,
    number: u64,
    stage: &mut Stage,
    xid: i32,
    asked: &PathAndKind<'_>,
) -> Result<(), NoMemory>
    ensures { MakesStep result stage.old (λ w. answer_remove_watches number w xid (watch_sought asked.now)) stage.new }
{
    match watch_sought(asked) {
        None => answer_unreadable(alloc, number, stage, xid),
        Some(sought) => {
            let look = look_of_sought(alloc, has_watch(number, &stage.world, &sought))?;
            let watches = &mut stage.world.clients.watches;
            watches.remove_watch(number, sought.path.as_str(), sought.kind);
            stage.send_reply(number, xid, look)
        }
    }
}
