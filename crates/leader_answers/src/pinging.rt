//! A PING of the leader.

ghost use Rattle.std.specs.Prelude.{◌≡◌, ◌<◌, ◌^◌, length, IfOk, OnOk, Some};
ghost use Rattle.forwarding.specs.Pending.{take_touched};
ghost use Rattle.learner_sync.specs.Answers.{session_rows};
ghost use Rattle.replica.specs.Taking.{IsAnswerable};
ghost use Rattle.world.specs.Sending.{with_pending};
ghost use Rattle.world.specs.Timeouts.{known_timeout};
ghost use Rattle.leader_answers.specs.Answering.{timeout_in, answer_ping};
ghost use Rattle.world.specs.Results.{MakesStep};

use forwarding::Pending;
use learner_sync::{ping_answer, session_table};
use quorum_packet::QuorumPacket;
use replica::{LeaderNews, Replica};
use sessions::Sessions;
use std::alloc::Global;
use values::{Blob, NoMemory};
use world::{KnownTimeouts, Stage, World, send_to_leader};

// Takes the sessions that were touched and have a timeout, each with it.
fn take_rows<'a>(
    alloc: Global,
    counts_told: bool,
    sessions: &'a Sessions,
    replica: &'a Replica,
    pending: &mut Pending,
) -> Result<Vec<(i64, i32)>, NoMemory>
    ensures { IfOk result (λ rows. take_touched pending.old (known_timeout counts_told sessions.now replica.now.tree.sessions)
        ≡ record { rows = rows.items; after = pending.new }) }
{
    let timeouts = KnownTimeouts {
        counts_told,
        sessions,
        tree: replica.tree().sessions(),
    };
    pending.take_touched(alloc, &timeouts)
}

// Takes the sessions that were touched and live, as the table of a PING's answer.
fn take_table(alloc: Global, world: &mut World) -> Result<Blob, NoMemory>
    ensures table { let told = take_touched world.old.clients.pending (timeout_in world.old) in
        IfOk result (λ table. table ≡ session_rows told.rows) }
    ensures after { let told = take_touched world.old.clients.pending (timeout_in world.old) in
        OnOk result (world.new ≡ with_pending world.old told.after) }
    ensures short { IfOk result (λ table. length table < 2 ^ 31) }
{
    let counts_told = world.settings.dialect.reads().moved_sessions;
    let rows = take_rows(
        alloc,
        counts_told,
        &world.clients.sessions,
        &world.replica,
        &mut world.clients.pending,
    )?;
    session_table(alloc, rows.as_slice())
}

/// Answers a PING with the sessions whose clients were heard since the last one, each with its timeout.
///
/// Fails only if an allocation is refused; then a prefix of the outputs has been appended.
pub fn answer_ping(alloc: Global, stage: &mut Stage, ping: QuorumPacket) -> Result<(), NoMemory>
    requires { IsAnswerable (Some (LeaderNews.Ping ping)) }
    ensures { MakesStep result stage.old (λ w. answer_ping w ping) stage.new }
{
    let table = take_table(alloc, &mut stage.world)?;
    let answer = ping_answer(ping, table);
    send_to_leader(alloc, &answer, &mut stage.outputs)
}
