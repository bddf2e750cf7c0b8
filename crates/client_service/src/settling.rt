//! How the reads that wait are answered.

ghost use Rattle.std.specs.Prelude.{◌≡◌, [], map, IfOk, OnOk};
ghost use Rattle.read_processor.specs.Asking.{looks_at, LooksAtAsks};
ghost use Rattle.client_service.specs.Runs.{look_asked, show_asked, show_all_asked, answer_all_asked};
ghost use Rattle.world.specs.Results.{MakesStep};

use crate::asked::AskedRead;
use crate::law::runs_of_reads;
use crate::reading::set_watch_if;
use crate::session::touch_client;
use data_tree::Tree;
use read_processor::{Ask, Look, watch_of};
use std::alloc::Global;
use values::NoMemory;
use world::{Stage, World};

// The asks of the reads, each with the ids of its connection.
fn asks_of<'a>(
    alloc: Global,
    world: &'a World,
    asked: &'a [AskedRead],
) -> Result<Vec<Ask<'a>>, NoMemory>
    ensures { IfOk result
        (λ asks. looks_at world.now.replica.tree asks.items ≡ map (look_asked world.now) asked.now) }
{
    let mut asks = Vec::with_capacity(alloc, asked.len())?;
    for read in asked {
        let ids = world.clients.sessions.ids(read.number());
        let request = read.lend();
        asks.push(Ask { ids, request })?;
    }
    Ok(asks)
}

fn looks_of<L: Fn(&Tree, &[Ask<'_>]) -> Result<Vec<Look>, NoMemory>>(
    alloc: Global,
    looker: &L,
    world: &World,
    asked: &[AskedRead],
) -> Result<Vec<Look>, NoMemory>
    requires { LooksAtAsks (L.pre looker.now) (L.post looker.now) }
    ensures { IfOk result (λ looks. looks.items ≡ map (look_asked world.now) asked.now) }
{
    let asks = asks_of(alloc, world, asked)?;
    looker(world.replica.tree(), asks.as_slice())
}

// Leaves the watch of a read and sends its reply, if its connection is open. The session is touched.
fn show(alloc: Global, stage: &mut Stage, read: &AskedRead, seen: Look) -> Result<(), NoMemory>
    ensures { MakesStep result stage.old (λ w. show_asked w read.now seen) stage.new }
{
    let number = read.number();
    if !stage.world.clients.is_open(number) {
        return Ok(());
    }
    touch_client(number, &mut stage.world)?;
    let request = read.lend();
    let watch = watch_of(&request, seen.error);
    set_watch_if(alloc, number, &mut stage.world.clients.watches, &watch)?;
    stage.send_reply(number, read.xid(), seen)
}

fn show_each(
    alloc: Global,
    stage: &mut Stage,
    asked: &[AskedRead],
    looks: Vec<Look>,
) -> Result<(), NoMemory>
    ensures { MakesStep result stage.old (show_all_asked asked.now looks.items) stage.new }
{
    let mut looks = looks.into_iter();
    for read in asked {
        let Some(seen) = looks.next() else {
            return Ok(());
        };
        show(alloc, stage, read, seen)?;
    }
    Ok(())
}

// Answers the reads that wait, in the order in which they were asked.
fn answer_all<L: Fn(&Tree, &[Ask<'_>]) -> Result<Vec<Look>, NoMemory>>(
    alloc: Global,
    looker: &L,
    asked: &[AskedRead],
    stage: &mut Stage,
) -> Result<(), NoMemory>
    requires { LooksAtAsks (L.pre looker.now) (L.post looker.now) }
    ensures { MakesStep result stage.old (answer_all_asked asked.now) stage.new }
{
    runs_of_reads();
    let looks = looks_of(alloc, looker, &stage.world, asked)?;
    show_each(alloc, stage, asked, looks)
}

/// Answers the reads that wait, in the order in which they were asked, by one call of `looker`. A read of a connection
/// that isn't open by then is passed over.
///
/// Fails only if an allocation is refused; then a prefix of the outputs has been appended.
pub fn settle_reads<L: Fn(&Tree, &[Ask<'_>]) -> Result<Vec<Look>, NoMemory>>(
    alloc: Global,
    looker: &L,
    asked: &mut Vec<AskedRead>,
    stage: &mut Stage,
) -> Result<(), NoMemory>
    requires { LooksAtAsks (L.pre looker.now) (L.post looker.now) }
    ensures answered { MakesStep result stage.old (answer_all_asked asked.old.items) stage.new }
    ensures none_left { OnOk result (asked.new.items ≡ []) }
{
    if asked.is_empty() {
        return Ok(());
    }
    answer_all(alloc, looker, asked.as_slice(), stage)?;
    asked.clear();
    Ok(())
}
