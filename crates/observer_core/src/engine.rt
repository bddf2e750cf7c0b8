//! The engine: a machine that a refused allocation closes.

ghost use Rattle.std.specs.Prelude.{◌≡◌, Some, IsTrue, IfOk, OnOk};
ghost use Rattle.std.specs.Thread.{IsSync};
ghost use Rattle.data_tree.specs.Meaning.{state_after, outcomes_of_txns};
ghost use Rattle.replica.specs.Gathering.{AppliesTxns};
ghost use Rattle.read_processor.specs.Asking.{looks_at, LooksAtAsks};
ghost use Rattle.watch_manager.specs.Counts.{watch_count_of};
ghost use Rattle.settings.specs.Settings.{is_first_counter};
ghost use Rattle.world.specs.Clients.{no_clients};
ghost use Rattle.observer_core.specs.Play.{initial_machine, new_machine, primed_session, first_client, primed_machine};
ghost use Rattle.observer_core.specs.Machine.{Machine as TheMachine};
ghost use Rattle.observer_core.specs.Plays.{PlaysEvents};
ghost use Rattle.observer_core.specs.Timeouts.{IsLeastTimeout};

use crate::config::Config;
use crate::event::Event;
use crate::gathering::may_hold_reads;
use crate::machine::{Leader, Machine};
use crate::run::run;
use crate::timeouts::least_timeout;
use apply_workers::{Gate, apply_list, apply_list_inline};
use batcher::{Limits, SpreadThreshold};
use data_tree::{Outcome, Tree};
use learner_sync::Learner;
use quorum_packet::PacketFeed;
use read_processor::{Ask, Look, look_each};
use read_workers::look_run;
use replica::Replica;
use sessions::SessionRequest;
use snapshot_codec::Loader;
use std::alloc::Global;
use std::marker::Model;
use std::mem;
use std::thread::Threads;
use thiserror::Error;
use txn_codec::Txn;
use values::NoMemory;
use world::{Clients, Output, Settings, Stage, World};

// The connection that `primed` opens.
const FIRST: u64 = 1;

/// Why an engine stopped.
#[derive(Clone, Copy, Debug, PartialEq, Eq, Error)]
pub enum Stop {
    /// An allocation was refused. The engine is closed from then on.
    #[error("no memory")]
    NoMemory,
    #[error("closed")]
    Closed,
}

/// An observer: events in, outputs out.
pub struct Engine {
    machine: Machine,
    // How much is done at once, and from where on it is spread over threads. No answer depends on them.
    limits: Limits,
    threshold: SpreadThreshold,
    closed: bool,
}

impl Model for Engine {
    ghost use Rattle.std.specs.Prelude.{Option, Some, None, if◌then◌else◌};
    ghost use Rattle.std.specs.Coded.{coded_option};
    ghost use Rattle.world.specs.contracts.world.World as of_world;
    ghost use Rattle.observer_core.specs.contracts.machine.Leader as of_leader;
    ghost use Rattle.observer_core.specs.Machine.{Machine as TheMachine, machine_code};

    ghost Value = { Option TheMachine };

    ghost coded = { coded_option (machine_code of_leader.the_row.coded of_world.the_row.coded) };

    ghost view = { λ e. if e.closed then None else Some e.machine.after };
}

impl Drop for Engine {
    fn drop(self) {
        let Engine {
            machine,
            limits: _,
            threshold: _,
            closed: _,
        } = self;
        drop(machine);
    }
}

// Opens connection 1, and gives it a new session with the greatest timeout. Returns the session's id.
fn open_first(alloc: Global, settings: &Settings, clients: &mut Clients) -> Result<i64, NoMemory>
    requires begins { IsTrue (is_first_counter settings.now.first_counter) }
    requires nobody { clients.old ≡ no_clients settings.now }
    ensures session { IfOk result (λ session. session ≡ primed_session settings.now) }
    ensures clients { OnOk result (clients.new ≡ first_client settings.now) }
{
    let time_out = settings.timeouts.greatest();
    let request = SessionRequest {
        time_out,
        session_id: 0,
        password: None,
    };
    let named = clients.sessions.connect(alloc, FIRST, false, &request)?;
    let session = named.response.session_id;
    clients.sessions.admit(alloc, FIRST, session, time_out)?;
    clients.open(alloc, FIRST, None)?;
    Ok(session)
}

impl Engine {
    /// An observer that hasn't followed a leader yet. Until a leader has brought it up to date, it closes every
    /// connection that asks for a session.
    ///
    /// Fails only if an allocation is refused.
    pub fn new(alloc: Global, config: Config) -> Result<Engine, NoMemory>
        ensures { IfOk result (λ e. e ≡ Some (new_machine config.settings)) }
    {
        let settings = &config.settings;
        let replica = Replica::new(alloc, config.hash_key, settings.dialect, settings.epochs)?;
        let clients = Clients::new(alloc, config.hash_key, settings)?;
        Ok(Engine::started(alloc, config, replica, None, clients))
    }

    /// An observer that follows a leader in epoch 1 and serves clients. Its tree has the first session, with the
    /// greatest timeout, and connection 1 is open and has that session.
    ///
    /// Fails only if an allocation is refused.
    pub fn primed(alloc: Global, config: Config) -> Result<Engine, NoMemory>
        ensures { IfOk result (λ e. e ≡ Some (primed_machine config.settings)) }
    {
        let settings = &config.settings;
        let mut clients = Clients::new(alloc, config.hash_key, settings)?;
        let session = open_first(alloc, settings, &mut clients)?;
        let time_out = settings.timeouts.greatest();
        let replica = Replica::primed(alloc, config.hash_key, settings.dialect, session, time_out)?;
        let leader = Leader {
            feed: PacketFeed::in_dialect(settings.dialect, alloc),
            loader: Loader::with_key(settings.dialect, alloc, config.hash_key),
        };
        Ok(Engine::started(alloc, config, replica, Some(leader), clients))
    }

    fn started(
        alloc: Global,
        config: Config,
        replica: Replica,
        leader: Option<Leader>,
        clients: Clients,
    ) -> Engine
        ensures { result ≡ Some (initial_machine config.settings replica leader clients) }
    {
        let Config {
            settings,
            limits,
            threshold,
            hash_key: _,
        } = config;
        let world = World {
            settings,
            replica,
            clients,
        };
        let stage = Stage::new(alloc, world);
        Engine {
            machine: Machine { leader, stage },
            limits,
            threshold,
            closed: false,
        }
    }

    // The world. That of a closed engine is unspecified.
    fn world(&self) -> &World
        ensures { (m : TheMachine) → self.now ≡ Some m → result.now ≡ m.world }
    {
        &self.machine.stage.world
    }

    /// The data tree. The tree of a closed engine is unspecified.
    pub fn tree(&self) -> &Tree
        ensures { (m : TheMachine) → self.now ≡ Some m → result.now ≡ m.world.replica.tree }
    {
        self.world().replica.tree()
    }

    /// How far the leader was followed. The learner of a closed engine is unspecified.
    pub fn learner(&self) -> &Learner
        ensures { (m : TheMachine) → self.now ≡ Some m → result.now ≡ m.world.replica.learner }
    {
        self.world().replica.learner()
    }

    /// The least timeout, in milliseconds, of the sessions that connections have here: the tree's timeout of each. None
    /// if no connection has a session. That of a closed engine is unspecified. Takes time linear in the number of such
    /// sessions.
    pub fn least_timeout(&self) -> Option<i32>
        ensures { (m : TheMachine) → self.now ≡ Some m → IsLeastTimeout m.world result }
    {
        least_timeout(self.world())
    }

    /// The number of watches of a connection, of all kinds. That of a closed engine is unspecified. Takes time logarithmic
    /// in the number of watches.
    pub fn watches_of(&self, connection: u64) -> u128
        ensures { (m : TheMachine) → self.now ≡ Some m
            → result ≡ watch_count_of connection m.world.clients.watches }
    {
        self.world().clients.watches.count_of(connection)
    }

    // Plays the events. The closures apply the transactions of an event of the leader, and answer a run of reads.
    fn play<
        D: Fn(&mut Tree, &[Txn]) -> Result<Vec<Outcome>, NoMemory>,
        L: Fn(&Tree, &[Ask<'_>]) -> Result<Vec<Look>, NoMemory>,
    >(
        &mut self,
        alloc: Global,
        doer: &D,
        looker: &L,
        gather_from: usize,
        gathers: bool,
        events: &[Event<'_>],
        outputs: &mut Vec<Output>,
    ) -> Result<(), Stop>
        requires applies { AppliesTxns (D.pre doer.now) (D.post doer.now) }
        requires looks { LooksAtAsks (L.pre looker.now) (L.post looker.now) }
        ensures { PlaysEvents result self.old events.now outputs.old.items outputs.new.items self.new }
    {
        if self.closed {
            return Err(Stop::Closed);
        }
        mem::swap(&mut self.machine.stage.outputs, outputs);
        let played = run(
            alloc,
            doer,
            looker,
            gather_from,
            gathers,
            &mut self.machine,
            events,
        );
        mem::swap(&mut self.machine.stage.outputs, outputs);
        match played {
            Ok(()) => Ok(()),
            Err(NoMemory) => {
                self.closed = true;
                Err(Stop::NoMemory)
            }
        }
    }

    /// Plays the events in order and appends the outputs of each.
    ///
    /// Fails with [`Stop::NoMemory`] if an allocation is refused, which closes the engine and leaves a prefix of the
    /// outputs appended; with [`Stop::Closed`] if the engine was closed before.
    pub fn feed_inline(
        &mut self,
        alloc: Global,
        events: &[Event<'_>],
        outputs: &mut Vec<Output>,
    ) -> Result<(), Stop>
        ensures { PlaysEvents result self.old events.now outputs.old.items outputs.new.items self.new }
    {
        let doer = |tree: &mut Tree, txns: &[Txn]| -> Result<Vec<Outcome>, NoMemory>
            ensures tree { OnOk result (tree.new ≡ state_after tree.old txns.now) }
            ensures outcomes { IfOk result (λ v. v.items ≡ outcomes_of_txns tree.old txns.now) }
        { apply_list_inline(alloc, tree, txns) };
        let looker = |tree: &Tree, asks: &[Ask<'_>]| -> Result<Vec<Look>, NoMemory>
            ensures looks { IfOk result (λ v. v.items ≡ looks_at tree.now asks.now) }
        { look_each(alloc, tree, asks) };
        self.play(alloc, &doer, &looker, usize::MAX, false, events, outputs)
    }

    /// Does what `feed_inline` does, on several threads. The transactions of one event of the leader are cut into
    /// batches within the limits of the configuration, and each batch is applied by up to so many workers, which pass
    /// `gate` for each of its groups. Reads that follow each other with nothing else to be done between them, in one
    /// event or in several, are answered by as many workers, which pass `gate` for each 64 of them. The first worker is
    /// the calling thread, which waits for the others.
    pub fn feed<G: Gate + Sync, R: Threads + Sync>(
        &mut self,
        rt: &R,
        alloc: Global,
        events: &[Event<'_>],
        gate: &G,
        outputs: &mut Vec<Output>,
    ) -> Result<(), Stop>
        ensures { PlaysEvents result self.old events.now outputs.old.items outputs.new.items self.new }
    {
        let limits = self.limits;
        let threshold = self.threshold;
        let doer = |tree: &mut Tree, txns: &[Txn]| -> Result<Vec<Outcome>, NoMemory>
            requires { IsSync R.row × IsSync G.row }
            ensures tree { OnOk result (tree.new ≡ state_after tree.old txns.now) }
            ensures outcomes { IfOk result (λ v. v.items ≡ outcomes_of_txns tree.old txns.now) }
        { apply_list(rt, alloc, tree, txns, &limits, &threshold, gate) };
        let looker = |tree: &Tree, asks: &[Ask<'_>]| -> Result<Vec<Look>, NoMemory>
            requires { IsSync R.row × IsSync G.row }
            ensures looks { IfOk result (λ v. v.items ≡ looks_at tree.now asks.now) }
        {
            look_run(
                rt,
                alloc,
                tree,
                asks,
                limits.workers(),
                threshold.reads,
                gate,
            )
        };
        let spreads = limits.workers() > 1;
        let gather_from = if spreads { threshold.bytes } else { usize::MAX };
        let gathers = spreads && may_hold_reads(events, threshold.reads);
        self.play(alloc, &doer, &looker, gather_from, gathers, events, outputs)
    }
}
