//! The items of a leader's stream.

ghost use Rattle.std.specs.Prelude.{◌≡◌, OnOk, IfOk};
ghost use Rattle.std.specs.List.{AllByRecursion};
ghost use Rattle.quorum_packet.specs.Feed.{CanBeWritten};
ghost use Rattle.quorum_packet.specs.Lending.{owned_item};
ghost use Rattle.quorum_packet.specs.Packet.{packet_format};
ghost use Rattle.data_tree.specs.Meaning.{state_after};
ghost use Rattle.learner_sync.specs.Learn.{learn_item};
ghost use Rattle.replica.specs.Taking.{TakesItem, IsAnswerable, nothing_loaded, no_effect, last_txn, apply_to_tree, carry_out_all, take_item};
ghost use Rattle.replica.specs.Inner.{with_told, UpdatesLearner, CarriesOutAct, IsPartAlone};

use crate::item_outcome::{ItemOutcome, LeaderNews};
use crate::replica::Replica;
use based_tree::BasedTree;
use data_tree::Triggers;
use learner_sync::{Act, ActList};
use quorum_packet::{LentItem, QuorumPacket};
use snapshot_codec::Loader;
use std::alloc::Global;
use std::mem;
use txn_codec::Txn;
use values::{Listed, NoMemory, ReadError};

// Applies the transactions to the tree, one after the other.
fn apply_each(alloc: Global, based: &mut BasedTree, txns: &[Txn]) -> Result<(), NoMemory>
    ensures { OnOk result (based.new ≡ record based.old { tree = state_after based.old.tree txns.now }) }
{
    for txn in txns {
        based.apply(alloc, txn)?;
    }
    Ok(())
}

impl Replica {
    pub(crate) fn learn(&mut self, alloc: Global, item: LentItem<'_>) -> Result<ActList, ReadError>
        ensures { UpdatesLearner result (learn_item self.old.learner (owned_item item.entry)) self.old self.new }
    {
        self.learner.step(alloc, item)
    }

    // Applies the log's last transaction to the tree, and tells its place and what comes of it.
    fn apply_last(
        &mut self,
        alloc: Global,
        triggers: &mut Triggers,
        news: &mut Option<LeaderNews>,
    ) -> Result<(), NoMemory>
        ensures { OnOk result
            (apply_to_tree (with_told triggers.old news.old self.old) (last_txn self.old.learner.log)
            ≡ with_told triggers.new news.new self.new) }
    {
        let log = self.learner.since_base();
        let Some(txn) = log.last() else {
            return Ok(());
        };
        let place = log.len() - 1;
        let outcome = self.based.apply(alloc, txn)?;
        let results = outcome.results;
        *news = Some(LeaderNews::Applied { place, results });
        *triggers = outcome.triggers;
        Ok(())
    }

    // The loaded image replaces the tree and is the new base.
    fn load_image(&mut self, alloc: Global, loader: &mut Loader)
        ensures replica { self.new ≡ record self.old { base = loader.old.made.state; tree = loader.old.made.state } }
        ensures loader { loader.new ≡ nothing_loaded self.old.learner.dialect }
    {
        let next = Loader::with_key(self.learner.dialect(), alloc, self.tree().hash_key());
        let loaded = mem::replace(loader, next);
        self.based = BasedTree::new(alloc, loaded.finish());
    }

    // Rebuilds the tree from the base and the log.
    fn rebuild(&mut self, alloc: Global) -> Result<(), NoMemory>
        ensures { OnOk result (self.new ≡ record self.old { tree = state_after self.old.base self.old.learner.log }) }
    {
        self.based.go_back(alloc)?;
        apply_each(alloc, &mut self.based, self.learner.since_base())
    }

    fn carry_out(
        &mut self,
        alloc: Global,
        loader: &mut Loader,
        act: Act,
        replies: &mut Vec<QuorumPacket>,
        triggers: &mut Triggers,
        news: &mut Option<LeaderNews>,
    ) -> Result<(), ReadError>
        ensures { CarriesOutAct result act
            (record {
              replies = replies.old.items;
              triggers = triggers.old;
              news = news.old;
              loading = loader.old;
              replica = self.old;
            })
            (record {
              replies = replies.new.items;
              triggers = triggers.new;
              news = news.new;
              loading = loader.new;
              replica = self.new;
            }) }
    {
        match act {
            Act::Send(packet) => return Ok(replies.push(packet)?),
            Act::AnswerPing(packet) => {
                *news = Some(LeaderNews::Ping(packet));
                return Ok(());
            }
            Act::SettleSync => {
                *news = Some(LeaderNews::SyncSettled);
                return Ok(());
            }
            Act::Revalidated { session, is_valid } => {
                *news = Some(LeaderNews::Revalidated { session, is_valid });
                return Ok(());
            }
            Act::Apply => return Ok(self.apply_last(alloc, triggers, news)?),
            Act::LoadPart(part) => return loader.part(alloc, part),
            Act::LoadImage => {
                self.load_image(alloc, loader);
                return Ok(());
            }
            Act::DropImage => {
                *loader = Loader::with_key(self.learner.dialect(), alloc, self.tree().hash_key());
                return Ok(());
            }
            Act::Truncate(_) => return Ok(self.rebuild(alloc)?),
            Act::Epochs | Act::ServeFrom => return Ok(()),
        }
    }

    // Does the acts in order.
    fn carry_out_all(
        &mut self,
        alloc: Global,
        loader: &mut Loader,
        acts: ActList,
    ) -> Result<ItemOutcome, ReadError>
        requires { IsPartAlone acts }
        ensures { TakesItem result (carry_out_all (no_effect loader.old self.old) acts)
            loader.old self.old loader.new self.new }
    {
        let mut replies = Vec::new(alloc);
        let mut triggers = Triggers::from_vec(Vec::new(alloc));
        let mut news = None;
        for act in acts.into_vec(alloc)? {
            self.carry_out(alloc, loader, act, &mut replies, &mut triggers, &mut news)?;
        }
        Ok(ItemOutcome {
            replies: Listed::from_vec(replies),
            triggers,
            news,
        })
    }

    /// Takes the next item of the leader's stream, and returns the packets for the leader, the triggers for watchers,
    /// and what else there is to tell.
    ///
    /// The faults are those of `Learner::step`, and `BadImage` if a part doesn't fit those before it. A refused item
    /// leaves the loader and the replica as they were. After a refused allocation both are unspecified, and the caller
    /// drops them.
    pub fn take(
        &mut self,
        alloc: Global,
        loader: &mut Loader,
        item: LentItem<'_>,
    ) -> Result<ItemOutcome, ReadError>
        ensures takes { TakesItem result (take_item loader.old self.old (owned_item item.entry))
            loader.old self.old loader.new self.new }
        ensures writable { CanBeWritten (owned_item item.entry)
            → IfOk result (λ brought. AllByRecursion packet_format.Writable brought.replies) }
        ensures answerable { CanBeWritten (owned_item item.entry) → IfOk result (λ brought. IsAnswerable brought.news) }
    {
        learner_sync::law::acts();
        let acts = self.learn(alloc, item)?;
        // What most items come to is done without going through a list.
        if acts.is_apply() {
            let replies = Listed::from_vec(Vec::new(alloc));
            let mut triggers = Triggers::from_vec(Vec::new(alloc));
            let mut news = None;
            self.apply_last(alloc, &mut triggers, &mut news)?;
            return Ok(ItemOutcome {
                replies,
                triggers,
                news,
            });
        }
        self.carry_out_all(alloc, loader, acts)
    }
}
