//! The outcome of a transaction.

ghost use Rattle.std.specs.Prelude.{◌≡◌, ◌∷◌, ◌++◌, [], pos, if◌then◌else◌, length, OnOk};
ghost use Rattle.std.specs.Ordering.{int_eq};

use jute::Stat;
use std::alloc::Global;
use std::marker::Model;
use values::{Listed, NoMemory, Text};

/// A change that watches fire on, with its path (ZooKeeper Programmer's Guide, "Watches").
#[derive(Debug, Drop)]
pub enum Trigger {
    /// A node was created.
    Created(Text),
    /// A node was deleted.
    Deleted(Text),
    /// A node's data was replaced.
    DataChanged(Text),
    /// A node gained or lost a child.
    ChildrenChanged(Text),
}

// Where the triggers of a transaction are: the one or two of most, or a block of memory.
#[derive(Debug, Drop)]
enum StoredTriggers {
    One([Trigger; 1]),
    Two([Trigger; 2]),
    Listed(Vec<Trigger>),
}

/// The triggers of a transaction, in order; its model is the list of them. Neither one nor two take a block of memory.
#[derive(Debug)]
pub struct Triggers {
    stored: StoredTriggers,
}

impl Model for Triggers {
    ghost use Rattle.std.specs.Prelude.{List};
    ghost use Rattle.data_tree.specs.declared.outcome.Trigger.{Trigger};
    ghost use Rattle.data_tree.specs.Inner.Storing.{stored_triggers};

    ghost Value = { List Trigger };

    ghost view = { λ t. stored_triggers t.stored };
}

impl Triggers {
    /// One trigger.
    pub(crate) fn one(trigger: Trigger) -> Triggers
        ensures { result ≡ trigger ∷ [] }
    {
        Triggers {
            stored: StoredTriggers::One([trigger]),
        }
    }

    /// Two triggers.
    pub(crate) fn two(first: Trigger, second: Trigger) -> Triggers
        ensures { result ≡ first ∷ second ∷ [] }
    {
        Triggers {
            stored: StoredTriggers::Two([first, second]),
        }
    }

    /// The vector's triggers.
    pub fn from_vec(triggers: Vec<Trigger>) -> Triggers
        ensures { result ≡ triggers.items }
    {
        Triggers {
            stored: StoredTriggers::Listed(triggers),
        }
    }

    pub fn as_slice(&self) -> &[Trigger]
        ensures { result.now ≡ self.now }
    {
        match &self.stored {
            StoredTriggers::One(trigger) => trigger.as_slice(),
            StoredTriggers::Two(triggers) => triggers.as_slice(),
            StoredTriggers::Listed(triggers) => triggers.as_slice(),
        }
    }

    pub fn len(&self) -> usize
        ensures { result ≡ length self.now }
    {
        self.as_slice().len()
    }
}

// By hand, so that what drops triggers calls this, and doesn't branch on where they are.
impl Drop for Triggers {
    fn drop(self) {
        let Triggers { stored } = self;
        drop(stored);
    }
}

/// What comes of a part of a multi.
#[derive(Clone, Copy, Debug)]
pub struct PartResult {
    /// ZooKeeper's error code, or 0.
    pub err: i32,
    /// The Stat of its node right after it, before later parts: of a setData, and of a create that asks for it.
    pub stat: Option<Stat>,
}

/// What comes of a transaction for the client that asked for it.
#[derive(Debug, Drop)]
pub struct TxnResults {
    /// ZooKeeper's error code of the first error, or 0.
    pub err: i32,
    /// What comes of each part of a multi, in order. Any other transaction has no parts.
    pub parts: Listed<PartResult>,
}

/// The outcome of a transaction.
#[derive(Debug, Drop)]
pub struct Outcome {
    pub results: TxnResults,
    /// The triggers for watchers, in order.
    pub triggers: Triggers,
}

impl Outcome {
    /// The outcome of a transaction that isn't a multi.
    pub(crate) fn without_parts(alloc: Global, err: i32, triggers: Triggers) -> Outcome
        ensures { result ≡ record { results = record { err = err; parts = [] }; triggers = triggers } }
    {
        Outcome {
            results: TxnResults {
                err,
                parts: Listed::from_vec(Vec::new(alloc)),
            },
            triggers,
        }
    }

    /// The outcome of a create or a delete that isn't a part of a multi. It fires at the path and at its parent, unless
    /// it failed.
    pub(crate) fn of_create_or_delete(
        alloc: Global,
        err: i32,
        at_path: Trigger,
        at_parent: Trigger,
    ) -> Outcome
        ensures { result ≡
            record {
              results = record { err = err; parts = [] };
              triggers = if int_eq err (pos 0) then at_path ∷ at_parent ∷ [] else [];
            } }
    {
        if err != 0 {
            return Outcome::without_parts(alloc, err, Triggers::from_vec(Vec::new(alloc)));
        }
        Outcome::without_parts(alloc, err, Triggers::two(at_path, at_parent))
    }
}

/// Adds the triggers of a create or a delete: at the path, and at its parent.
pub(crate) fn fire_with_parent(
    triggers: &mut Vec<Trigger>,
    alloc: Global,
    at_path: Trigger,
    parent: &str,
) -> Result<(), NoMemory>
    ensures { OnOk result
        (triggers.new.items ≡ triggers.old.items ++
        (at_path ∷ Trigger.ChildrenChanged parent.now ∷ [])) }
{
    triggers.push(at_path)?;
    triggers.push(Trigger::ChildrenChanged(Text::new(alloc, parent)?))?;
    Ok(())
}

/// Adds the trigger of a setData.
pub(crate) fn fire_data_changed(
    triggers: &mut Vec<Trigger>,
    alloc: Global,
    path: &str,
) -> Result<(), NoMemory>
    ensures { OnOk result
        (triggers.new.items ≡ triggers.old.items ++ Trigger.DataChanged path.now ∷ []) }
{
    triggers.push(Trigger::DataChanged(Text::new(alloc, path)?))?;
    Ok(())
}
