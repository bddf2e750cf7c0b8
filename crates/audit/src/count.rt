//! The count of a node's children that were created and deleted.

ghost use Rattle.std.specs.Prelude.{◌≡◌};
ghost use Rattle.audit.specs.Count.{is_same_path, one_more, count_after_trigger, count_after_triggers, first_count};

use data_tree::Trigger;
use paths_and_acls::parent_of;
use txn_codec::TxnHeader;

/// The number of a node's children that were created or deleted since the node was created, as a Java int, and the zxid
/// of the last such transaction; without one, the zxid of the transaction that created the node.
#[derive(Clone, Copy, Debug, PartialEq, Eq)]
pub struct Count {
    pub cversion: i32,
    pub pzxid: i64,
}

fn is_same(a: &str, b: &str) -> bool
    ensures { result ≡ is_same_path a.now b.now }
{
    a == b
}

// The count in the fresh tree, where / and /zookeeper have a preset child.
pub(crate) fn first_count(path: &str) -> Count
    ensures { result ≡ first_count path.now }
{
    if is_same(path, "/") || is_same(path, "/zookeeper") {
        return Count {
            cversion: -1,
            pzxid: 0,
        };
    }
    Count {
        cversion: 0,
        pzxid: 0,
    }
}

fn one_more(count: &Count, header: &TxnHeader) -> Count
    ensures { result ≡ one_more count.now header.now.zxid }
{
    Count {
        cversion: count.cversion.wrapping_add(1),
        pzxid: header.zxid,
    }
}

// The count of the node at the path after one more trigger.
fn count_trigger(path: &str, count: &Count, header: &TxnHeader, trigger: &Trigger) -> Count
    ensures { result ≡ count_after_trigger path.now count.now header.now.zxid trigger.now }
{
    match trigger {
        Trigger::Created(at) => {
            if is_same(at.as_str(), path) {
                return Count {
                    cversion: 0,
                    pzxid: header.zxid,
                };
            }
            if is_same(parent_of(at.as_str()), path) {
                return one_more(count, header);
            }
            *count
        }
        Trigger::Deleted(at) => {
            if is_same(parent_of(at.as_str()), path) {
                return one_more(count, header);
            }
            *count
        }
        Trigger::DataChanged(_) | Trigger::ChildrenChanged(_) => *count,
    }
}

impl Count {
    /// Counts the triggers of a transaction.
    pub fn add(&mut self, path: &str, header: &TxnHeader, triggers: &[Trigger])
        ensures { self.new ≡ count_after_triggers path.now self.old header.now.zxid triggers.now }
    {
        for trigger in triggers {
            *self = count_trigger(path, self, header, trigger);
        }
    }
}
