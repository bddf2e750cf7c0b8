//! When a checkpoint is due.

ghost use Rattle.std.specs.Prelude.{◌≡◌, ◌-◌, ◌^◌, min};
ghost use Rattle.following.specs.Checkpoints.{new_plan, after_receiving, is_checkpoint_due, bytes_due};

use std::marker::Model;

const MEBIBYTE: u64 = 1_048_576;

/// The plan of checkpoints. One is due when the leader's bytes since the last one pass a number of mebibytes, since the
/// log takes two to three times as much memory. It takes as long as dropping that log does.
#[derive(Clone, Copy, Debug)]
pub struct Checkpoints {
    // 0: none is ever due.
    least_mebibytes: u64,
    // The leader's bytes since the last checkpoint.
    received: u64,
}

impl Model for Checkpoints {
    ghost use Rattle.following.specs.Checkpoints.{CheckpointPlan};

    ghost Value = { CheckpointPlan };

    ghost view = { λ c. record { least_mebibytes = c.least_mebibytes; received = c.received } };

    ghost inverse = { λ c. record { least_mebibytes = c.least_mebibytes; received = c.received } };
}

impl Checkpoints {
    /// A plan before its first checkpoint. Between two of them the leader sends more than so many mebibytes (0: none is
    /// ever due).
    pub fn new(least_mebibytes: u64) -> Checkpoints
        ensures { result ≡ new_plan least_mebibytes }
    {
        Checkpoints {
            least_mebibytes,
            received: 0,
        }
    }

    /// So many bytes of the leader were taken.
    pub fn received(&mut self, bytes: u64)
        ensures { self.new ≡ after_receiving self.old bytes }
    {
        self.received = self.received.saturating_add(bytes);
    }

    /// Whether one is due.
    pub fn is_due(&self) -> bool
        ensures { result ≡ is_checkpoint_due self.now }
    {
        self.least_mebibytes != 0 && self.received > self.bytes_due()
    }

    /// One was taken.
    pub fn taken(&mut self)
        ensures { self.new ≡ new_plan self.old.least_mebibytes }
    {
        self.received = 0;
    }

    // How many bytes of the leader make one due.
    fn bytes_due(&self) -> u64
        ensures { result ≡ min (bytes_due self.now) (2 ^ 64 - 1) }
    {
        self.least_mebibytes.saturating_mul(MEBIBYTE)
    }
}
