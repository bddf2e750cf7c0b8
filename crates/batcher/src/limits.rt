//! The limits on what is done at once.

ghost use Rattle.std.specs.Prelude.{◌≡◌, ◌↔◌, IsOk, IfOk, IsTrue};
ghost use Rattle.batcher.specs.Limits.{limit_numbers, are_limits};

use std::marker::Model;
use thiserror::Error;

/// The number of workers (1 to 64), and the most transactions (1 to 4096) and the most groups (1 to 256) of a batch.
#[derive(Clone, Copy)]
pub struct Limits {
    workers: usize,
    batch: usize,
    groups: usize,
}

impl Model for Limits {
    ghost use Rattle.std.specs.Prelude.{IsTrue};
    ghost use Rattle.batcher.specs.Limits.{LimitNumbers, limit_numbers, are_limits};

    ghost Value = { LimitNumbers };

    ghost view = { λ l. limit_numbers l.workers l.batch l.groups };

    ghost invariant = { λ l. IsTrue (are_limits (limit_numbers l.workers l.batch l.groups)) };

    ghost inverse = { λ l. record { workers = l.workers; batch = l.batch; groups = l.groups } };
}

/// A limit is outside its bounds.
#[derive(Clone, Copy, Debug, Error)]
#[error("a limit is out of its bounds")]
pub struct BadLimit;

impl Limits {
    /// Checks each limit against its bounds; fails with [`BadLimit`] if one is outside.
    pub fn new(workers: usize, batch: usize, groups: usize) -> Result<Limits, BadLimit>
        ensures accepted { IsOk result ↔ IsTrue (are_limits (limit_numbers workers batch groups)) }
        ensures limits { IfOk result (λ limits. limits ≡ limit_numbers workers batch groups) }
    {
        let workers_fit = 1 <= workers && workers <= 64;
        let batch_fits = 1 <= batch && batch <= 4096;
        let groups_fit = 1 <= groups && groups <= 256;
        if !(workers_fit && batch_fits && groups_fit) {
            return Err(BadLimit);
        }
        Ok(Limits {
            workers,
            batch,
            groups,
        })
    }

    /// The number of workers.
    pub fn workers(&self) -> usize
        ensures workers { result ≡ self.now.workers }
        ensures bounds { IsTrue (are_limits self.now) }
    {
        self.workers
    }

    /// The most transactions of a batch.
    pub fn batch(&self) -> usize
        ensures batch { result ≡ self.now.batch }
        ensures bounds { IsTrue (are_limits self.now) }
    {
        self.batch
    }

    /// The most groups of a batch.
    pub fn groups(&self) -> usize
        ensures groups { result ≡ self.now.groups }
        ensures bounds { IsTrue (are_limits self.now) }
    {
        self.groups
    }
}
