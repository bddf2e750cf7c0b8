//! The sessions that were touched since the leader was told.

ghost use Rattle.std.specs.Prelude.{◌≡◌, OnOk, OnErr, IfOk, ℤ, map};
ghost use Rattle.std.specs.FinSet as set;
ghost use Rattle.forwarding.specs.Pending.{live_rows, sorted_touched};

use crate::timeouts::SessionTimeouts;
use std::alloc::Global;
use std::collections::BTreeSet;
use std::marker::Model;
use values::NoMemory;

/// The sessions whose clients were heard.
#[derive(Drop)]
pub struct Touched {
    sessions: BTreeSet<i64>,
    // One of them, the last that was touched: it mostly is the next as well.
    last: Option<i64>,
}

impl Model for Touched {
    ghost use Rattle.std.specs.FinSet as set;
    ghost use Rattle.std.specs.Prelude.{IfSome};
    ghost use Rattle.forwarding.specs.State.{TouchedSessions, session_ids_code};
    ghost use Rattle.forwarding.specs.Inner.{IsTouched};

    ghost Value = { TouchedSessions };

    ghost coded = { session_ids_code };

    ghost view = { λ t. set.from_list t.sessions.keys };

    ghost invariant = { λ t. IfSome t.last (IsTouched (set.from_list t.sessions.keys)) };
}

impl Touched {
    /// No session. Allocates nothing.
    pub fn new(alloc: Global) -> Touched
        ensures { result ≡ set.empty }
    {
        Touched {
            sessions: BTreeSet::new(alloc),
            last: None,
        }
    }

    /// Adds a session; it may be there already. A refused allocation changes nothing.
    #[inline(always)]
    pub fn touch(&mut self, session: i64) -> Result<(), NoMemory>
        ensures ok { OnOk result (self.new ≡ set.insert self.old session) }
        ensures err { OnErr result (self.new ≡ self.old) }
    {
        if self.last == Some(session) {
            return Ok(());
        }
        self.insert(session)
    }

    // Apart from `touch`, so that the common case is small where it is called.
    #[inline(never)]
    fn insert(&mut self, session: i64) -> Result<(), NoMemory>
        ensures ok { OnOk result (self.new ≡ set.insert self.old session) }
        ensures err { OnErr result (self.new ≡ self.old) }
    {
        self.sessions.insert(session)?;
        self.last = Some(session);
        Ok(())
    }

    /// The sessions that have a timeout, each with it, in ascending order. Fails only if an allocation is refused.
    pub(crate) fn live_rows<T: SessionTimeouts>(
        &self,
        alloc: Global,
        timeouts: &T,
    ) -> Result<Vec<(i64, i32)>, NoMemory>
        ensures { IfOk result (λ rows. rows.items ≡ live_rows (T.timeout timeouts.now) (sorted_touched self.now)) }
    {
        let mut rows = Vec::new(alloc);
        for session in self.sessions.iter() {
            if let Some(timeout) = timeouts.timeout_of(*session) {
                rows.push((*session, timeout))?;
            }
        }
        Ok(rows)
    }

    /// The sessions of these rows.
    pub(crate) fn of_rows(alloc: Global, rows: &[(i64, i32)]) -> Result<Touched, NoMemory>
        ensures { IfOk result (λ touched. touched ≡ set.from_list (map (λ (row : ℤ × ℤ). row.0) rows.now)) }
    {
        let mut touched = Touched::new(alloc);
        for (session, _) in rows {
            touched.touch(*session)?;
        }
        Ok(touched)
    }
}
