//! The order in which turns come to the ports of clients.

ghost use Rattle.std.specs.Prelude.{◌≡◌, ◌+◌, ◌-◌, ◌^◌, ◌&&◌, min, not, nat_lt, true, false, if◌then◌else◌};

/// Where a turn goes on. The ports whose last messages were cheap come first, then the costly ones; each kind goes
/// round by number, from the port after the one that was come to last.
#[derive(Clone, Copy, Drop)]
pub struct Round {
    /// The number from which the cheap ports come first.
    pub cheap: usize,
    /// The number from which the costly ports come first.
    pub costly: usize,
    /// Whether this turn has come to a costly port.
    pub came_to_costly: bool,
}

impl Round {
    pub fn new() -> Round
        ensures { (result.cheap ≡ 0) × (result.costly ≡ 0) × (result.came_to_costly ≡ false) }
    {
        Round {
            cheap: 0,
            costly: 0,
            came_to_costly: false,
        }
    }

    pub fn begin(&mut self)
        ensures { self.new ≡ record self.old { came_to_costly = false } }
    {
        self.came_to_costly = false;
    }

    /// The place of a port in the order.
    pub fn place(&self, number: usize, is_costly: bool) -> (bool, bool, usize)
        ensures { result ≡ (
          is_costly,
          nat_lt number (if is_costly then self.now.costly else self.now.cheap),
          number,
        ) }
    {
        let from = if is_costly { self.costly } else { self.cheap };
        (is_costly, number < from, number)
    }

    /// Whether a turn still comes to a port once its budget is spent: to one costly port, since there may be enough
    /// cheap ones for every turn.
    pub fn reaches(&self, is_costly: bool) -> bool
        ensures { result ≡ (is_costly && not self.now.came_to_costly) }
    {
        is_costly && !self.came_to_costly
    }

    /// Notes that the turn came to the port.
    pub fn came(&mut self, number: usize, is_costly: bool)
        ensures costly { is_costly ≡ true
            → self.new ≡ record self.old { costly = min (number + 1) (2 ^ 64 - 1); came_to_costly = true } }
        ensures cheap { is_costly ≡ false → self.new ≡ record self.old { cheap = min (number + 1) (2 ^ 64 - 1) } }
    {
        let next = number.saturating_add(1);
        if is_costly {
            self.came_to_costly = true;
            self.costly = next;
        } else {
            self.cheap = next;
        }
    }
}
