//! A frame whose answer is timed.

ghost use Rattle.std.specs.Prelude.{◌≡◌, ◌≤◌, ◌<◌, ◌-◌, IfSome, IfNone};

/// The last one of some frames, whose answer is timed: answers come in order, so it is the last of as many.
#[derive(Clone, Copy, Debug, PartialEq, Eq)]
pub(crate) struct Timed {
    /// When the frames were sent on, in microseconds.
    pub since: u64,
    /// How many answers come until its own has.
    pub left: u64,
}

impl Timed {
    /// The same after so many answers. None once its own has come.
    pub fn after(self, answers: u64) -> Option<Timed>
        ensures since { IfSome result (λ t. t.since ≡ self.since) }
        ensures left { IfSome result (λ t. t.left ≡ self.left - answers) }
        ensures waits { IfSome result (λ t. 0 < t.left) }
        ensures came { IfNone result (self.left ≤ answers) }
    {
        if self.left <= answers {
            return None;
        }
        Some(Timed {
            since: self.since,
            left: self.left - answers,
        })
    }
}
