//! What the end of a leader means for the engine that followed it.

ghost use Rattle.std.specs.Prelude.{◌≡◌};
ghost use Rattle.following.specs.Ends.{verdict_after};

use values::Fault;

/// What is to be done after a leader.
#[derive(Clone, Copy, Debug, PartialEq, Eq)]
pub enum Verdict {
    /// The same engine follows the next leader, which sends it what it lacks.
    SameEngine,
    /// The same engine follows the next leader, after a pause.
    Pause,
    /// A new process, with an empty engine: it is sent an image, which leaps over what this one couldn't read.
    NewProcess,
}

impl Verdict {
    /// What the end of a leader means: of one that ended, also inside a packet, or fell silent, without a fault; or of
    /// one whose bytes were refused with this fault.
    pub fn after(fault: Option<Fault>) -> Verdict
        ensures { result ≡ verdict_after fault }
    {
        match fault {
            None => Verdict::SameEngine,
            Some(Fault::BadImage | Fault::EpochTooSmall) => Verdict::Pause,
            Some(_) => Verdict::NewProcess,
        }
    }
}
