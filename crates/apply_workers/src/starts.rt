//! Which threads are started.

/// Asked before the threads of workers are started.
pub trait Starts {
    /// Whether the thread of this worker may be started. A thread that may not counts as one that can't be: fewer
    /// workers do the work. Worker 0 is the calling thread, so nothing is asked for it.
    fn may_start(&self, worker: usize) -> bool;
}

/// All threads are started.
pub struct AllStart;

impl Starts for AllStart {
    fn may_start(&self, _worker: usize) -> bool {
        true
    }
}
