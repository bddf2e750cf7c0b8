//! A step of a schedule.

/// A step of a worker: it claims the next group of a batch, applies the next transaction of its group, or gives the
/// group back when all are applied. Workers are numbered.
#[derive(Clone, Copy)]
pub enum Step {
    Claim(usize),
    Do(usize),
    Give(usize),
}
