//! How many watches a connection may leave.

ghost use Rattle.std.specs.Prelude.{◌↔◌, ◌<◌, IsTrue};

/// Whether so many watches are more than a connection may leave. A bound of 0 allows any number.
pub fn are_too_many(watches: u128, most: u64) -> bool
    ensures { IsTrue result ↔ (0 < most) × (most < watches) }
{
    most > 0 && watches > u128::from(most)
}
