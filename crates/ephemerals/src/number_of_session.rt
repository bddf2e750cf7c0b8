//! Sessions as numbers.

ghost use Rattle.std.specs.Prelude.{◌≡◌};
ghost use Rattle.ephemerals.specs.Inner.OwnersView.{number_of_session};

/// The number by which a session is stored: 0, -1, 1, -2, 2, .. have the numbers 0, 1, 2, 3, 4, ..
pub(crate) fn number_of_session(session: i64) -> u64
    ensures { result ≡ number_of_session session }
{
    if session < 0 {
        return 2 * session.abs_diff(-1) + 1;
    }
    2 * session.cast_unsigned()
}
