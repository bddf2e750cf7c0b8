//! The timeouts of sessions, as the caller knows them.

ghost use Rattle.std.specs.Prelude.{◌≡◌, ℤ, Option};

/// What tells the timeouts of sessions.
pub trait SessionTimeouts {
    ghost timeout: { Self → ℤ → Option ℤ };

    /// The timeout of the session in milliseconds; None if there is no such session.
    fn timeout_of(&self, session: i64) -> Option<i32>
        ensures { result ≡ timeout self.now session };
}
