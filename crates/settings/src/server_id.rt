//! The id of a server.

ghost use Rattle.std.specs.Prelude.{◌≡◌, ℤ, IsTrue};
ghost use Rattle.settings.specs.Settings.{is_server_id, server_id_of, default_server_id};

use std::marker::Model;

/// The id of a server among those that serve one tree, from 1 to 255. It is the high byte of the session ids that the
/// server gives.
#[derive(Clone, Copy, Debug)]
pub struct ServerId {
    number: i32,
}

impl Model for ServerId {
    ghost Value = { ℤ };

    ghost view = { λ id. id.number };

    ghost invariant = { λ id. IsTrue (is_server_id id.number) };

    ghost inverse = { λ number. record { number = number } };
}

impl ServerId {
    /// Returns the server id, or None if it is out of bounds.
    pub fn new(number: i32) -> Option<ServerId>
        ensures { result ≡ server_id_of number }
    {
        let is_server_id = 1 <= number && number <= 255;
        if !is_server_id {
            return None;
        }
        Some(ServerId { number })
    }

    pub fn number(self) -> i32
        ensures number { result ≡ self }
        ensures bounds { IsTrue (is_server_id result) }
    {
        self.number
    }
}

impl Default for ServerId {
    fn default() -> ServerId
        ensures { result ≡ default_server_id }
    {
        ServerId { number: 1 }
    }
}
