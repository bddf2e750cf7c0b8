//! The secret that passwords are computed from.

ghost use Rattle.std.specs.Prelude.{◌≡◌, ℕ, List, IsTrue};
ghost use Rattle.settings.specs.Settings.{is_secret, secret_of, default_secret};

use std::alloc::{AllocError, Global};
use std::marker::Model;
use values::Blob;

/// The longest secret, in bytes.
pub const SECRET_LIMIT: usize = 64;

/// The secret that the passwords of sessions are computed from: at most 64 bytes.
#[derive(Debug, Drop)]
pub struct Secret {
    bytes: Blob,
}

impl Model for Secret {
    ghost Value = { List ℕ };

    ghost view = { λ s. s.bytes };

    ghost invariant = { λ s. IsTrue (is_secret s.bytes) };
}

impl Clone for Secret {
    ghost is_clone = { λ y x. y ≡ x };

    fn clone(&self) -> Result<Secret, AllocError> {
        Ok(Secret {
            bytes: self.bytes.clone()?,
        })
    }
}

impl Secret {
    /// Returns the secret of these bytes, or None if they are too many.
    pub fn new(bytes: Blob) -> Option<Secret>
        ensures { result ≡ secret_of bytes }
    {
        if bytes.as_slice().len() > SECRET_LIMIT {
            return None;
        }
        Some(Secret { bytes })
    }

    /// The empty secret, which is the default.
    pub fn empty(alloc: Global) -> Secret
        ensures { result ≡ default_secret }
    {
        Secret {
            bytes: Blob::from_vec(Vec::new(alloc)),
        }
    }

    pub fn as_slice(&self) -> &[u8]
        ensures { result.now ≡ self.now }
    {
        self.bytes.as_slice()
    }
}
