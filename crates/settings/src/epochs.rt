//! The two epochs.

ghost use Rattle.std.specs.Prelude.{◌≡◌, IsTrue};
ghost use Rattle.settings.specs.Settings.{EpochPair, epoch_pair, are_epochs, epochs_of, default_epochs};

use std::marker::Model;

/// The accepted epoch and the current epoch, which is that of the last leader that was followed; each is at least 0.
#[derive(Clone, Copy, Debug)]
pub struct Epochs {
    accepted: i32,
    current: i32,
}

impl Model for Epochs {
    ghost Value = { EpochPair };

    ghost view = { λ e. epoch_pair e.accepted e.current };

    ghost invariant = { λ e. IsTrue (are_epochs (epoch_pair e.accepted e.current)) };

    ghost inverse = { λ e. record { accepted = e.accepted; current = e.current } };
}

impl Epochs {
    /// Returns these epochs, or None if one is below 0.
    pub fn new(accepted: i32, current: i32) -> Option<Epochs>
        ensures { result ≡ epochs_of accepted current }
    {
        let are_epochs = 0 <= accepted && 0 <= current;
        if !are_epochs {
            return None;
        }
        Some(Epochs { accepted, current })
    }

    pub fn accepted(self) -> i32
        ensures { result ≡ self.accepted }
    {
        self.accepted
    }

    pub fn current(self) -> i32
        ensures { result ≡ self.current }
    {
        self.current
    }
}

impl Default for Epochs {
    fn default() -> Epochs
        ensures { result ≡ default_epochs }
    {
        Epochs {
            accepted: 0,
            current: 0,
        }
    }
}
