//! The configuration of an observer.

ghost use Rattle.std.specs.Prelude.{◌≡◌, ◌↔◌, Some, None, IsOk, IsTrue, IfOk};
ghost use Rattle.batcher.specs.Limits.{limit_numbers};
ghost use Rattle.settings.specs.Dialects.{default_dialect};
ghost use Rattle.settings.specs.Settings.{epoch_pair, timeout_pair};
ghost use Rattle.settings.specs.Settings.{is_server_id, are_epochs, are_timeouts, is_secret, default_first_counter};

use batcher::{Limits, SpreadThreshold};
use data_tree::HashKey;
use settings::{Dialect, Epochs, FirstCounter, Secret, ServerId, TimeoutBounds};
use thiserror::Error;
use values::{Blob, Text};
use world::Settings;

/// The settings of an observer, the limits on what it does at once, the least work that it spreads over threads, and the
/// key by which it finds nodes. No answer depends on the last three.
#[derive(Drop)]
pub struct Config {
    pub settings: Settings,
    pub limits: Limits,
    pub threshold: SpreadThreshold,
    pub hash_key: HashKey,
}

/// A setting is outside its bounds.
#[derive(Clone, Copy, Debug, PartialEq, Eq, Error)]
#[error("a setting is out of its bounds")]
pub struct BadConfig;

/// The default limits: 4 workers, and batches of up to 256 transactions in up to 64 groups.
pub fn default_limits() -> Limits
    ensures { result ≡ limit_numbers 4 256 64 }
{
    match Limits::new(4, 256, 64) {
        Ok(limits) => limits,
        Err(_) => unreachable!(),
    }
}

impl Config {
    /// Checks each setting against its bounds. Timeouts are in milliseconds. Session ids begin with the counter 1; for
    /// any other first counter see [`Config::from_settings`]. The dialect is that of ZooKeeper 3.4, see
    /// [`Config::with_dialect`]. No client is a super user, see [`Config::with_super_digest`]. All work is spread, see
    /// [`Config::with_threshold`]. Nodes are found by the default key, see [`Config::with_hash_key`].
    ///
    /// Fails with [`BadConfig`] if a setting is outside its bounds; `settings` has the bounds.
    pub fn new(
        server_id: i32,
        accepted_epoch: i32,
        current_epoch: i32,
        min_timeout: i32,
        max_timeout: i32,
        secret: Blob,
        limits: Limits,
    ) -> Result<Config, BadConfig>
        ensures accepted { let epochs = epoch_pair accepted_epoch current_epoch in
            let timeouts = timeout_pair min_timeout max_timeout in
            IsOk result
            ↔ (IsTrue (is_server_id server_id) × IsTrue (are_epochs epochs)
            × IsTrue (are_timeouts timeouts) × IsTrue (is_secret secret)) }
        ensures server { IfOk result (λ c. c.settings.server_id ≡ server_id) }
        ensures epochs { IfOk result (λ c. c.settings.epochs ≡ epoch_pair accepted_epoch current_epoch) }
        ensures timeouts { IfOk result (λ c. c.settings.timeouts ≡ timeout_pair min_timeout max_timeout) }
        ensures secret { IfOk result (λ c. c.settings.secret ≡ secret) }
        ensures counter { IfOk result (λ c. c.settings.first_counter ≡ default_first_counter) }
        ensures dialect { IfOk result (λ c. c.settings.dialect ≡ default_dialect) }
        ensures super_digest { IfOk result (λ c. c.settings.super_digest ≡ None) }
        ensures limits { IfOk result (λ c. c.limits ≡ limits) }
        ensures threshold { IfOk result (λ c. c.threshold ≡ SpreadThreshold.ALWAYS) }
    {
        let Some(server_id) = ServerId::new(server_id) else {
            return Err(BadConfig);
        };
        let Some(epochs) = Epochs::new(accepted_epoch, current_epoch) else {
            return Err(BadConfig);
        };
        let Some(timeouts) = TimeoutBounds::new(min_timeout, max_timeout) else {
            return Err(BadConfig);
        };
        let Some(secret) = Secret::new(secret) else {
            return Err(BadConfig);
        };
        let settings = Settings {
            server_id,
            epochs,
            timeouts,
            secret,
            first_counter: FirstCounter::default(),
            dialect: Dialect::default(),
            super_digest: None,
        };
        Ok(Config::from_settings(settings, limits))
    }

    /// Builds a configuration from settings that were checked already. All work is spread, see
    /// [`Config::with_threshold`]. Nodes are found by the default key, see [`Config::with_hash_key`].
    pub fn from_settings(settings: Settings, limits: Limits) -> Config
        ensures settings { result.settings ≡ settings }
        ensures limits { result.limits ≡ limits }
        ensures threshold { result.threshold ≡ SpreadThreshold.ALWAYS }
    {
        Config {
            settings,
            limits,
            threshold: SpreadThreshold::ALWAYS,
            hash_key: HashKey::default(),
        }
    }

    /// The same, but leaders and clients speak this dialect.
    pub fn with_dialect(self, dialect: Dialect) -> Config
        ensures { result ≡ record self { settings = record self.settings { dialect = dialect } } }
    {
        Config {
            settings: Settings {
                dialect,
                ..self.settings
            },
            ..self
        }
    }

    /// The same, but a client with this digest, "user:" and SHA-1 of "user:password" in base64, is the super user.
    pub fn with_super_digest(self, digest: Text) -> Config
        ensures { result ≡ record self { settings = record self.settings { super_digest = Some digest } } }
    {
        let mut config = self;
        config.settings.super_digest = Some(digest);
        config
    }

    /// The same, but work below the threshold is done on the calling thread.
    pub fn with_threshold(self, threshold: SpreadThreshold) -> Config
        ensures { result ≡ record self { threshold = threshold } }
    {
        Config { threshold, ..self }
    }

    /// The same, but nodes are found by this key, which clients are not to know.
    pub fn with_hash_key(self, key: HashKey) -> Config
        ensures { result ≡ record self { hash_key = key } }
    {
        Config {
            hash_key: key,
            ..self
        }
    }
}
