//! Numbers and bytes of settings: those at a bound, and those one beyond it.

use crate::helpers::{blob, config};
use node_map::HashKey;
use observer_core::{Config, Engine, Settings, default_limits};
use settings::{Dialect, Epochs, FirstCounter, Secret, ServerId, TimeoutBounds};
use std::alloc::Global;
use std::hash::BuildHasher;
use std::test::*;

// Whether they are accepted, and the settings hold them. The secret has this many bytes.
fn takes(
    alloc: Global,
    server_id: i32,
    epochs: (i32, i32),
    timeouts: (i32, i32),
    length: usize,
) -> Result<bool, &'static str> {
    let secret = [7; 65];
    let secret = secret.get(..length).ok_or("a longer secret")?;
    let (accepted, current) = epochs;
    let (least, greatest) = timeouts;
    let made = Config::new(
        server_id,
        accepted,
        current,
        least,
        greatest,
        blob(alloc, secret)?,
        default_limits(),
    );
    Ok(match made {
        Ok(config) => says(&config.settings, server_id, epochs, timeouts, secret),
        Err(_) => false,
    })
}

// Whether the settings are these.
fn says(
    settings: &Settings,
    server_id: i32,
    epochs: (i32, i32),
    timeouts: (i32, i32),
    secret: &[u8],
) -> bool {
    settings.server_id.number() == server_id
        && (settings.epochs.accepted(), settings.epochs.current()) == epochs
        && (settings.timeouts.least(), settings.timeouts.greatest()) == timeouts
        && settings.secret.as_slice() == secret
}

// The settings of values that are within their bounds.
fn from_settings(alloc: Global) -> Result<Config, &'static str> {
    let settings = Settings {
        server_id: ServerId::new(255).ok_or("server")?,
        epochs: Epochs::new(2, 1).ok_or("epochs")?,
        timeouts: TimeoutBounds::new(5, 6).ok_or("timeouts")?,
        secret: Secret::new(blob(alloc, b"key")?).ok_or("secret")?,
        super_digest: None,
        first_counter: FirstCounter::new(0x00ff_ffff_ffff_fffe).ok_or("counter")?,
        dialect: Dialect::Zk38,
    };
    Ok(Config::from_settings(settings, default_limits()))
}

// The hashes of a path in a new engine with this key, and in one that follows a leader.
fn hashes(alloc: Global, key: HashKey) -> Result<(u64, u64), Fail> {
    let new = Engine::new(alloc, config(alloc)?.with_hash_key(key))?;
    let hash = new.tree().hash_key().hash_one("/a");
    let primed = Engine::primed(alloc, config(alloc)?.with_hash_key(key))?;
    Ok((hash, primed.tree().hash_key().hash_one("/a")))
}

#[test]
fn nodes_are_found_by_the_key_of_the_configuration(rt: HostRuntime) -> Result<(), Fail> {
    for key in [HashKey::default(), HashKey::new(3, 5)] {
        let hash = key.hash_one("/a");
        assert_eq!(rt; hashes(rt.alloc(), key)?, (hash, hash));
    }
    Ok(())
}

#[test]
fn within_bounds(rt: HostRuntime) -> Result<(), Fail> {
    let alloc = rt.alloc();
    assert!(rt; takes(alloc, 1, (0, 0), (1, 1), 0)?);
    assert!(rt; takes(alloc, 255, (i32::MAX, 0), (4000, 40_000), 64)?);
    assert!(rt; takes(alloc, 3, (0, i32::MAX), (1, i32::MAX), 1)?);
    let config = config(alloc)?;
    assert!(rt; config.settings.dialect == Dialect::Zk34);
    assert!(rt; config.with_dialect(Dialect::Zk38).settings.dialect == Dialect::Zk38);
    let settings = from_settings(alloc)?.settings;
    assert!(rt; settings.dialect == Dialect::Zk38);
    assert!(rt; says(&settings, 255, (2, 1), (5, 6), b"key"));
    assert_eq!(rt; settings.first_counter.number(), 0x00ff_ffff_ffff_fffe);
    // 27 November 2026, 04:00 in UTC.
    let started = FirstCounter::from_clock(1_795_752_000_000);
    assert_eq!(rt; started.number(), 9_600_012_015_108_096);
    Ok(())
}

#[test]
fn out_of_bounds(rt: HostRuntime) -> Result<(), Fail> {
    let alloc = rt.alloc();
    assert!(rt; !takes(alloc, 0, (0, 0), (4000, 40_000), 0)?);
    assert!(rt; !takes(alloc, 256, (0, 0), (4000, 40_000), 0)?);
    assert!(rt; !takes(alloc, 3, (-1, 0), (4000, 40_000), 0)?);
    assert!(rt; !takes(alloc, 3, (0, -1), (4000, 40_000), 0)?);
    assert!(rt; !takes(alloc, 3, (0, 0), (0, 40_000), 0)?);
    assert!(rt; !takes(alloc, 3, (0, 0), (5, 4), 0)?);
    assert!(rt; !takes(alloc, 3, (0, 0), (4000, 40_000), 65)?);
    assert!(rt; FirstCounter::new(0x00ff_ffff_ffff_ffff).is_none());
    Ok(())
}
