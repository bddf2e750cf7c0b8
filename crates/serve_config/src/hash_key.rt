//! The key by which nodes are found.

use node_map::HashKey;
use std::io;
use std::random::RandomSource;

fn random_number<R: RandomSource>(rt: &R) -> io::Result<u64> {
    let mut bytes = [0; 8];
    rt.fill_bytes(&mut bytes)?;
    Ok(u64::from_le_bytes(bytes))
}

/// A key from the system's random numbers, so that no client can choose paths whose hashes collide.
pub fn random_hash_key<R: RandomSource>(rt: &R) -> io::Result<HashKey> {
    Ok(HashKey::new(random_number(rt)?, random_number(rt)?))
}
