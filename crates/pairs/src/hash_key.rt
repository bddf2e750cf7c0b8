//! The key of the hash of paths.

use std::hash::{BuildHasher, DefaultHasher, Hasher};

/// The key of the hash by which paths are found. Clients choose paths: where they know the key, they can choose such as
/// collide, which makes each look-up slow. So a server draws it at random. It shows in no answer, so no contract speaks
/// of it. The default is known to everybody.
#[derive(Clone, Copy, Drop)]
pub struct HashKey {
    // The hasher after the key's two numbers.
    start: DefaultHasher,
}

impl HashKey {
    pub fn new(first: u64, second: u64) -> HashKey {
        let mut start = DefaultHasher::new();
        start.write_u64(first);
        start.write_u64(second);
        HashKey { start }
    }
}

impl Default for HashKey {
    fn default() -> HashKey {
        HashKey::new(0, 0)
    }
}

impl BuildHasher for HashKey {
    type Hasher = DefaultHasher;

    ghost build_hasher = { λ k. k.start };

    fn build_hasher(&self) -> DefaultHasher {
        self.start
    }
}
