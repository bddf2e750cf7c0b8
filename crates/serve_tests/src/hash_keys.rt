//! The key of the hash by which nodes are found.

use serve_config::random_hash_key;
use std::hash::BuildHasher;
use std::test::Fail;

#[test]
fn each_key_is_drawn_anew(rt: HostRuntime) -> Result<(), Fail> {
    let (one, other) = (random_hash_key(&rt)?, random_hash_key(&rt)?);
    assert!(rt; one.hash_one("/a") != other.hash_one("/a"));
    Ok(())
}
