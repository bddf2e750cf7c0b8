//! What a server is started with: the configuration file, with those that it names, the secret, the record, a random
//! key, and where session ids begin.
//!
//! ```text
//! let read = read_file(rt, alloc, words, "zoo.cfg")?;            // and dataDir/myid, and the dynamicConfigFile
//! let given = read.given(alloc, words)?;
//! let options = read.options(alloc, words, given.as_slice())?;   // an option among the words wins
//! let secret = read_secret(rt, alloc, &options)?;                // the bytes in the file, which others can't read
//! let record = create_record(rt, alloc, &options)?;
//! let key = random_hash_key(rt)?;                                // of the hash by which nodes are found
//! let counter = first_counter(rt, &options)?;                    // the ids of two runs differ
//! ```
#![tactic(auto)]

mod counter;
mod hash_key;
mod read;
mod record;
mod secret;

pub use counter::first_counter;
pub use hash_key::random_hash_key;
pub use read::{FileLines, ReadFile, read_file};
pub use record::create_record;
pub use secret::read_secret;
