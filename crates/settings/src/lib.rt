//! The settings of an observer. Each setting is a type whose values are within their bounds, since its constructor
//! returns no others; so the bounds are checked once, where a setting comes in, and nowhere else. The defaults are here
//! too, as `default` and `Secret::empty`.
//!
//! ```
//! let server = ServerId::new(3);                     // Some: 1 to 255
//! let timeouts = TimeoutBounds::new(40_000, 4000);   // None: the least is above the greatest
//! let epochs = Epochs::default();                    // 0 and 0
//! let first = FirstCounter::from_clock(1);           // 65,536: the first session id has the next counter
//! let dialect = Dialect::default();                  // Zk34: that of ZooKeeper 3.4
//! ```
//!
//! In a contract the model of a server id and of a first counter is its number, that of a secret its bytes, and that of
//! epochs and timeouts the pair of their numbers.
#![tactic(auto)]

mod dialect;
mod epochs;
mod first_counter;
mod secret;
mod server_id;
mod timeouts;

pub use dialect::{Dialect, Reads};
pub use epochs::Epochs;
pub use first_counter::FirstCounter;
pub use secret::{SECRET_LIMIT, Secret};
pub use server_id::ServerId;
pub use timeouts::TimeoutBounds;
