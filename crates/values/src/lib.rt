//! Values that every layer uses: texts, bytes and lists whose models are the lists of their elements, bytes that
//! wait, and reasons for refusals.
//!
//! A record whose fields are such values is its own model: two records are equal in a contract exactly if they hold the
//! same. `Text`, `Blob` and `Listed` own their elements; `Str` and `Bytes` borrow them.
#![tactic(auto)]

mod byte_queue;
mod fault;
mod value;

pub use byte_queue::ByteQueue;
pub use fault::{Fault, NoMemory, ReadError};
pub use value::{Blob, Bytes, Listed, Str, Text};
