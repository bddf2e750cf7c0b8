//! Transactions of ZooKeeper's log (zookeeper.jute of ZooKeeper 3.4 to 3.9), decoded and encoded.
//!
//! A transaction is a header and the body of its type; a multi's parts are operations, each in a buffer of its own.
//! `decode_txn` decodes all of the given bytes, or returns the first fault in their order; `decode_txn_in` does so in
//! the dialect of a later leader. `specs/Spelling.antt` defines the spellings in one table for operations and one for bodies, and
//! `specs/Endings.antt` what may follow them.
//!
//! What is asked of a transaction, beside what it does, is in one place (`src/row.rt`, `specs/Row.antt`): the paths that
//! it touches, the data that it brings, the path that its reply shows, what it does to sessions, and whether it failed.
//!
//! ```text
//! let txn = decode_txn(alloc, bytes)?;
//! txn.header.zxid
//! match &txn.body { Body::Single(Operation::Create(create)) => create.path.parent(), .. }
//! encode_txn(&txn, &mut out)?;
//! ```
#![tactic(auto)]

mod decode;
mod encode;
mod ending;
mod kind;
mod law;
mod place;
mod row;
mod txn;

pub use decode::{decode_txn, decode_txn_in};
pub use encode::encode_txn;
pub use kind::TxnKind;
pub use law::{transactions, transactions_in};
pub use row::{SessionChange, has_error};
pub use txn::{Body, Check, Create, Delete, Operation, Owner, SetAcl, SetData, Txn, TxnHeader};
