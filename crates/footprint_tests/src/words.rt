//! Transactions given as signs and paths.

use paths_and_acls::{AclField, Path};
use settings::Dialect;
use std::alloc::Global;
use txn_codec::{Body, Check, Create, Delete, Operation, Owner, SetData, Txn, TxnHeader};
use values::ReadError;

/// The operation of a sign: "+" a create, "-" a delete, "=" new data, "?" a check, and any other an error.
pub fn operation_of(alloc: Global, sign: char, path: &str) -> Result<Operation, ReadError> {
    let path = Path::new(alloc, path)?;
    Ok(match sign {
        '+' => Operation::Create(Create {
            path,
            bytes: None,
            acl: AclField::null(),
            owner: Owner::Nobody,
            asks_stat: false,
            parent_cversion: -1,
        }),
        '-' => Operation::Delete(Delete {
            path,
            of_container: false,
        }),
        '=' => Operation::SetData(SetData {
            path,
            bytes: None,
            version: 1,
            is_reconfig: false,
        }),
        '?' => Operation::Check(Check { path, version: 1 }),
        _ => Operation::Error(-101),
    })
}

/// A transaction of session 9.
pub fn txn_of(body: Body) -> Txn {
    let header = TxnHeader {
        client_id: 9,
        cxid: 1,
        zxid: 1,
        time: 1000,
        rules: Dialect::Zk34,
    };
    Txn { header, body }
}
