//! Tests of `serve`: over sockets, of records, of options and of the key by which nodes are found.
#![tactic(auto)]

#[cfg(test)]
mod hash_keys;
#[cfg(test)]
mod loopback;
#[cfg(test)]
mod options;
#[cfg(test)]
mod records;
#[cfg(test)]
mod rows;
