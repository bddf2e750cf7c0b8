//! Tests of `replica`, over its public calls. They are a crate of their own, since a crate with tests is proved twice.
//! Only `after` holds a replica, since each early end of a function that holds one is another drop of it to prove.
#![tactic(auto)]

#[cfg(test)]
mod events;
#[cfg(test)]
mod following_rows;
#[cfg(test)]
mod gathering_rows;
#[cfg(test)]
mod image_rows;
#[cfg(test)]
mod later_rows;
