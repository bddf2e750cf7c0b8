//! Tests of clients' sessions, over public calls alone. They are a crate of their own, since a crate with tests is
//! proved twice.
#![tactic(auto)]

#[cfg(test)]
mod connects;
#[cfg(test)]
mod helpers;
#[cfg(test)]
mod moved;
#[cfg(test)]
mod shown_ids;
#[cfg(test)]
mod super_user;
