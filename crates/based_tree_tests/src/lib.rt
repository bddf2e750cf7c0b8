//! Tests of a tree that goes back to its base, over public calls alone. They are a crate of their own, since a crate
//! with tests is proved twice.
#![tactic(auto)]

#[cfg(test)]
mod copied_cells;
#[cfg(test)]
mod going_back;
