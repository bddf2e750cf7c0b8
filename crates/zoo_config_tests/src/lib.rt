//! Tests of configuration files: their form, what keys mean, and whole files as options.
#![tactic(auto)]

#[cfg(test)]
mod files;
#[cfg(test)]
mod forms;
