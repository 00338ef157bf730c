//! The write of a command: what it is to store is stored by one call, the last that can be refused.
#![tactic(auto)]

/// What is to be done for a command, done over a store.
pub mod actions;
