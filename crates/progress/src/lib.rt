//! No ask waits for ever where leases are given back.
#![tactic(auto)]

pub mod laws;
