//! The protocol of leases over unreliable messages: its definitions, and its safety.
#![tactic(auto)]

pub mod laws;
