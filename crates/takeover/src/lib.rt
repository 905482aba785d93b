//! Several coordinators over one store that compares and sets are one coordinator of the protocol.
#![tactic(auto)]

pub mod laws;
