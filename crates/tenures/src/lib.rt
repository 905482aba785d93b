//! How the tenures of SHARED folders stand on the nodes of a farm, from their asks until they are settled.
#![tactic(auto)]

mod tenure;
mod tenures;

pub use tenure::{Ends, Stage, Tenure};
pub use tenures::Tenures;
