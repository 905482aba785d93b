//! The vertices of a definition: loading, checks, and the order in which they can be solved.
#![tactic(auto)]

mod building;
mod edge_list;
mod edges;
mod execs;
mod graph;
mod loading;
mod reading;
mod refusal;
mod unresolved;
mod vertex;

pub use graph::Graph;
pub use loading::load;
pub use ordering::{OrderRefusal, laws, order};
pub use refusal::LoadRefusal;
pub use vertex::Vertex;
