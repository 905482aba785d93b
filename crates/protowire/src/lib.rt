//! The fields of a proto3 message: reading and writing its wire form.
#![tactic(auto)]

mod body_list;
mod field;
pub mod laws;
mod lookup;
mod reading;
mod refusal;
mod shared_bodies;
mod shared_bytes;
mod varint;
mod whole;
mod writing;

pub use body_list::{BodyList, Span};
pub use field::{Field, Value};
pub use lookup::{bodies, body_in, joined_body, last_member, last_varint, lone_body, lone_member};
pub use reading::fields;
pub use refusal::WireRefusal;
pub use shared_bodies::SharedBodies;
pub use shared_bytes::SharedBytes;
pub use whole::take_bodies;
pub use writing::{put_bytes, put_message, put_varint};
