//! BuildKit's `Definition` and `Op` messages: reading and writing them.
#![tactic(auto)]

mod definition;
mod exec;
mod fields;
mod input;
mod lent;
mod op;
mod owning;
mod put;
mod raw;
mod read;
mod reading;
mod refusal;
mod texts;
mod whole;
mod wire_op;
mod write;

pub use definition::Definition;
pub use exec::{CacheOpt, ExecOp, Meta, Mount};
pub use input::Input;
pub use lent::{LentOp, LentText};
pub use op::{Kind, Op};
pub use read::{ENTRIES, LIMIT, read_definition, read_lent_op, read_op};
pub use refusal::OpRefusal;
pub use wire_op::{WireOp, stripped_place};
pub use write::{write_definition, write_exec, write_op};
