//! Processes that read lines and answer each.
#![tactic(auto)]

mod answer;
mod line;
mod lost;
mod outside;
mod serving;
mod settled;
mod unread;

pub use answer::Answer;
pub use line::LineBuffer;
pub use lost::Lost;
pub use outside::{from_outside, line_of, push_message, push_messages};
pub use serving::{Step, serve};
pub use settled::Settled;
pub use unread::{Unread, lost_line, print_unread, unread_line, unread_of};
