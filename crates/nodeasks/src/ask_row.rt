//! A row of the table of asks.
use events::KeptAsk;

/// An ask that is kept, under its place among the asks of its life, counted from 0.
#[derive(Drop)]
pub struct AskRow {
    pub place: usize,
    pub kept: KeptAsk,
}
