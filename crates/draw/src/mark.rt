//! The marks of a picture. Columns are counted from the left, rows from the top, both from 0.

/// How a lease ended.
#[derive(Clone, Copy)]
pub enum End {
    Committed,
    Released,
    Withdrawn,
    /// A newer life of its node was heard.
    Died,
    /// The coordinator restarted.
    Restarted,
    /// It is live at the bottom.
    Open,
}

/// What an event is marked by.
#[derive(Clone, Copy)]
pub enum Sign {
    Plain,
    Refused,
    Failed,
    Armed,
    Started,
}

/// Something that is drawn. What reaches from one row to another has both as `from` and `to`.
#[derive(Clone, Copy)]
pub enum Mark {
    /// A life of a lifeline.
    Life {
        column: usize,
        from: usize,
        to: usize,
    },
    Lease {
        column: usize,
        ticket: u64,
        from: usize,
        to: usize,
        end: End,
    },
    /// An execution.
    Run {
        column: usize,
        ticket: u64,
        from: usize,
        to: usize,
    },
    /// A message that was taken.
    Arrow {
        from_column: usize,
        from: usize,
        column: usize,
        to: usize,
        number: u64,
    },
    /// A message that was taken, and sent before the first row.
    Arrival {
        column: usize,
        row: usize,
        number: u64,
    },
    /// A message that is not taken.
    Lost {
        column: usize,
        to_column: usize,
        row: usize,
        number: u64,
    },
    /// What happened.
    Event {
        column: usize,
        row: usize,
        sign: Sign,
    },
    /// What is printed of it.
    Label {
        column: usize,
        row: usize,
    },
}
