//! The asks of a node's present life: all that aren't over, and the last of those that are.
ghost use Rattle.std.specs.Prelude.{◌≡◌, ◌<◌, ◌≤◌, ◌+◌, ◌*◌, ◌^◌, ◌∷◌, ◌++◌, ◌⊎◌, ◌&&◌, [], Some, IfSome, IfNone, is_some, OnOk, OnErr, slice_get, slice_set, length, vec_len, drop, false, true, not, nat_le, if◌then◌else◌};
ghost use Rattle.protocol.specs.Lists.{nth};
ghost use Rattle.nodeasks.specs.Rows.{HaveRows, IsRowOf, IsRowOfAsk, endings_after, has_row, is_lost, is_over, none_lost, row_endings};
ghost use Rattle.nodeasks.specs.Asks.{changed};
ghost use Rattle.nodeasks.specs.RowProps.{HaveRows-prop};

use super::all_asks::AllAsks;
use super::ask_row::AskRow;
use super::asks::{AskChange, change, is_over};
use events::KeptAsk;
use farm_base::Ask;
use std::alloc::{AllocError, Global};
use std::slice::from_ref;

/// How many of the asks that are over stay in the table: the last ones.
const ENDINGS: usize = 1024;

/// The asks of a life. An ask has a row while it isn't over; when it is over, until `forget_endings` takes the row.
#[derive(Drop)]
pub struct AskTable {
    /// How many asks were made.
    pub made: usize,
    /// By rising place.
    pub rows: Vec<AskRow>,
    /// How many of the rows are of asks that are over.
    over: usize,
    pub all: AllAsks,
    pub ghost counted: { made ≡ length all.asks },
    ghost over_counted: { over ≡ row_endings rows.items },
    pub ghost tied: { HaveRows all.asks 0 rows.items } by { HaveRows-prop all.asks 0 rows.items },
}

/// How many asks more are over once one was or wasn't, and is or isn't.
fn ends(was_over: bool, is_over: bool) -> usize
    ensures few { result ≤ 1 }
    ensures exact { result ≡ (if is_over && not was_over then 1 else 0) }
{
    if is_over && !was_over { 1 } else { 0 }
}

/// From which row on `many` asks are over: the first row, where fewer are.
fn last_endings(rows: &[AskRow], many: usize) -> usize
    ensures enough { (result ≡ 0) ⊎ (many ≤ row_endings (drop result rows.now)) }
    ensures no_more { row_endings (drop result rows.now) ≤ many }
{
    let mut first = rows.len();
    let mut left = many;
    while 0 < first && 0 < left {
        first -= 1;
        if is_over(&rows[first].kept) {
            left -= 1;
        }
    }
    first
}

impl AskTable {
    /// No ask was made.
    pub fn new(alloc: Global) -> Self
        ensures asks { result.all.asks ≡ [] }
        ensures told { is_lost result.all.asks result.rows.items ≡ none_lost }
    {
        AskTable {
            made: 0,
            rows: Vec::new(alloc),
            over: 0,
            all: AllAsks::new(),
        }
    }

    /// One ask more, which isn't over. Fails only where memory runs out, and changes nothing then.
    pub fn push(&mut self, ask: KeptAsk) -> Result<(), AllocError>
        requires room { self.old.made + 1 < 2 ^ 64 }
        requires present { is_over ask ≡ false }
        ensures pushed { OnOk result (self.new.all.asks ≡ self.old.all.asks ++ ask ∷ []) }
        ensures memory { OnErr result (self.new.all.asks ≡ self.old.all.asks) }
        ensures told { is_lost self.new.all.asks self.new.rows.items ≡ is_lost self.old.all.asks self.old.rows.items }
    {
        let place = self.made;
        let row = self.rows.len();
        self.rows.push(AskRow { place, kept: ask })?;
        self.made += 1;
        self.all.note(from_ref(&self.rows[row]));
        Ok(())
    }

    /// The row of the ask at a place. None where the table has none.
    pub(crate) fn row_at(&self, place: usize) -> Option<usize>
        ensures found { IfSome result (λ row. IsRowOf self.now.rows.items place row) }
        ensures none { IfNone result (has_row self.now.rows.items (place + 1) ≡ false) }
    {
        let row = self.rows.partition_point(|row| row.place < place);
        let Some(found) = self.rows.get(row) else {
            return None;
        };
        if found.place == place {
            Some(row)
        } else {
            None
        }
    }

    /// The row of the ask of a number. None where the table has none.
    pub fn row_of_ask(&self, ask: Ask) -> Option<usize>
        ensures found { IfSome result (λ row. IsRowOfAsk self.now.rows.items ask.0 row) }
        ensures none { IfNone result (has_row self.now.rows.items ask.0 ≡ false) }
    {
        if ask.0 == 0 {
            return None;
        }
        self.row_at(ask.0 as usize - 1)
    }

    /// Whether the ask of a number was made.
    pub fn has_made(&self, ask: Ask) -> bool
        ensures { result ≡ is_some (nth self.now.all.asks ask.0) }
    {
        1 <= ask.0 && ask.0 <= self.made as u64
    }

    /// Changes the ask of a row.
    pub fn change(&mut self, row: usize, with: AskChange)
        requires { row < vec_len self.old.rows }
        ensures asks { (at : _) → slice_get self.old.rows.items row ≡ Some at → self.new.all.asks ≡ slice_set self.old.all.asks at.place (changed with at.kept) }
        ensures told { is_lost self.new.all.asks self.new.rows.items ≡ is_lost self.old.all.asks self.old.rows.items }
    {
        let was_over = is_over(&self.rows[row].kept);
        change(&mut self.rows[row].kept, with);
        self.all.note(from_ref(&self.rows[row]));
        let more = ends(was_over, is_over(&self.rows[row].kept));
        self.over += more;
    }

    /// Whether it is time to take rows: the rows that may go are then at least half of all, so that the calls together look
    /// at two rows for each that goes.
    pub fn is_due(&self) -> bool
        ensures { result ≡ nat_le (vec_len self.now.rows + 2048) (2 * row_endings self.now.rows.items) }
    {
        self.rows.len() + 2 * ENDINGS <= 2 * self.over
    }

    /// Takes the rows of the asks that are over but for the last `ENDINGS` of them, and gives their memory back.
    pub fn forget_endings(&mut self)
        ensures asks { self.new.all.asks ≡ self.old.all.asks }
        ensures late { (a : _) → is_lost self.new.all.asks self.new.rows.items a ≡ true
            → (is_lost self.old.all.asks self.old.rows.items a ≡ true) ⊎ (1024 ≤ endings_after a self.old.all.asks) }
        ensures few { row_endings self.new.rows.items ≤ 1024 }
    {
        let first = last_endings(self.rows.as_slice(), ENDINGS);
        self.take_endings(first);
        self.rows.shrink_to(self.rows.len().saturating_mul(2));
    }

    /// Takes the rows before this one that are of asks that are over.
    fn take_endings(&mut self, first: usize)
        requires { (first ≡ 0) ⊎ (first < vec_len self.old.rows) }
        ensures asks { self.new.all.asks ≡ self.old.all.asks }
        ensures late { (a : _) → is_lost self.new.all.asks self.new.rows.items a ≡ true
            → (is_lost self.old.all.asks self.old.rows.items a ≡ true) ⊎ ((0 < first) × (row_endings (drop first self.old.rows.items) ≤ endings_after a self.old.all.asks)) }
        ensures few { row_endings self.new.rows.items ≤ row_endings (drop first self.old.rows.items) }
    {
        if first == 0 {
            return;
        }
        let from = self.rows[first].place;
        let rows = self.rows.len();
        self.rows
            .retain(|row| from <= row.place || !is_over(&row.kept));
        self.over -= rows - self.rows.len();
    }
}
