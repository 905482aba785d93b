//! Which events are drawn.
ghost use Rattle.std.specs.Prelude.{◌≡◌, ◌≤◌};
ghost use Rattle.draw.specs.Ranges.{skipped, drawn_to};

/// The most events that are drawn.
pub const MOST_EVENTS: usize = 1_000;

/// Which events to draw, counted from 1.
#[derive(Clone, Copy)]
pub struct Range {
    pub first: usize,
    pub last: usize,
}

impl Range {
    /// How many events are left out before the first that is drawn.
    pub(crate) fn skipped(self, events: usize) -> usize
        ensures value { result ≡ skipped self events }
        ensures within { result ≤ events }
    {
        self.first.saturating_sub(1).min(events)
    }

    /// Up to which event they are drawn.
    pub(crate) fn drawn_to(self, events: usize) -> usize
        ensures value { result ≡ drawn_to self events }
        ensures within { result ≤ events }
        ensures behind { skipped self events ≤ result }
    {
        let skipped = self.skipped(events);
        let most = skipped + MOST_EVENTS.min(events - skipped);
        skipped.max(self.last.min(most))
    }
}
