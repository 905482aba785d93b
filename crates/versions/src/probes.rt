//! The search for a ticket among tickets that rise, and how often it looks.
ghost use Rattle.std.specs.Prelude.{◌≡◌, ◌≢◌, ℕ, ◌+◌, ◌-◌, ◌<◌, ◌≤◌, ◌^◌, length, map, IfSome, IfNone};
ghost use Rattle.versions.specs.Probes.{AreRising, ticket_numbered, number_among, binary_digit_count};

use super::line::Line;
use farm_base::Ticket;
use std::cmp::Ordering;
use std::marker::Model;

/// Tickets that rise, numbered from 1, which are looked at one by one.
pub trait Probed {
    ghost use Rattle.std.specs.Prelude.{List};
    ghost use Rattle.names.specs.declared.number.Ticket.{Ticket};

    /// The tickets, the first with number 1.
    ghost tickets: { Self → List Ticket };

    /// How many probes were made so far.
    ghost probed: { Self → ℕ };

    /// How many tickets there are, each above the one before it.
    fn len(&self) -> u64
        ensures value { result ≡ length (tickets self.now) }
        ensures rising { AreRising (tickets self.now) };

    /// Looks at the ticket of a number, which counts as a probe. There is none at 0, and past the last.
    fn probe(&mut self, number: u64) -> Option<Ticket>
        requires { probed self.old < 2 ^ 64 - 1 }
        ensures ticket { result ≡ ticket_numbered (tickets self.old) number }
        ensures same { tickets self.new ≡ tickets self.old }
        ensures count { probed self.new ≡ probed self.old + 1 };

    /// How many probes were made so far.
    fn probes(&self) -> u64
        ensures { result ≡ probed self.now };
}

/// The tickets of a line, and how often they were looked at.
#[derive(Drop)]
pub struct LineProbes<'a> {
    line: &'a Line,
    probes: u64,
}

impl<'a> Model for LineProbes<'a> {
    ghost use Rattle.std.specs.Prelude.{map};
    ghost use Rattle.versions.specs.Probes.{ProbedTickets};

    ghost Value = { ProbedTickets };

    ghost view = { λ p. record { tickets = map (λ version. version.ticket) p.line.now; probes = p.probes } };
}

impl<'a> LineProbes<'a> {
    /// The tickets of this line, with no probe made.
    pub fn of(line: &'a Line) -> Self
        ensures tickets { result.tickets ≡ map (λ version. version.ticket) line.now }
        ensures probes { result.probes ≡ 0 }
    {
        LineProbes { line, probes: 0 }
    }
}

impl<'a> Probed for LineProbes<'a> {
    ghost tickets = { λ p. p.tickets };

    ghost probed = { λ p. p.probes };

    fn len(&self) -> u64 {
        self.line.len()
    }

    fn probe(&mut self, number: u64) -> Option<Ticket> {
        self.probes += 1;
        self.line.ticket_at(number)
    }

    fn probes(&self) -> u64 {
        self.probes
    }
}

/// The number at which a ticket stands. Each probe leaves at most half of the numbers, so among 1,000 tickets, as on a line of
/// 1,000 versions, it makes no more than 10.
pub fn search<P: Probed>(probed: &mut P, ticket: Ticket) -> Option<u64>
    requires { P.probed probed.old ≤ 2 ^ 64 - 65 }
    ensures value { result ≡ number_among (P.tickets probed.old) ticket }
    ensures found { IfSome result (λ number. ticket_numbered (P.tickets probed.old) number ≡ Some ticket) }
    ensures only { IfNone result ((number : ℕ) → ticket_numbered (P.tickets probed.old) number ≢ Some ticket) }

    // Nothing changes but the count.
    ensures same { P.tickets probed.new ≡ P.tickets probed.old }
    ensures counted { P.probed probed.old ≤ P.probed probed.new }
    ensures few { P.probed probed.new ≤ P.probed probed.old + binary_digit_count (length (P.tickets probed.old)) }
{
    let mut below = 0;
    let mut left = probed.len();
    while left > 0 {
        let half = left / 2;
        let number = below + half + 1;
        match probed.probe(number).unwrap().cmp(&ticket) {
            Ordering::Less => {
                below = number;
                left -= half + 1;
            }
            Ordering::Equal => return Some(number),
            Ordering::Greater => left = half,
        }
    }
    None
}
