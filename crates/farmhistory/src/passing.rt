//! Which messages are no longer left to be delivered.
ghost use Rattle.std.specs.Prelude.{◌≡◌, ℕ, ◌<◌, ◌==◌, ◌||◌, vec_len};
ghost use Rattle.std.specs.List.{list_any};
ghost use Rattle.std.specs.Vec.{vec_capacity};
ghost use Rattle.farmhistory.specs.Boards.{is_behind, PassesTo};

use events::Event;

pub fn is_among(number: u64, numbers: &[u64]) -> bool
    ensures { result ≡ list_any (λ passed. passed == number) numbers.now }
{
    numbers.iter().any(|other| *other == number)
}

/// Passes the message of this number, in the room that is there. Answers up to which number all are passed then.
fn pass_number(ahead: &mut Vec<u64>, upto: u64, number: u64) -> u64
    requires { vec_len ahead.old < vec_capacity ahead.old }
    ensures { (other : ℕ) → is_behind result ahead.new.items other ≡ (is_behind upto ahead.old.items other || number == other) }
{
    if number <= upto {
        return upto;
    }
    if number - upto == 1 {
        return number;
    }
    ahead.push_reserved(number);
    upto
}

/// Passes the message that the event delivers, if it delivers one.
pub fn pass(ahead: &mut Vec<u64>, upto: u64, event: &Event) -> u64
    requires { vec_len ahead.old < vec_capacity ahead.old }
    ensures { PassesTo event.now upto ahead.old.items result ahead.new.items }
{
    match event {
        Event::Deliver(number) => pass_number(ahead, upto, *number),
        _ => upto,
    }
}
