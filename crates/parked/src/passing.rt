//! Lists whose first are over: what is over moves before the others.
ghost use Rattle.std.specs.Prelude.{◌≡◌, ℕ, ◌<◌, ◌≤◌, true, drop, length, vec_len, slice_index_or};
ghost use Rattle.std.specs.Vec.{vec_capacity};
ghost use Rattle.parked.specs.Over.{still_waiting};

use super::over::Over;

/// How many of the places are of this many items.
fn count_inside(over: &Over, count: usize) -> usize
    ensures inside { result ≤ vec_len over.now.places }
    ensures before { (k : ℕ) → k < result → slice_index_or over.now.places.items k 0 < count }
    ensures behind { result < vec_len over.now.places → count ≤ slice_index_or over.now.places.items result 0 }
{
    let mut left = over.places.len();
    while left > 0 && over.places[left - 1] >= count {
        left -= 1;
    }
    left
}

/// The place behind the last of the first `left` places, where these are all, else the place behind all items.
fn behind_last(over: &Over, left: usize, count: usize) -> usize
    requires inside { left ≤ vec_len over.now.places }
    requires before { (k : ℕ) → k < left → slice_index_or over.now.places.items k 0 < count }
    ensures inside { result ≤ count }
    ensures before { (k : ℕ) → k < left → slice_index_or over.now.places.items k 0 < result }
    ensures all { left < vec_len over.now.places → result ≡ count }
{
    if left < over.places.len() {
        count
    } else if left == 0 {
        0
    } else {
        over.places[left - 1] + 1
    }
}

/// Passes over the items at these places from `start` on: they move before the others, which stay in order and begin at the
/// place that it gives.
pub(crate) fn pass_over<T>(items: &mut Vec<T>, start: usize, over: &Over) -> usize
    requires inside { start ≤ vec_len items.old }
    ensures left { drop result items.new.items ≡ still_waiting over.now.places.items (drop start items.old.items) }
    ensures inside { result ≤ vec_len items.new }
    ensures len { vec_len items.new ≡ vec_len items.old }
    ensures capacity { vec_capacity items.new ≡ vec_capacity items.old }
{
    let waiting = items.len() - start;
    let mut left = count_inside(over, waiting);
    let mut place = behind_last(over, left, waiting);
    let mut first = start + place;
    while place > 0 {
        place -= 1;
        if left > 0 && over.places[left - 1] == place {
            left -= 1;
        } else {
            first -= 1;
            items.swap(start + place, first);
        }
    }
    first
}

/// Whether these are one place, of the second half of this many items.
fn is_one_late(over: &Over, count: usize) -> bool
    ensures { result ≡ true → (vec_len over.now.places ≡ 1) × (slice_index_or over.now.places.items 0 0 < count) }
{
    over.places.len() == 1 && over.places[0] < count && count - over.places[0] <= over.places[0]
}

/// Takes the items at these places from `start` on from among the others, which stay in order and begin at the place that it
/// gives. Either those before or those behind move.
pub fn take_out<T: Drop>(items: &mut Vec<T>, start: usize, over: &Over) -> usize
    requires inside { start ≤ vec_len items.old }
    ensures left { drop result items.new.items ≡ still_waiting over.now.places.items (drop start items.old.items) }
    ensures inside { result ≤ vec_len items.new }
    ensures len { vec_len items.new ≤ vec_len items.old }
    ensures capacity { vec_capacity items.new ≡ vec_capacity items.old }
{
    if is_one_late(over, items.len() - start) {
        let _ = items.remove(start + over.places[0]);
        start
    } else {
        pass_over(items, start, over)
    }
}

/// The items from `start` on.
pub(crate) fn behind<T>(items: &[T], start: usize) -> &[T]
    requires { start ≤ length items.now }
    ensures { result.now ≡ drop start items.now }
{
    &items[start..]
}

/// Drops the items before `start`.
pub fn without_first<T: Drop>(items: Vec<T>, start: usize) -> Vec<T>
    requires { start ≤ vec_len items }
    ensures left { result.items ≡ drop start items.items }
{
    let waiting = items.len() - start;
    let mut items = items;
    items.rotate_left(start);
    items.truncate(waiting);
    items
}

/// Drops the items before `start`, once they are half of all, and says where the others begin.
pub(crate) fn trimmed<T: Drop>(items: Vec<T>, start: usize) -> (Vec<T>, usize)
    requires { start ≤ vec_len items }
    ensures left { drop result.1 result.0.items ≡ drop start items.items }
    ensures inside { result.1 ≤ vec_len result.0 }
{
    if start < items.len() - start {
        (items, start)
    } else {
        (without_first(items, start), 0)
    }
}
