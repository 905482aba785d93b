ghost use Rattle.std.specs.Prelude.{◌≡◌, ◌<◌, ℕ, List, [], ◌∷◌, length, IfOk, OnOk, IfSome, IfNone, All, replicate, map, false, true};
ghost use Rattle.std.specs.Bool.{OnTrue, OnFalse, MatchBool};
ghost use Rattle.ordering.specs.Flags.{flag_at, ArePlaced, IsFirstOpen, HasOpen};
ghost use Rattle.ordering.specs.Waiters.{first_look};
ghost use Rattle.ordering.specs.Rows.{row_at, AreRows, HasInputsWithin, IsRowOrder, HasRowCycle};

use std::alloc::{AllocError, Global};
use std::collections::BTreeSet;
use std::mem;

/// A place that waits for the input at an index of its inputs.
#[derive(Clone, Copy)]
struct Waiter {
    place: usize,
    next: usize,
}

/// What is known while places are put into order.
#[derive(Drop)]
struct Sorting {
    order: Vec<usize>,
    placed: Vec<bool>,
    ready: BTreeSet<usize>,
    waiting: Vec<Vec<Waiter>>,
}

/// The index, from `from` on, of the first input that isn't placed.
fn first_open(inputs: &[usize], placed: &[bool], from: usize) -> Option<usize>
    requires { All (λ input. input < length placed.now) inputs.now }
    ensures found { IfSome result (IsFirstOpen inputs.now placed.now from) }
    ensures none { IfNone result (ArePlaced inputs.now placed.now from (length inputs.now)) }
{
    for next in from..inputs.len() {
        if !placed[inputs[next]] {
            return Some(next);
        }
    }
    None
}

/// `count` empty lists.
fn empty_lists(alloc: Global, count: usize) -> Result<Vec<Vec<Waiter>>, AllocError>
    ensures count { IfOk result (λ lists. length lists.items ≡ count) }
    ensures empty { IfOk result (λ lists. (input : ℕ) → row_at lists.items input ≡ []) }
{
    let mut lists = Vec::with_capacity(alloc, count)?;
    for _ in 0..count {
        lists.push(Vec::new(alloc))?;
    }
    Ok(lists)
}

/// A waiter for each vertex, which looks at its first input.
fn first_waiters(alloc: Global, vertices: &[usize]) -> Result<Vec<Waiter>, AllocError>
    ensures { IfOk result (λ waiters. waiters.items ≡ map first_look vertices.now) }
{
    vertices
        .iter()
        .map(|place| Waiter {
            place: *place,
            next: 0,
        })
        .collect(alloc)
}

/// Whether each vertex is placed.
fn are_all_placed(vertices: &[usize], placed: &[bool]) -> bool
    requires { All (λ place. place < length placed.now) vertices.now }
    ensures { MatchBool result (All (λ place. flag_at placed.now place ≡ true) vertices.now) (HasOpen vertices.now placed.now) }
{
    for place in vertices {
        if !placed[*place] {
            return false;
        }
    }
    true
}

impl Sorting {
    ghost use Rattle.ordering.specs.declared.ordering.Waiter.{Waiter};
    ghost use Rattle.ordering.specs.Sorting.{HasShape, IsSorting, open_count};

    fn new(alloc: Global, count: usize) -> Result<Self, AllocError>
        ensures order { IfOk result (λ s. s.order.items ≡ []) }
        ensures placed { IfOk result (λ s. s.placed.items ≡ replicate count false) }
        ensures ready { IfOk result (λ s. s.ready.keys ≡ []) }
        ensures count { IfOk result (λ s. length s.waiting.items ≡ count) }
        ensures waiting { IfOk result (λ s. (input : ℕ) → row_at s.waiting.items input ≡ []) }
    {
        Ok(Sorting {
            order: Vec::with_capacity(alloc, count)?,
            placed: vec![in alloc; false; count]?,
            ready: BTreeSet::new(alloc),
            waiting: empty_lists(alloc, count)?,
        })
    }

    /// Notes that the waiter is ready, or which input it waits for.
    fn look(&mut self, rows: &[Vec<usize>], waiter: Waiter) -> Result<(), AllocError>
        requires inputs { HasInputsWithin rows.now }
        requires shape { HasShape rows.now self.old }
        requires waiter { waiter.place < length rows.now }
        ensures shape { OnOk result (HasShape rows.now self.new) }
        ensures placed { OnOk result (self.new.placed ≡ self.old.placed) }
        ensures sorting { OnOk result ((vertices : List ℕ) (todo : List Waiter)
            → IsSorting vertices rows.now self.old (waiter ∷ todo) → IsSorting vertices rows.now self.new todo) }
    {
        let inputs = rows[waiter.place].as_slice();
        match first_open(inputs, self.placed.as_slice(), waiter.next) {
            None => {
                self.ready.insert(waiter.place)?;
            }
            Some(next) => {
                let place = waiter.place;
                let users = &mut self.waiting[inputs[next]];
                users.push(Waiter { place, next })?;
            }
        }
        Ok(())
    }

    /// Looks at each waiter in turn.
    fn look_all(&mut self, rows: &[Vec<usize>], waiters: &[Waiter]) -> Result<(), AllocError>
        requires inputs { HasInputsWithin rows.now }
        requires shape { HasShape rows.now self.old }
        requires waiters { All (λ w. w.place < length rows.now) waiters.now }
        ensures shape { OnOk result (HasShape rows.now self.new) }
        ensures placed { OnOk result (self.new.placed ≡ self.old.placed) }
        ensures sorting { OnOk result ((vertices : List ℕ)
            → IsSorting vertices rows.now self.old waiters.now → IsSorting vertices rows.now self.new []) }
    {
        for waiter in waiters {
            self.look(rows, *waiter)?;
        }
        Ok(())
    }

    /// Puts the lowest ready place at the end of the order, and looks at those that waited for it.
    /// Answers whether there was one.
    fn step(&mut self, alloc: Global, rows: &[Vec<usize>]) -> Result<bool, AllocError>
        requires inputs { HasInputsWithin rows.now }
        requires shape { HasShape rows.now self.old }
        ensures shape { OnOk result (HasShape rows.now self.new) }
        ensures sorting { OnOk result ((vertices : List ℕ)
            → IsSorting vertices rows.now self.old [] → IsSorting vertices rows.now self.new []) }
        ensures fewer { IfOk result (λ more. OnTrue more ((vertices : List ℕ)
            → IsSorting vertices rows.now self.old []
            → open_count self.new.placed.items < open_count self.old.placed.items)) }
        ensures last { IfOk result (λ more. OnFalse more (self.new.ready.keys ≡ [])) }
    {
        let Some(place) = self.ready.pop_first() else {
            return Ok(false);
        };
        self.order.push(place)?;
        self.placed[place] = true;
        let woken = mem::replace(&mut self.waiting[place], Vec::new(alloc));
        self.look_all(rows, woken.as_slice())?;
        Ok(true)
    }
}

/// The vertices of a table in the order in which they can be solved, or None where a walk leads
/// from one of them to itself.
pub fn order_of(
    alloc: Global,
    vertices: &[usize],
    rows: &[Vec<usize>],
) -> Result<Option<Vec<usize>>, AllocError>
    requires { AreRows vertices.now rows.now }
    ensures order { IfOk result (λ answer. IfSome answer (λ order. IsRowOrder vertices.now rows.now order.items)) }
    ensures acyclic { IfOk result (λ answer. IfSome answer (λ _. ¬ HasRowCycle rows.now)) }
    ensures cyclic { IfOk result (λ answer. IfNone answer (HasRowCycle rows.now)) }
{
    let mut sorting = Sorting::new(alloc, rows.len())?;
    let waiters = first_waiters(alloc, vertices)?;
    sorting.look_all(rows, waiters.as_slice())?;
    while sorting.step(alloc, rows)? {}
    if are_all_placed(vertices, sorting.placed.as_slice()) {
        Ok(Some(sorting.order))
    } else {
        Ok(None)
    }
}
