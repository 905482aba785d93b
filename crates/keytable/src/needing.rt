ghost use Rattle.std.specs.Prelude.{◌≡◌, ◌<◌, ◌≤◌, ◌⊎◌, ℕ, length, Some, IfSome, IsSomeAnd};
ghost use Rattle.std.specs.List.{Contains};
ghost use Rattle.keytable.specs.Needs.{LinksOutput, NeedsOutput};
ghost use Rattle.keytable.specs.Tables.{IsTable};
ghost use Rattle.keytable.specs.Users.{AreLinked, AreUsers, IsClosed};

use super::table::Table;
use super::users::Users;
use farm_base::Key;

/// An index, or the last one so far where that is greater.
fn later(last: Option<u64>, index: u64) -> u64
    ensures is_one { (result ≡ index) ⊎ (last ≡ Some result) }
    ensures own { index ≤ result }
    ensures last { IfSome last (λ before. before ≤ result) }
{
    match last {
        Some(last) if index < last => last,
        _ => index,
    }
}

/// The greatest output index that is named with a key.
fn last_named(named: &[(Key, u64)], key: &Key) -> Option<u64>
    ensures named { IfSome result (λ last. Contains named.now (key.now, last)) }
    ensures greatest { (index : ℕ) → Contains named.now (key.now, index) → IsSomeAnd result (λ last. index ≤ last) }
{
    let mut last = None;
    for (other, index) in named {
        if *other == *key {
            last = Some(later(last, *index));
        }
    }
    last
}

/// The greatest output index that a link names of the key of a number.
fn last_linked(users: &Users, number: usize) -> Option<u64>
    requires linked { AreLinked users.now }
    requires all { length users.now.befores.items ≡ length users.now.links.items }
    requires within { number < length users.now.lasts.items }
    ensures linked { IfSome result (LinksOutput users.now.links.items number) }
    ensures greatest { (index : ℕ) → LinksOutput users.now.links.items number index → IsSomeAnd result (λ last. index ≤ last) }
{
    let mut last = None;
    let mut next = users.lasts[number];
    while let Some(place) = next {
        let link = users.links[place];
        last = Some(later(last, link.index));
        next = users.befores[place];
    }
    last
}

/// The greatest output index that is needed of a key, where the jobs have these results.
pub fn last_needed(table: &Table, users: &Users, results: &[(Key, u64)], key: &Key) -> Option<u64>
    requires table { IsTable table.now }
    requires closed { IsClosed table.now.entries.items }
    requires users { AreUsers table.now.entries.items users.now }
    requires count { length users.now.lasts.items ≡ length table.now.entries.items }
    ensures needed { IfSome result (NeedsOutput results.now table.now.entries.items key.now) }
    ensures greatest { (index : ℕ) → NeedsOutput results.now table.now.entries.items key.now index → IsSomeAnd result (λ last. index ≤ last) }
{
    let by_job = last_named(results, key);
    let Some(number) = table.number(key) else {
        return by_job;
    };
    match last_linked(users, number) {
        Some(index) => Some(later(by_job, index)),
        None => by_job,
    }
}
