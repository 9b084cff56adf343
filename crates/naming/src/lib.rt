#![tactic(auto)]
// Which routines name which, by CALL or START, and which reach themselves so. A set of routines is a number.
// Two unions, one over a range of statements and one over a list with zeros behind, each from its first on, as `gather` goes; `initial::unite_each` goes from
// the last.
// What routines name stands in an array for 32, and a count says how many there are: each definition goes through all 32, so a cut list would be one more.
ghost use Rattle.std.specs.Prelude.{◌≡◌, ℕ, ◌<◌, ◌^◌, ◌-◌, get_or};
ghost use Rattle.table.specs.Header.{routines};
ghost use Rattle.table.specs.Naming.{named_by, gather, names_of, names_in, walk, is_acyclic};
ghost use Rattle.naming.specs.GatherLaws.{Ended};

use declarations::outline::Outline;
use lists::value_at;
use table::{field_of, first_line};

// What statement `s` names.
fn named_by(numbers: &[i32], s: usize) -> u64
    requires { s < 2 ^ 32 }
    ensures { result ≡ named_by numbers.now s }
{
    let names = attributes::names_at(numbers, first_line(numbers) + s);
    match names {
        Some(q) => sets::one(q),
        None => 0,
    }
}

// What the statements from `from` on and below `end` name.
fn named_among(numbers: &[i32], from: usize, end: usize) -> u64
    requires { end < 2 ^ 32 }
    ensures { result ≡ gather (named_by numbers.now) 0 from (end - from) }
{
    let mut named = 0;
    for s in from..end {
        named = sets::union(named, named_by(numbers, s));
    }
    named
}

// What the statements of routine `r` name.
fn names_of(outline: &Outline<'_>, r: usize) -> u64
    requires { r < routines outline.now.numbers.now }
    ensures { result ≡ names_of outline.now.numbers.now r }
{
    named_among(
        outline.numbers,
        value_at(&outline.extents.first, r, 0),
        value_at(&outline.extents.first, r + 1, 0),
    )
}

// For each routine, what its statements name.
pub fn names_in(outline: &Outline<'_>) -> [u64; 32]
    ensures { result ≡ names_in outline.now.numbers.now }
{
    let count = field_of(outline.numbers, 0, 4);
    let mut names = [0u64; 32];
    for r in 0..count {
        names[r] = names_of(outline, r);
    }
    names
}

// All that `count` routines name.
pub fn all_named(names: &[u64], count: usize) -> u64
    requires { Ended names.now count }
    ensures { result ≡ gather (λ (k : ℕ). get_or names.now k 0) 0 0 32 }
{
    let mut all = 0;
    for r in 0..count {
        all = sets::union(all, value_at(names, r, 0));
    }
    all
}

// The routines reached from those in `worklist`, beside those in `seen`, `left` routines being left: by recursion, as the definition
// goes, whose cases are its proof.
fn walk_down(names: &[u64], worklist: u64, seen: u64, left: usize) -> u64
    ensures { result ≡ walk names.now worklist seen left }
{
    if left == 0 {
        return seen;
    }
    match sets::lowest(worklist) {
        None => seen,
        Some(i) => {
            let now_seen = sets::with_element(seen, i);
            let next = sets::difference(sets::union(worklist, value_at(names, i, 0)), now_seen);
            walk_down(names, next, now_seen, left - 1)
        }
    }
}

// Refusal 12's rule at routine `r`.
pub fn is_acyclic(names: &[u64], r: usize) -> bool
    ensures { result ≡ is_acyclic names.now r }
{
    !sets::has(walk_down(names, value_at(names, r, 0), 0, 32), r)
}
