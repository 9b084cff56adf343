#![tactic(auto)]
// Sets of at most 64 elements, each in one number: element i is bit i. A struct around the number would be no plainer: the lists of sets that C and the
// solver lend are lists of u64.
// Two sets of one operation are its operands, and no pair. Casts are by `as` where `From` has no way and `TryFrom` would answer with a `Result` that cannot fail.
ghost use Rattle.std.specs.Prelude.{◌≡◌};
ghost use Rattle.sets.specs.Set.{has, firsts, one, with, union, inter, minus, subset, is_empty, count, is_single, only, lowest};

// Whether i is an element of s.
#[tactic(auto, unfolding(crate::specs::Set::has))]
pub fn has(s: u64, i: usize) -> bool
    ensures { result ≡ has s i }
{
    i < 64 && (s >> i) % 2 == 1
}

// The set with no element.
pub fn empty() -> u64
    ensures { result ≡ 0 }
{
    0
}

// The set of the first n elements, all 64 if n is more.
pub fn firsts(n: usize) -> u64
    ensures { result ≡ firsts n }
{
    if n < 64 { (1u64 << n) - 1 } else { u64::MAX }
}

// The set of the one element i, empty if i is 64 or more.
pub fn one(i: usize) -> u64
    ensures { result ≡ one i }
{
    if i < 64 { 1u64 << i } else { 0 }
}

// s and the element i.
#[tactic(auto, unfolding(crate::specs::Set::with, crate::specs::Set::union))]
pub fn with_element(s: u64, i: usize) -> u64
    ensures { result ≡ with s i }
{
    s | one(i)
}

// What is in a or in b.
#[tactic(auto, unfolding(crate::specs::Set::union))]
pub fn union(a: u64, b: u64) -> u64
    ensures { result ≡ union a b }
{
    a | b
}

// What is in a and in b.
#[tactic(auto, unfolding(crate::specs::Set::inter))]
pub fn intersection(a: u64, b: u64) -> u64
    ensures { result ≡ inter a b }
{
    a & b
}

// What is in a and not in b.
pub fn difference(a: u64, b: u64) -> u64
    ensures { result ≡ minus a b }
{
    a & !b
}

// Whether all of a is in b.
#[tactic(auto, unfolding(crate::specs::Set::subset, crate::specs::Set::union))]
pub fn subset(a: u64, b: u64) -> bool
    ensures { result ≡ subset a b }
{
    (a | b) == b
}

// Whether s has no element.
#[tactic(auto, unfolding(crate::specs::Set::is_empty))]
pub fn is_empty(s: u64) -> bool
    ensures { result ≡ is_empty s }
{
    s == 0
}

// How many elements s has.
#[tactic(auto, using(crate::proofs::SetLaws::count_ones))]
pub fn count(s: u64) -> u32
    ensures { result ≡ count s }
{
    s.count_ones()
}

// Whether s has exactly one element.
#[tactic(auto, unfolding(crate::specs::Set::is_single))]
pub fn is_single(s: u64) -> bool
    ensures { result ≡ is_single s }
{
    count(s) == 1
}

// The one element of s, or none if s has none or several.
#[tactic(auto, unfolding(crate::specs::Set::only))]
pub fn only(s: u64) -> Option<usize>
    ensures { result ≡ only s }
{
    if is_single(s) {
        Some(s.trailing_zeros() as usize)
    } else {
        None
    }
}

// The lowest element of s, or none if s is empty.
#[tactic(auto, unfolding(crate::specs::Set::lowest))]
pub fn lowest(s: u64) -> Option<usize>
    ensures { result ≡ lowest s }
{
    if is_empty(s) {
        None
    } else {
        Some(s.trailing_zeros() as usize)
    }
}
