// The worklist: the places whose sets changed, one bit each in 16 words. That is fixed memory, since the project uses no heap, and counting zeros finds the
// next place. Nothing is promised of its contents: it only ever puts along edges that are there, and a pass finds out whether anything is left to put.
// The order is a value that the solver turns round, so it is matched where it says which place is next; a closure would be chosen by the same match.
// Casts are by `as` where `From` has no way and `TryFrom` would answer with a `Result` that cannot fail. `links` is filled by its index, from both its ends.
// Sets, worklist and edges stay parameters: of a struct of lent lists each contract would have to say too that they are the same lists.
ghost use Rattle.std.specs.Prelude.{true, IfSome, ◌<◌, ◌≤◌, length};
ghost use Rattle.passes.specs.Pass.{Solving};

use crate::Order;
use passes::Edges;

// Links the edges by the place that they come from: links[2175 - p] is one more than the first edge from place p, and links[k] one more than the
// next after edge k from the same place; 0 where there is none. Indices in fixed memory stand for pointers, since the project uses no heap, and 0 for none: with
// `Option<u16>` 20 places and 25 edges take 0.71 us in place of 0.66.
fn link_edges(edges: Edges<'_>, links: &mut [u16; 2176])
    requires { length edges.ends.now ≤ 2176 }
{
    for k in (0..edges.len()).rev() {
        let p = passes::from_of(edges.ends[k]) % 1024;
        links[k] = links[2175 - p];
        links[2175 - p] = (k + 1) as u16;
    }
}

// Goes along edge k, and puts the place that it leads to on the worklist, if that changed.
fn follow_edge(sets: &mut [u64], worklist: &mut [u64; 16], edges: Edges<'_>, k: usize)
    ensures { Solving edges.entry.ends.now edges.entry.also.now sets.old sets.new true }
{
    if k < edges.len() {
        let _changed = passes::put_edge(sets, worklist, edges, k, false);
    }
}

// Goes along edge k, and where edges meet a second place along the next one too, which may meet the place that this one comes from.
fn follow_pair(sets: &mut [u64], worklist: &mut [u64; 16], edges: Edges<'_>, k: usize)
    ensures { Solving edges.entry.ends.now edges.entry.also.now sets.old sets.new true }
{
    follow_edge(sets, worklist, edges, k);
    if k < edges.also.len() {
        follow_edge(sets, worklist, edges, k + 1);
    }
}

// The edge linked behind edge k, which comes later.
fn linked_behind(links: &[u16; 2176], k: usize) -> Option<usize>
    ensures { IfSome result (λ later. k < later) }
{
    let link = usize::from(*links.get(k)?);
    if k + 1 < link { Some(link - 1) } else { None }
}

// Goes along the linked edges from that of `link` on.
fn follow_edges(
    sets: &mut [u64],
    worklist: &mut [u64; 16],
    edges: Edges<'_>,
    links: &[u16; 2176],
    link: u16,
)
    ensures { Solving edges.entry.ends.now edges.entry.also.now sets.old sets.new true }
{
    let mut next = usize::from(link).checked_sub(1);
    while let Some(k) = next {
        follow_pair(sets, worklist, edges, k);
        next = linked_behind(links, k);
    }
}

// The element of s that the order meets first, if there is one.
fn next_element(s: u64, order: Order) -> Option<usize>
    ensures { IfSome result (λ b. b < 64) }
{
    if sets::is_empty(s) {
        return None;
    }
    match order {
        Order::FirstToLast => Some((s.trailing_zeros() % 64) as usize),
        Order::LastToFirst => Some(63 - (s.leading_zeros() % 64) as usize),
    }
}

// Takes the place that the order meets first of the 64 of word i off the worklist, if one is there.
fn take_place(worklist: &mut [u64; 16], i: usize, order: Order) -> Option<usize>
    requires { i < 16 }
    ensures { IfSome result (λ p. p < 1024) }
{
    let b = next_element(worklist[i], order)?;
    worklist[i] = sets::difference(worklist[i], sets::one(b));
    Some(i * 64 + b)
}

// The number after i of those below n, in the order, round and round.
fn next_word(i: usize, n: usize, order: Order) -> usize
    requires { (i < 16) × (n ≤ 16) }
    ensures { result < 16 }
{
    match order {
        Order::FirstToLast => if i + 1 < n { i + 1 } else { 0 },
        Order::LastToFirst => if 0 < i { i - 1 } else { n.saturating_sub(1) },
    }
}

// Takes places off the worklist, 64 a word in the first `words` words (the list goes on whole to `passes`), and goes along their edges, until none is left or it was long.
// The word `i` goes round and not along, and `idle` counts the words that had none, one behind the other.
fn follow_places(
    sets: &mut [u64],
    worklist: &mut [u64; 16],
    edges: Edges<'_>,
    links: &[u16; 2176],
    words: usize,
    order: Order,
)
    requires { words ≤ 16 }
    ensures { Solving edges.entry.ends.now edges.entry.also.now sets.old sets.new true }
{
    let mut i = 0;
    let mut idle = 0;
    for _ in 0..65536 {
        match take_place(worklist, i, order) {
            Some(p) => {
                idle = 0;
                follow_edges(sets, worklist, edges, links, links[2175 - p]);
            }
            None if words <= idle => return,
            None => {
                idle += 1;
                i = next_word(i, words, order);
            }
        }
    }
}

// Puts along edges, from the places on the worklist on, for at most 1,024 sets, and with the edges 2,176. What is left to put then is mostly nothing.
pub fn follow(sets: &mut [u64], worklist: &mut [u64; 16], edges: Edges<'_>, order: Order)
    ensures { Solving edges.entry.ends.now edges.entry.also.now sets.old sets.new true }
{
    let places = sets.len();
    if places <= 1024 && edges.len() <= 2176 - places {
        let mut links = [0u16; 2176];
        link_edges(edges, &mut links);
        follow_places(sets, worklist, edges, &links, places.div_ceil(64), order);
    }
}
