#![tactic(auto)]
// The solver: makes a list of sets the least one that holds it and is closed under the edges. The ends of an edge are one number: 65,536 times the place
// that it comes from, and the place that it leads to. A second list has the place whose set each edge meets; past its end edges are plain.
mod worklist;

ghost use Rattle.std.specs.Prelude.{◌≡◌, map};
ghost use Rattle.sets.specs.Least.{edge_of, edges_of, least};
ghost use Rattle.passes.specs.Pass.{Stepped};

use crate::worklist::follow;
use passes::Edges;
pub use passes::Order;

// One pass; if it is the last before the worklist and changed anything, the worklist goes on from there, in the other order. Returns whether anything may
// be left to put. Where places have many edges, every other pass turns round, since then one of the two ways is mostly right, and the worklist waits for
// the fourth pass in place of the second, since to link these edges takes longer. `turn` says how many passes went before: what follows from it is said here once.
fn step(sets: &mut [u64], edges: Edges<'_>, order: Order, turn: usize) -> bool
    ensures { Stepped edges.entry.ends.now edges.entry.also.now sets.old sets.new result }
{
    let many = sets.len() < edges.len() / 2;
    let way = if many && turn % 2 == 1 {
        order.reversed()
    } else {
        order
    };
    let last = if many { 3 } else { 1 };
    let mut marks = [0u64; 16];
    let changed = passes::pass(sets, &mut marks, edges, way);
    if changed && turn == last {
        follow(sets, &mut marks, edges, order.reversed());
    }
    changed
}

// Makes the sets the least ones that hold them and in which, for every edge, what is in both sets that it comes from is in the
// set that it leads to. An edge from or to a place past the end does nothing. The order changes nothing but the time. Ends and places are two lists, since
// plain edges have no places, and each caller would make an `Edges` for the one call; `turn` counts passes round and is no index.
pub fn solve(sets: &mut [u64], edges: &[u32], also: &[u16], order: Order)
    ensures { sets.new ≡ least (edges_of edges.now also.now) sets.old }
{
    let all = Edges { ends: edges, also };
    let mut turn = 0;
    'passes: while step(sets, all, order, turn) {
        turn = (turn + 1) % 8;
    }
}

// Makes the sets the least ones that hold them and in which, for every edge, the set that it comes from is inside the set that it leads to.
pub fn solve_plain(sets: &mut [u64], edges: &[u32], order: Order)
    ensures { sets.new ≡ least (map edge_of edges.now) sets.old }
{
    solve(sets, edges, &[], order);
}
