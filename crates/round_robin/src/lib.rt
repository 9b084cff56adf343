#![tactic(auto)]
// Round-robin passes over the plain edges of a list of sets, from the last edge to the first, until a pass changes nothing. The ends of an edge are one
// number: 65,536 times the place that it comes from, and the place that it leads to. Sets and edges stay two parameters, though each function asks that the
// edges are among the sets: of a struct of both each contract would have to say too that they are the same lists. The loop over passes goes by no
// index: it ends when a pass changes nothing, and how many it made is what it answers.
ghost use Rattle.std.specs.Prelude.{◌≡◌, not, map, ◌-◌, ◌<◌, ◌≤◌, length};
ghost use Rattle.sets.specs.Least.{edge_of, same, settled};
ghost use Rattle.passes.specs.Pass.{Put};
ghost use Rattle.round_robin.specs.Onward.{Onward};
ghost use Rattle.round_robin.specs.RoundRobin.{pass_down, passes_made, Among};

// Goes along an edge, and returns whether that changed anything or something had changed before, as `passes::put_edge` does, but for marks, which cost time
// and which nothing reads here.
fn put(sets: &mut [u64], edge: u32, changed: bool) -> bool
    requires { ((edge_of edge).from < length sets.old) × ((edge_of edge).to < length sets.old) }
    ensures { Put (edge_of edge) sets.old sets.new changed result }
{
    let f = passes::from_of(edge);
    let t = passes::to_of(edge);
    let old = sets[t];
    let new = old | sets[f];
    if new != old {
        sets[t] = new;
        return true;
    }
    changed
}

// Goes along the four edges before `k`, from the last to the first, and returns as put does.
fn put_four(sets: &mut [u64], edges: &[u32], k: usize, changed: bool) -> bool
    requires among { Among (length sets.old) (map edge_of edges.now) }
    requires lt_k { (3 < k) × (k ≤ length edges.now) }
    ensures { Onward edges.now k (k - 4) sets.old sets.new changed result }
{
    let a = edges[k - 1];
    let b = edges[k - 2];
    let c = edges[k - 3];
    let d = edges[k - 4];
    let one = put(sets, a, changed);
    let two = put(sets, b, one);
    let three = put(sets, c, two);
    put(sets, d, three)
}

// Goes along the first `n` edges, from the last to the first, and returns as put does.
fn put_first(sets: &mut [u64], edges: &[u32], n: usize, changed: bool) -> bool
    requires among { Among (length sets.old) (map edge_of edges.now) }
    requires n_in_bounds { n ≤ length edges.now }
    ensures { Onward edges.now n 0 sets.old sets.new changed result }
{
    let mut after = changed;
    for k in (0..n).rev() {
        after = put(sets, edges[k], after);
    }
    after
}

// Goes along every edge once, from the last to the first, each on what those before it have put. Returns whether anything changed. Four edges a turn: with
// one, 400 edges take 18.4 us in place of 16.8. A counted loop: with `for`, 1,100 edges take 19.7 us in place of 18.7.
fn pass(sets: &mut [u64], edges: &[u32]) -> bool
    requires { Among (length sets.old) (map edge_of edges.now) }
    ensures sets { sets.new ≡ pass_down (map edge_of edges.now) sets.old }
    ensures changed { result ≡ not (same sets.new sets.old) }
{
    let mut changed = false;
    let mut k = edges.len();
    while 3 < k {
        changed = put_four(sets, edges, k, changed);
        k -= 4;
    }
    put_first(sets, edges, k, changed)
}

// Makes passes until one changes nothing: the sets are then the least ones that hold those before and in which, for every edge, the set that it comes from
// is inside the set that it leads to. Returns how many passes were made, the last one among them.
pub fn solve(sets: &mut [u64], edges: &[u32]) -> usize
    requires { Among (length sets.old) (map edge_of edges.now) }
    ensures sets { sets.new ≡ settled (pass_down (map edge_of edges.now)) sets.old }
    ensures made { result ≡ passes_made (pass_down (map edge_of edges.now)) sets.old }
{
    let mut made = 1;
    'passes: while pass(sets, edges) {
        made += 1;
    }
    made
}
