#![tactic(auto)]
// Passes over the edges of a list of sets: an edge puts what is in both sets that it comes from into the set that it leads to. Its ends are one
// number: 65,536 times the place that it comes from, and the place that it leads to. A second list has the place whose set is met; past its end an edge
// is plain, and puts the whole set that it comes from. One number an edge, since C lends lists of them, and two a place would take 8 KiB more of stack.
// Casts are by `as` where `From` has no way and `TryFrom` would answer with a `Result` that cannot fail.
// Times below are of `bench/solver/run`; the bar is that no list of its tables takes longer than in the old form.
ghost use Rattle.std.specs.Prelude.{◌≡◌, ◌<◌, false, length, get_or};
ghost use Rattle.sets.specs.Least.{edge_of};
ghost use Rattle.sets.specs.LeastLaws.{edge_at};
ghost use Rattle.passes.specs.Pass.{Put, Passed};
ghost use Rattle.passes.specs.Way.{reversed};

// Which way a pass goes over the edges.
#[derive(Clone, Copy)]
pub enum Order {
    FirstToLast,
    LastToFirst,
}

impl Order {
    // The other order.
    pub fn reversed(self) -> Order
        ensures { result ≡ reversed self }
    {
        match self {
            Order::FirstToLast => Order::LastToFirst,
            Order::LastToFirst => Order::FirstToLast,
        }
    }
}

// Where an edge comes from.
#[tactic(auto, unfolding(sets::specs::Least::edge_of))]
pub fn from_of(edge: u32) -> usize
    ensures { result ≡ (edge_of edge).from }
{
    (edge / 65536) as usize
}

// Where an edge leads to.
#[tactic(auto, unfolding(sets::specs::Least::edge_of))]
pub fn to_of(edge: u32) -> usize
    ensures { result ≡ (edge_of edge).to }
{
    (edge % 65536) as usize
}

// The place whose set edge `k` meets, which comes from `f`.
pub fn also_of(also: &[u16], k: usize, f: usize) -> usize
    ensures { result ≡ get_or also.now k f }
{
    also.get(k).map_or(f, |p| usize::from(*p))
}

// The edges of a list of sets.
#[derive(Clone, Copy)]
pub struct Edges<'a> {
    // The ends of each.
    pub ends: &'a [u32],
    // The place whose set each meets, as far as edges meet one.
    pub also: &'a [u16],
}

impl Edges<'_> {
    // How many there are.
    pub fn len(self) -> usize
        ensures { result ≡ length self.entry.ends.now }
    {
        self.ends.len()
    }
}

// Marks place p, one bit in 16 words of fixed memory. Nothing is promised of marks: they only say where to look first.
// Sets and marks stay two parameters: of a struct of lent lists each contract would have to say too that they are the same lists.
fn mark(marks: &mut [u64; 16], p: usize) {
    let i = p % 1024 / 64;
    marks[i] = sets::with_element(marks[i], p % 64);
}

// Puts what is in the sets at f and at a into the set at t, marks t if that changed anything, and returns whether it did or something had changed
// before: with `|=` behind the call, 16,000 edges take 237 us in place of 212.
pub fn put_along(
    sets: &mut [u64],
    marks: &mut [u64; 16],
    f: usize,
    a: usize,
    t: usize,
    changed: bool,
) -> bool
    ensures { Put (record { from = f; also = a; to = t }) sets.old sets.new changed result }
{
    if t < sets.len() {
        let old = sets[t];
        if f < sets.len() && a < sets.len() {
            let new = old | sets[f] & sets[a];
            if new != old {
                sets[t] = new;
                mark(marks, t);
                return true;
            }
        }
    }
    changed
}

// Goes along edge `k`, and returns as put_along does.
pub fn put_edge(
    sets: &mut [u64],
    marks: &mut [u64; 16],
    edges: Edges<'_>,
    k: usize,
    changed: bool,
) -> bool
    requires { k < length edges.ends.now }
    ensures { Put (edge_at edges.entry.ends.now edges.entry.also.now k) sets.old sets.new changed result }
{
    let f = from_of(edges.ends[k]);
    let t = to_of(edges.ends[k]);
    put_along(sets, marks, f, also_of(edges.also, k, f), t, changed)
}

// Goes along every edge once, from the first to the last, and returns as `pass` does. A loop for each order, two edges a turn: with one for both, an edge
// a turn, 16,000 edges take 234 us in place of 210.
fn pass_up(sets: &mut [u64], marks: &mut [u64; 16], edges: Edges<'_>) -> bool
    ensures { Passed edges.entry.ends.now edges.entry.also.now sets.old sets.new result 0 (length edges.entry.ends.now) }
{
    let n = edges.len();
    let mut changed = false;
    for i in 0..n / 2 {
        changed = put_edge(sets, marks, edges, 2 * i, changed);
        changed = put_edge(sets, marks, edges, 2 * i + 1, changed);
    }
    if n % 2 == 1 {
        return put_edge(sets, marks, edges, n - 1, changed);
    }
    changed
}

// Goes along every edge once, from the last to the first, and returns as `pass` does. Two edges a turn.
fn pass_down(sets: &mut [u64], marks: &mut [u64; 16], edges: Edges<'_>) -> bool
    ensures { Passed edges.entry.ends.now edges.entry.also.now sets.old sets.new result 0 (length edges.entry.ends.now) }
{
    let n = edges.len();
    let mut changed = false;
    if n % 2 == 1 {
        changed = put_edge(sets, marks, edges, n - 1, changed);
    }
    for i in (0..n / 2).rev() {
        changed = put_edge(sets, marks, edges, 2 * i + 1, changed);
        changed = put_edge(sets, marks, edges, 2 * i, changed);
    }
    changed
}

// Goes along every edge once, in the order, marks the places that changed, and returns whether any did. The order is a value that the solver turns round
// from pass to pass, so it is matched.
pub fn pass(sets: &mut [u64], marks: &mut [u64; 16], edges: Edges<'_>, order: Order) -> bool
    ensures { Passed edges.entry.ends.now edges.entry.also.now sets.old sets.new result 0 (length edges.entry.ends.now) }
{
    match order {
        Order::FirstToLast => pass_up(sets, marks, edges),
        Order::LastToFirst => pass_down(sets, marks, edges),
    }
}
