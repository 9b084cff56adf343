// A list of edges with the place whose set each meets, filled from the front in room that a caller lends.
// Casts are by `as` where `From` has no way and `TryFrom` would answer with a `Result` that cannot fail.
ghost use Rattle.std.specs.Prelude.{◌≡◌, [], ◌∷◌, take};

use super::Origin;

// An edge is a number in `edges` and a place in `also`, as the solver takes them. So two lists are filled, and `edges::list::EdgeList`, which fills one,
// cannot serve; a list type over both would be no plainer, since what each method promises is of its own lists.
#[derive(Drop)]
pub struct MetEdges<'a> {
    pub edges: &'a mut [u32],
    pub also: &'a mut [u16],
    pub used: usize,
}

impl<'a> MetEdges<'a> {
    ghost use Rattle.table.specs.View.{list_on, when};
    ghost use Rattle.lock_edges.specs.ViewEdges.{edge_from};
    ghost use Rattle.lock_edges.specs.Grown.{Grown};

    // The numbers of the edges so far.
    pub fn edges(&self) -> &[u32]
        ensures { result.now ≡ take self.now.used self.now.edges.now }
    {
        lists::front(self.edges, self.used)
    }

    // The places that the edges so far meet.
    pub fn also(&self) -> &[u16]
        ensures { result.now ≡ take self.now.used self.now.also.now }
    {
        lists::front(self.also, self.used)
    }

    // Appends the edge from `origin` to `t`. Where there is no room, or a number is too large, nothing changes.
    pub fn push(&mut self, origin: Origin, t: usize)
        ensures { Grown self.old self.new (edge_from origin t ∷ []) }
    {
        let n = self.used;
        if n < self.edges.len()
            && n < self.also.len()
            && origin.from < 65536
            && origin.also < 65536
            && t < 65536
        {
            self.edges[n] = (origin.from * 65536 + t) as u32;
            self.also[n] = origin.also as u16;
            self.used = n + 1;
        }
    }

    // Appends the edge from `origin` to what is referred to, if to anything.
    pub fn push_to(&mut self, origin: Origin, to: Option<usize>)
        ensures { Grown self.old self.new (list_on to (λ j. edge_from origin j ∷ [])) }
    {
        if let Some(j) = to {
            self.push(origin, j);
        }
    }

    // Appends the edge from `origin` to `t`, if the test holds.
    pub fn push_if(&mut self, test: bool, origin: Origin, t: usize)
        ensures { Grown self.old self.new (when test (edge_from origin t ∷ [])) }
    {
        if test {
            self.push(origin, t);
        }
    }
}
