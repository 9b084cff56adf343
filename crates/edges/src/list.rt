// A list of edges, filled from the front in room that a caller lends. It is made by its fields: a function for that would say what they say.
// Casts are by `as` where `From` has no way and `TryFrom` would answer with a `Result` that cannot fail.
ghost use Rattle.std.specs.Prelude.{◌≡◌, [], ◌∷◌, ◌≤◌, ◌+◌, length, take};

#[derive(Drop)]
pub struct EdgeList<'a> {
    pub room: &'a mut [u32],
    pub used: usize,
}

impl<'a> EdgeList<'a> {
    ghost use Rattle.table.specs.View.{list_on, when};
    ghost use Rattle.edges.specs.Equations.{edge};
    ghost use Rattle.edges.specs.Grown.{Grown};

    // The edges so far.
    pub fn edges(&self) -> &[u32]
        ensures { result.now ≡ take self.now.used self.now.room.now }
    {
        lists::front(self.room, self.used)
    }

    // Appends the edge from `f` to `t`. Where there is no room, or a number is too large, nothing changes.
    pub fn push(&mut self, f: usize, t: usize)
        ensures { Grown self.old self.new (edge f t ∷ []) }
    {
        if self.used < self.room.len() && f < 65536 && t < 65536 {
            self.room[self.used] = (f * 65536 + t) as u32;
            self.used += 1;
        }
    }

    // Appends the edge to `t` from what is referred to, if to anything.
    pub fn push_from(&mut self, r: Option<usize>, t: usize)
        ensures { Grown self.old self.new (list_on r (λ q. edge q t ∷ [])) }
    {
        if let Some(q) = r {
            self.push(q, t);
        }
    }

    // Appends the edge from `f` to what is referred to, if to anything, counted from `base`.
    pub fn push_to(&mut self, f: usize, base: usize, r: Option<usize>)
        ensures { Grown self.old self.new (list_on r (λ q. edge f (base + q) ∷ [])) }
    {
        if let Some(q) = r {
            self.push(f, base.saturating_add(q));
        }
    }

    // Appends the edge from `f` to `t`, if the test holds.
    pub fn push_if(&mut self, test: bool, f: usize, t: usize)
        ensures { Grown self.old self.new (when test (edge f t ∷ [])) }
    {
        if test {
            self.push(f, t);
        }
    }
}
