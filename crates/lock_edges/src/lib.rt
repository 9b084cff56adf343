#![tactic(auto)]
// The edges along which what is left out of the held sets goes, those of one statement.
ghost use Rattle.std.specs.Prelude.{◌≡◌, map, ◌<◌};
ghost use Rattle.lock_edges.specs.ViewEdges.{edge_from, nexts_of, met_of, call_edges_of, give_edges_of, start_edges_of, end_edges_of, view_edges, Fit, Low};
ghost use Rattle.lock_edges.specs.Grown.{Grown};

pub mod list;

use list::MetEdges;
use table::View;

// The first places behind the statements: what RETURNs leave out, what routines may give up, flow sets, all locks but the one that a TAKE adds, all
// locks.
#[derive(Clone, Copy)]
pub struct Bases {
    pub back: usize,
    pub given: usize,
    pub flow: usize,
    pub other: usize,
    pub every: usize,
}

// Where an edge comes from, and the place whose set it meets.
#[derive(Clone, Copy)]
pub struct Origin {
    pub from: usize,
    pub also: usize,
}

// Statement `s` of routine `c`, by its view, with the first statement of each routine. It is read; the list that is filled goes beside it.
#[derive(Clone, Copy)]
pub struct Here<'a> {
    pub bases: Bases,
    pub first: &'a [usize],
    pub view: View,
    pub s: usize,
    pub c: usize,
    pub ghost small: { (s < 512) × (c < 32) },
    pub ghost low: { Low bases },
    pub ghost fit: { Fit view },
}

// Appends the edges from `origin` to what may come after the statement.
fn append_nexts(here: &Here<'_>, origin: Origin, list: &mut MetEdges<'_>)
    ensures { Grown list.old list.new (map (edge_from origin) (nexts_of here.now.s here.now.view)) }
{
    list.push_to(origin, here.view.target);
    list.push_if(here.view.onward, origin, here.s + 1);
}

// Appends what a CALL makes: to the first statement of the routine, and what it may give up and its RETURNs leave out to what comes next.
fn append_call(here: &Here<'_>, list: &mut MetEdges<'_>)
    ensures { Grown list.old list.new (call_edges_of here.now.bases here.now.first.now here.now.s here.now.view) }
{
    if here.view.starting {
        return;
    }
    if let Some(q) = here.view.names {
        let kept = Origin {
            from: here.s,
            also: here.s,
        };
        list.push(kept, lists::value_at(here.first, q, 0));
        let lost = Origin {
            from: here.bases.back + q,
            also: here.bases.given + q,
        };
        append_nexts(here, lost, list);
    }
}

// The place that what is kept over the statement meets.
fn met_place(here: &Here<'_>) -> usize
    ensures { result ≡ met_of here.now.bases here.now.s here.now.view }
{
    if let Some(h) = here.view.takes {
        return here.bases.other + h;
    }
    if here.view.starting {
        return here.s;
    }
    match here.view.names {
        Some(q) => here.bases.back + q,
        None => here.s,
    }
}

// Appends what a GIVE adds to what is left out.
fn append_give(here: &Here<'_>, list: &mut MetEdges<'_>)
    ensures { Grown list.old list.new (give_edges_of here.now.bases here.now.s here.now.view) }
{
    if let Some(h) = here.view.gives {
        let place = here.bases.flow + h;
        let lost = Origin {
            from: place,
            also: place,
        };
        append_nexts(here, lost, list);
    }
}

// Appends what a START makes: all locks are left out at the first statement of the routine.
fn append_start(here: &Here<'_>, list: &mut MetEdges<'_>)
    ensures { Grown list.old list.new (start_edges_of here.now.bases here.now.first.now here.now.view) }
{
    if !here.view.starting {
        return;
    }
    if let Some(q) = here.view.names {
        let all = Origin {
            from: here.bases.every,
            also: here.bases.every,
        };
        list.push(all, lists::value_at(here.first, q, 0));
    }
}

// Appends what a RETURN makes.
fn append_end(here: &Here<'_>, list: &mut MetEdges<'_>)
    ensures { Grown list.old list.new (end_edges_of here.now.bases here.now.s here.now.c here.now.view) }
{
    let kept = Origin {
        from: here.s,
        also: here.s,
    };
    list.push_if(here.view.ends, kept, here.bases.back + here.c);
}

// Appends the edges of a statement.
pub fn append_statement(here: &Here<'_>, list: &mut MetEdges<'_>)
    ensures { Grown list.old list.new (view_edges here.now.bases here.now.first.now here.now.s here.now.c here.now.view) }
{
    append_call(here, list);
    let kept = Origin {
        from: here.s,
        also: met_place(here),
    };
    append_nexts(here, kept, list);
    append_give(here, list);
    append_start(here, list);
    append_end(here, list);
}
