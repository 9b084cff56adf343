#![tactic(auto)]
// The edges by which C-13's two equations go, in the order of their definitions: which routines hold a START or reach one by CALLs, and which statements a
// START can precede. A set has the element 0 where it is so, and nothing elsewhere. With one copy of each routine, the place of a routine is its number in the
// first equation, and in the second that behind the statements; last stands "a START". Four places a statement are room enough for the edges.
// A statement `s` and its routine `c` go beside the program as in `edges`.
ghost use Rattle.std.specs.Prelude.{◌≡◌, true, ◌||◌, ◌<◌, ◌≤◌, ◌+◌, ◌*◌, length};
ghost use Rattle.table.specs.Header.{routines, statements};
ghost use Rattle.table.specs.Table.{table_of, statement};
ghost use Rattle.table.specs.Accepted.{Accepted};
ghost use Rattle.table.specs.View.{test_on};
ghost use Rattle.report.specs.Layout.{owner_of};
ghost use Rattle.report.specs.Preceded.{is_marked};
ghost use Rattle.edges.specs.Grown.{Grown, Filled};
ghost use Rattle.start_edges.specs.StartEdges.{reach_at, reach_for, following_edges, entering_edges, origin_of, preceding_at, preceding_for};

use declarations::program::Program;
use edges::list::EdgeList;

// Whether it is so at place `p` of a list.
pub fn is_marked(list: &[u64], p: usize) -> bool
    ensures { result ≡ is_marked list.now p }
{
    sets::has(lists::value_at(list, p, 0), 0)
}

// Appends the edges to routine `c` for its statement `s`: from "a START", which stands behind the routines, if it is one; from the routine that it CALLs.
fn append_reach(program: &Program<'_>, s: usize, c: usize, list: &mut EdgeList<'_>)
    requires { (s < statements program.now) × (c ≡ owner_of (table_of program.now) s) }
    ensures { Grown list.old list.new (reach_at (table_of program.now) s) }
{
    let line = program.line_of(s);
    let starts = attributes::starts_at(program.numbers, line).is_some();
    list.push_if(starts, program.routines(), c);
    list.push_from(attributes::calls_at(program.numbers, line), c);
}

// Appends the edges by which routines reach a START.
pub fn fill_reach(program: &Program<'_>, list: &mut EdgeList<'_>)
    ensures accepted { Accepted (table_of program.now) }
    ensures grown { Grown list.old list.new (reach_for (table_of program.now)) }
    ensures ready { list.old.used ≡ 0 → 4 * statements program.now ≤ length list.old.room.now → Filled list.new (reach_for (table_of program.now)) }
{
    edges::append_each(
        program,
        list,
        |list, s, c| append_reach(program, s, c, list),
    );
}

// Whether a statement that starts and calls what is referred to is a START, or a CALL of a routine that reaches one.
fn brings_start(started: Option<usize>, called: Option<usize>, reach: &[u64]) -> bool
    ensures { result ≡ (test_on started (λ _. true) || test_on called (is_marked reach.now)) }
{
    started.is_some() || called.is_some_and(|q| is_marked(reach, q))
}

// The place that what follows statement `s` follows: "a START", which stands behind the routines, if `s` is one or a CALL that reaches one; else `s`.
fn origin_of(program: &Program<'_>, s: usize, reach: &[u64]) -> usize
    requires { s < statements program.now }
    ensures { result ≡ origin_of (table_of program.now) reach.now s }
{
    let line = program.line_of(s);
    let started = attributes::starts_at(program.numbers, line);
    if brings_start(started, attributes::calls_at(program.numbers, line), reach) {
        return program.statements() + program.routines();
    }
    s
}

// Appends the edges from place `origin` to what may follow statement `s`.
fn append_following(program: &Program<'_>, s: usize, origin: usize, list: &mut EdgeList<'_>)
    requires { s < statements program.now }
    ensures { Grown list.old list.new (following_edges origin s (statement (table_of program.now) s)) }
{
    let line = program.line_of(s);
    list.push_to(origin, 0, attributes::target_at(program.numbers, line));
    list.push_if(attributes::onward_at(program.numbers, line), origin, s + 1);
}

// Appends the edges into the routine that statement `s` of routine `c` names: from "a START", if it is a START; from `s` and from the place of `c`, if it is
// a CALL.
fn append_entering(program: &Program<'_>, s: usize, c: usize, list: &mut EdgeList<'_>)
    requires { (s < statements program.now) × (c ≡ owner_of (table_of program.now) s) }
    ensures { Grown list.old list.new (entering_edges (statements program.now) (statements program.now + routines program.now) (owner_of (table_of program.now) s) s (statement (table_of program.now) s)) }
{
    let line = program.line_of(s);
    let end = program.statements();
    let started = attributes::starts_at(program.numbers, line);
    list.push_to(end + program.routines(), end, started);
    edges::append_callers(program.numbers, line, s, end, c, list);
}

// Appends the edges of statement `s` of routine `c` by which a START precedes others.
fn append_preceding(
    program: &Program<'_>,
    reach: &[u64],
    s: usize,
    c: usize,
    list: &mut EdgeList<'_>,
)
    requires { (s < statements program.now) × (c ≡ owner_of (table_of program.now) s) }
    ensures { Grown list.old list.new (preceding_at (table_of program.now) reach.now s) }
{
    append_following(program, s, origin_of(program, s, reach), list);
    append_entering(program, s, c, list);
}

// Appends the edges by which a START precedes statements; `reach` says which routines hold a START or reach one.
pub fn fill_preceding(program: &Program<'_>, reach: &[u64], list: &mut EdgeList<'_>)
    ensures accepted { Accepted (table_of program.now) }
    ensures grown { Grown list.old list.new (preceding_for (table_of program.now) reach.now) }
    ensures ready { list.old.used ≡ 0 → 4 * statements program.now ≤ length list.old.room.now → Filled list.new (preceding_for (table_of program.now) reach.now) }
{
    edges::append_each(
        program,
        list,
        |list, s, c| append_preceding(program, reach, s, c, list),
    );
}
