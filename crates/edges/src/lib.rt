#![tactic(auto)]
// The edges of a dataflow equation, in the order of its definition. An edge is one number: 65,536 times the place that it comes from, and the place
// that it leads to. Each function appends to a list that the caller lends; four places a statement are room enough.
// A statement `s` and its routine `c` go beside the program as indices beside a list. (`lock_edges::Here` is a struct, since it holds a view that six
// functions read; here each reads the few attributes that it needs.) `append_naming` and `append_calls` differ in the attribute that they read, and each has an equation
// of its own.
ghost use Rattle.std.specs.Prelude.{◌≡◌, [], ◌∷◌, ◌<◌, ◌≤◌, ◌+◌, ◌^◌};
ghost use Rattle.table.specs.Header.{statements, statement_line};
ghost use Rattle.table.specs.Table.{table_of, statement};
ghost use Rattle.table.specs.Extents.{first_statements, first_handles, parameter_counts};
ghost use Rattle.table.specs.Accepted.{Accepted};
ghost use Rattle.report.specs.Layout.{owner_of};
ghost use Rattle.table.specs.View.{list_on, when};
ghost use Rattle.edges.specs.Equations.{Flow, Effects, Gives, Nexts, Callers, edges_at, edges_for};
ghost use Rattle.edges.specs.EdgeLaws.{Appended};
ghost use Rattle.edges.specs.LineLaws.{passing_from};
ghost use Rattle.edges.specs.RoutineLaws.{Near};

pub mod list;

ghost use Rattle.std.specs.Prelude.{List, ℕ};
ghost use Rattle.std.specs.Borrow.{MutBor};
ghost use Rattle.sets.specs.Least.{Edge};
ghost use Rattle.report.specs.Over.{joined_from};
ghost use Rattle.edges.specs.declared.list.EdgeList.{EdgeList};
ghost use Rattle.edges.specs.Grown.{Appends, Grown};

use declarations::program::Program;
use list::EdgeList;
use table::Arguments;

// The routine of statement `s`, where `r` is that of the statement before.
pub fn owner_of(program: &Program<'_>, r: usize, s: usize) -> usize
    requires { (s < statements program.now) × Near program.now r s }
    ensures is { result ≡ owner_of (table_of program.now) s }
    ensures near { Near program.now result (s + 1) }
{
    if lists::value_at(&program.extents.first, r + 1, 0) <= s {
        return r + 1;
    }
    r
}

// Appends the edges of each statement `s` in turn, of routine `c`, as `append` does.
pub fn append_each<F: Fn(&mut EdgeList<'_>, usize, usize)>(
    program: &Program<'_>,
    list: &mut EdgeList<'_>,
    append: F,
)
    requires { (x : MutBor EdgeList) (s c : ℕ) → s < statements program.now → c ≡ owner_of (table_of program.now) s → F.pre append x s c }
    ensures accepted { Accepted (table_of program.now) }
    ensures grown { (part : ℕ → List Edge) → Appends (F.post append) program.now part → Grown list.old list.new (joined_from 0 (statements program.now) part) }
{
    let mut c = 0;
    for s in 0..program.statements() {
        c = owner_of(program, c, s);
        append(list, s, c);
    }
}

// Appends the edges from arguments to `count` parameters from `begin` on.
fn append_passing(arguments: Arguments, begin: usize, count: usize, list: &mut EdgeList<'_>)
    requires { (begin < 2 ^ 32) × (count ≤ 4) }
    ensures { Grown list.old list.new (passing_from arguments begin count) }
{
    for j in 0..count {
        list.push(arguments.at(j), begin + j);
    }
}

// Appends what statement `s` puts into what.
fn append_flow(program: &Program<'_>, s: usize, list: &mut EdgeList<'_>)
    requires { s < statements program.now }
    ensures { Grown list.old list.new (edges_at Flow (table_of program.now) s) }
{
    let numbers = program.numbers;
    let line = program.line_of(s);
    let points = attributes::points_at(numbers, line);
    list.push_to(attributes::source_at(numbers, line), 0, points);
    if let Some(q) = attributes::names_at(numbers, line) {
        let arguments = attributes::arguments_at(numbers, line);
        let begin = lists::value_at(&program.extents.handle, q, 0);
        append_passing(
            arguments,
            begin,
            lists::value_at(&program.extents.counts, q, 0),
            list,
        );
    }
}

// Appends the edges of flow.
pub fn fill_flow(program: &Program<'_>, list: &mut EdgeList<'_>)
    ensures accepted { Accepted (table_of program.now) }
    ensures grown { Grown list.old list.new (edges_for Flow (table_of program.now)) }
{
    append_each(program, list, |list, s, _c| append_flow(program, s, list));
}

// Appends the edge up a CALL or START, from the routine that statement `s` names to the routine `c` that it stands in.
fn append_naming(program: &Program<'_>, s: usize, c: usize, list: &mut EdgeList<'_>)
    requires { (s < statements program.now) × (c ≡ owner_of (table_of program.now) s) }
    ensures { Grown list.old list.new (edges_at Effects (table_of program.now) s) }
{
    list.push_from(attributes::names_at(program.numbers, program.line_of(s)), c);
}

// Appends the edges up CALLs and STARTs.
pub fn fill_naming(program: &Program<'_>, list: &mut EdgeList<'_>)
    ensures accepted { Accepted (table_of program.now) }
    ensures grown { Grown list.old list.new (edges_for Effects (table_of program.now)) }
{
    append_each(
        program,
        list,
        |list, s, c| append_naming(program, s, c, list),
    );
}

// Appends the edge up a CALL, from the routine that statement `s` calls to the routine `c` that it stands in.
fn append_calls(program: &Program<'_>, s: usize, c: usize, list: &mut EdgeList<'_>)
    requires { (s < statements program.now) × (c ≡ owner_of (table_of program.now) s) }
    ensures { Grown list.old list.new (edges_at Gives (table_of program.now) s) }
{
    list.push_from(attributes::calls_at(program.numbers, program.line_of(s)), c);
}

// Appends the edges up CALLs.
pub fn fill_calls(program: &Program<'_>, list: &mut EdgeList<'_>)
    ensures accepted { Accepted (table_of program.now) }
    ensures grown { Grown list.old list.new (edges_for Gives (table_of program.now)) }
{
    append_each(
        program,
        list,
        |list, s, c| append_calls(program, s, c, list),
    );
}

// Appends the edges to statement `s` from what may come next.
fn append_nexts(program: &Program<'_>, s: usize, list: &mut EdgeList<'_>)
    requires { s < statements program.now }
    ensures { Grown list.old list.new (edges_at Nexts (table_of program.now) s) }
{
    let line = program.line_of(s);
    list.push_from(attributes::target_at(program.numbers, line), s);
    list.push_if(attributes::onward_at(program.numbers, line), s + 1, s);
}

// Appends the edges to each statement from what may come next.
pub fn fill_nexts(program: &Program<'_>, list: &mut EdgeList<'_>)
    ensures accepted { Accepted (table_of program.now) }
    ensures grown { Grown list.old list.new (edges_for Nexts (table_of program.now)) }
{
    append_each(program, list, |list, s, _c| append_nexts(program, s, list));
}

// Appends the edges from statement `s`, whose line is `line`, if it is a CALL, and from the CALLs of its routine `c`, to those of the routine that it names;
// the places of a routine's CALLs stand from `end` on, the number of statements. Of any text's numbers, so no `Program`.
pub fn append_callers(
    numbers: &[i32],
    line: usize,
    s: usize,
    end: usize,
    c: usize,
    list: &mut EdgeList<'_>,
)
    requires line_value { (line ≡ statement_line numbers.now s) × (s < statements numbers.now) }
    requires end_value { (end ≡ statements numbers.now) × (end ≤ 512) × (c ≡ owner_of (table_of numbers.now) s) × (c < 2 ^ 32) }
    ensures { Grown list.old list.new (edges_at Callers (table_of numbers.now) s) }
{
    let called = attributes::calls_at(numbers, line);
    list.push_to(s, end, called);
    list.push_to(end + c, end, called);
}

// Appends the edges by which futures come from the CALLs of routine `c`, where statement `s` is one.
fn append_calling(program: &Program<'_>, s: usize, c: usize, list: &mut EdgeList<'_>)
    requires { (s < statements program.now) × (c ≡ owner_of (table_of program.now) s) }
    ensures { Grown list.old list.new (edges_at Callers (table_of program.now) s) }
{
    let line = program.line_of(s);
    append_callers(program.numbers, line, s, program.statements(), c, list);
}

// Appends the edges by which futures come from the CALLs of each routine.
pub fn fill_callers(program: &Program<'_>, list: &mut EdgeList<'_>)
    ensures accepted { Accepted (table_of program.now) }
    ensures grown { Grown list.old list.new (edges_for Callers (table_of program.now)) }
{
    append_each(
        program,
        list,
        |list, s, c| append_calling(program, s, c, list),
    );
}
