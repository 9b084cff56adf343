#![tactic(auto)]
// The edges of all statements of a table, along which what is left out of the held sets goes: those of each routine after those of the one before.
// `Mode` is what callers choose by; the definitions have a Boolean, and `writing_alone` is the one place that turns one into the other.
ghost use Rattle.std.specs.Prelude.{◌≡◌, ◌^◌, ◌+◌, ◌*◌, ◌≤◌, ◌<◌, length};
ghost use Rattle.table.specs.Header.{routines, statements};
ghost use Rattle.table.specs.Routines.{first_statement};
ghost use Rattle.table.specs.Table.{table_of};
ghost use Rattle.report.specs.Layout.{one_each};
ghost use Rattle.lock_edges.specs.Grown.{Same};
ghost use Rattle.held_edges.specs.GoingLaws.{Filled};
ghost use Rattle.lock_edges.specs.ViewEdges.{Low};
ghost use Rattle.held_edges.specs.HeldEdges.{held_edges};
ghost use Rattle.held_edges.specs.TableEdges.{writing_alone, bases_of, part_of};
ghost use Rattle.held_edges.specs.GoingLaws.{Going};

use declarations::program::Program;
use lock_edges::list::MetEdges;
use lock_edges::{Bases, Here, Origin};

// Which holds count: those for writing alone, or those in either way.
#[derive(Clone, Copy)]
pub enum Mode {
    Writing,
    Either,
}

// Whether only holds for writing count.
fn writing_alone(mode: Mode) -> bool
    ensures { result ≡ writing_alone mode }
{
    match mode {
        Mode::Writing => true,
        Mode::Either => false,
    }
}

// Where the places behind the statements of a table begin.
pub fn bases_of(numbers: &[i32]) -> Bases
    ensures is { result ≡ bases_of numbers.now }
    ensures small { result.every < 2 ^ 34 }
{
    let statements = table::field_of(numbers, 0, 5);
    let routines = table::field_of(numbers, 0, 4);
    let handles = table::field_of(numbers, 0, 3);
    Bases {
        back: statements,
        given: statements + routines,
        flow: statements + routines + routines,
        other: statements + routines + routines + handles,
        every: statements + routines + routines + handles + handles,
    }
}

// Appends the edges of the statements of routine `c`.
fn append_routine(program: &Program<'_>, c: usize, mode: Mode, list: &mut MetEdges<'_>)
    requires { c < routines program.now }
    ensures { Going (part_of (writing_alone mode) program.now) list.old (first_statement program.now c) list.new (first_statement program.now (c + 1)) }
{
    let writing = writing_alone(mode);
    let bases = bases_of(program.numbers);
    let first = &program.extents.first;
    for s in lists::value_at(first, c, 0)..lists::value_at(first, c + 1, 0) {
        let view = attributes::view_at(program.numbers, program.line_of(s), writing);
        let here = Here {
            bases,
            first,
            view,
            s,
            c,
        };
        lock_edges::append_statement(&here, list);
    }
}

// Fills the list anew with the edges of a table. Three places a statement and one more are room enough.
pub fn fill(program: &Program<'_>, mode: Mode, list: &mut MetEdges<'_>)
    requires { (3 * statements program.now + 1 ≤ length list.old.edges.now) × (3 * statements program.now + 1 ≤ length list.old.also.now) }
    ensures same { Same list.old list.new }
    ensures filled { Filled list.new (held_edges (table_of program.now) (one_each (table_of program.now)) (writing_alone mode)) }
{
    let bases = bases_of(program.numbers);
    let all = Origin {
        from: bases.every,
        also: bases.every,
    };
    list.used = 0;
    list.push(all, lists::value_at(&program.extents.first, 0, 0));
    for c in 0..program.routines() {
        append_routine(program, c, mode, list);
    }
}
