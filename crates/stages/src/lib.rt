#![tactic(auto)]
// The report of an accepted table: its sets, each out of those before it, what is found with them, and its lines. Flow and held sets stay as they
// are found.
// What stands in `work`, and what `reads`, `writes` and `shared` are, goes from each function to the next, and is asked for in three at most.
// The room is lent from above, since there is no heap, and lent on in parts, so each function says how much it needs: of a struct
// of program and room each contract would have to say too that they are the same lists.
ghost use Rattle.std.specs.Prelude.{◌≡◌, ◌+◌, ◌*◌, ◌≤◌, length, take, drop};
ghost use Rattle.table.specs.Header.{routines, statements};
ghost use Rattle.table.specs.Table.{table_of};
ghost use Rattle.table.specs.Accepted.{Accepted};
ghost use Rattle.report.specs.Layout.{one_each};
ghost use Rattle.report.specs.Findings.{shared_cells, own_holds};
ghost use Rattle.findings.specs.Found.{sets_in, counted_holds};
ghost use Rattle.report_printer.specs.Printed.{Reports};
ghost use Rattle.stages.specs.Lent.{Lent};

use declarations::outline::Extents;
use declarations::program::Program;
use report_printer::Printed;

// An accepted table with its flow sets.
#[derive(Clone, Copy)]
struct Solved<'a> {
    program: &'a Program<'a>,
    flow: &'a [u64],
    ghost flow_is: { flow.now ≡ (sets_in (table_of program.now)).flow },
}

// The shared cells, from the effects; `later` lends the room for the futures.
fn shared_from(
    solved: &Solved<'_>,
    reads: &[u64],
    writes: &[u64],
    later: &mut [u64],
    edges: &mut [u32],
) -> u64
    requires reads_value { reads.now ≡ (sets_in (table_of solved.now.program.now)).reads }
    requires writes_value { writes.now ≡ (sets_in (table_of solved.now.program.now)).writes }
    requires later_len { length later.old ≡ 2 * (statements solved.now.program.now + routines solved.now.program.now) }
    requires numbers_in_bounds { 4 * statements solved.now.program.now ≤ length edges.old }
    ensures { result ≡ shared_cells (table_of solved.now.program.now) (one_each (table_of solved.now.program.now)) (sets_in (table_of solved.now.program.now)) }
{
    future::future_sets(solved.program, solved.flow, reads, writes, edges, later);
    findings::shared_cells(solved.program, reads, writes, later)
}

// The shared cells; `later` lends the room for the futures.
fn find_shared(solved: &Solved<'_>, later: &mut [u64], edges: &mut [u32]) -> u64
    requires later_len { length later.old ≡ 2 * (statements solved.now.program.now + routines solved.now.program.now) }
    requires numbers_in_bounds { 4 * statements solved.now.program.now ≤ length edges.old }
    ensures { result ≡ shared_cells (table_of solved.now.program.now) (one_each (table_of solved.now.program.now)) (sets_in (table_of solved.now.program.now)) }
{
    let routines = solved.program.routines();
    let mut reads = [0u64; 32];
    let mut writes = [0u64; 32];
    dataflow::effect_sets(
        solved.program,
        solved.flow,
        edges,
        &mut reads[..routines],
        &mut writes[..routines],
    );
    shared_from(
        solved,
        &reads[..routines],
        &writes[..routines],
        later,
        edges,
    )
}

// The shared cells, none of them looked for where nothing is STARTed; `later` lends the room for the futures.
fn shared_of(solved: &Solved<'_>, later: &mut [u64], edges: &mut [u32]) -> u64
    requires later_len { length later.old ≡ 2 * (statements solved.now.program.now + routines solved.now.program.now) }
    requires numbers_in_bounds { 4 * statements solved.now.program.now ≤ length edges.old }
    ensures { result ≡ shared_cells (table_of solved.now.program.now) (one_each (table_of solved.now.program.now)) (sets_in (table_of solved.now.program.now)) }
{
    if findings::started(solved.program) == 0 {
        return 0;
    }
    find_shared(solved, later, edges)
}

// Writes the report, from the flow sets, the shared cells, the held sets, which stand first in `work`, and behind them those that count for the common locks.
fn print_found(solved: &Solved<'_>, work: &[u64], shared: u64, out: &mut [u8]) -> Printed
    requires work_value { take (statements solved.now.program.now) work.now ≡ own_holds (table_of solved.now.program.now) (one_each (table_of solved.now.program.now)) (sets_in (table_of solved.now.program.now)) }
    requires work_value_2 { take (statements solved.now.program.now) (drop (statements solved.now.program.now) work.now) ≡ counted_holds (table_of solved.now.program.now) }
    requires numbers_in_bounds { statements solved.now.program.now + statements solved.now.program.now ≤ length work.now }
    requires shared_value { shared ≡ shared_cells (table_of solved.now.program.now) (one_each (table_of solved.now.program.now)) (sets_in (table_of solved.now.program.now)) }
    ensures { Reports (table_of solved.now.program.now) out.old out.new result }
{
    let program = solved.program;
    let count = program.statements();
    let end = count + count;
    let noted = findings::note_accesses(program, solved.flow, &work[count..end]);
    report_printer::print_report(program, solved.flow, &work[..count], shared, &noted, out)
}

// Writes the report, from the flow sets, the shared cells and the held sets, which stand first in `work`. Those that count for the common locks go behind
// them.
fn with_shared(
    solved: &Solved<'_>,
    shared: u64,
    work: &mut [u64],
    edges: &mut [u32],
    out: &mut [u8],
) -> Printed
    requires work_value { take (statements solved.now.program.now) work.old ≡ own_holds (table_of solved.now.program.now) (one_each (table_of solved.now.program.now)) (sets_in (table_of solved.now.program.now)) }
    requires shared_value { shared ≡ shared_cells (table_of solved.now.program.now) (one_each (table_of solved.now.program.now)) (sets_in (table_of solved.now.program.now)) }
    requires numbers_in_bounds { statements solved.now.program.now + (statements solved.now.program.now + routines solved.now.program.now + 1) ≤ length work.old }
    requires numbers_in_bounds_2 { 4 * statements solved.now.program.now ≤ length edges.old }
    ensures { Reports (table_of solved.now.program.now) out.old out.new result }
{
    preceding::counted_holds(solved.program, edges, work);
    print_found(solved, work, shared, out)
}

// Writes the report, from the flow sets and the held sets, which stand first in `work`. The futures go behind them, and then those that count for the common
// locks.
fn with_held(solved: &Solved<'_>, work: &mut [u64], edges: &mut [u32], out: &mut [u8]) -> Printed
    requires work_value { take (statements solved.now.program.now) work.old ≡ own_holds (table_of solved.now.program.now) (one_each (table_of solved.now.program.now)) (sets_in (table_of solved.now.program.now)) }
    requires numbers_in_bounds { statements solved.now.program.now + 2 * (statements solved.now.program.now + routines solved.now.program.now) ≤ length work.old }
    requires numbers_in_bounds_2 { 4 * statements solved.now.program.now ≤ length edges.old }
    ensures { Reports (table_of solved.now.program.now) out.old out.new result }
{
    let program = solved.program;
    let count = program.statements();
    let end = count + 2 * (count + program.routines());
    let shared = shared_of(solved, &mut work[count..end], edges);
    with_shared(solved, shared, work, edges, out)
}

// Writes the report, from the flow sets. The held sets go into the first places of `work`.
fn with_flow(solved: &Solved<'_>, work: &mut [u64], edges: &mut [u32], out: &mut [u8]) -> Printed
    requires lent { Lent solved.now.program.now work.old edges.old }
    ensures { Reports (table_of solved.now.program.now) out.old out.new result }
{
    own_holds::own_holds(solved.program, solved.flow, edges, work);
    with_held(solved, work, edges, out)
}

// Writes the report of an accepted table to the start of `out`, the places behind it stay; if it does not fit, no byte is written.
pub fn examine(numbers: &[i32], work: &mut [u64], edges: &mut [u32], out: &mut [u8]) -> Printed
    requires accepted { Accepted (table_of numbers.now) }
    requires lent { Lent numbers.now work.old edges.old }
    ensures { Reports (table_of numbers.now) out.old out.new result }
{
    let extents = Extents::of(numbers);
    let program = Program::new(numbers, &extents);
    let handles = program.handles();
    let mut flow = [0u64; 128];
    dataflow::flow_sets(&program, edges, &mut flow[..handles]);
    let solved = Solved {
        program: &program,
        flow: &flow[..handles],
    };
    with_flow(&solved, work, edges, out)
}
