#![tactic(auto)]
// What is held at each statement of a table, in the way of its access (C-18): for writing at a WRITE, in either way at any other statement. It comes from the
// held sets of both modes, which are the same where nothing is taken for reading. `edges` lends the room for edges, four a statement.
// Flow sets go beside the program: any list serves, and `stages::Solved` is a program with its own.
// The room is lent from above, since there is no heap, and lent on in parts, so each function says how much it needs: of a struct
// of program and room each contract would have to say too that they are the same lists.
ghost use Rattle.std.specs.Prelude.{◌≡◌, true, false, ◌+◌, ◌*◌, ◌≤◌, length, take};
ghost use Rattle.table.specs.Header.{statements};
ghost use Rattle.table.specs.Table.{table_of};
ghost use Rattle.report.specs.Layout.{one_each};
ghost use Rattle.report.specs.Held.{held_sets};
ghost use Rattle.report.specs.Findings.{sets_of, own_holds};
ghost use Rattle.held_edges.specs.TableEdges.{bases_of};
ghost use Rattle.modes.specs.Modes.{held_by};

use declarations::program::Program;
use held_edges::Mode;

// Leaves in the first places of `work`, where what is held in either way stands, what is held in the way of each access, and behind it what is left of finding
// what is held for writing.
fn add_writing(
    program: &Program<'_>,
    flow: &[u64],
    given: &[u64],
    edges: &mut [u32],
    work: &mut [u64],
)
    requires edges_room { 4 * statements program.now ≤ length edges.old }
    requires work_room { statements program.now + ((bases_of program.now).every + 1) ≤ length work.old }
    ensures { take (statements program.now) work.new ≡ held_by program.now (held_sets (table_of program.now) (one_each (table_of program.now)) true flow.now given.now) work.old }
{
    let count = program.statements();
    let end = count + lockset::places_of(program.numbers);
    lockset::held_sets(
        program,
        flow,
        given,
        Mode::Writing,
        edges,
        &mut work[count..end],
    );
    modes::put_writing(program.numbers, work);
}

// Leaves in the first places of `work` what is held in either way at each statement.
fn either_holds(
    program: &Program<'_>,
    flow: &[u64],
    given: &[u64],
    edges: &mut [u32],
    work: &mut [u64],
)
    requires edges_room { 4 * statements program.now ≤ length edges.old }
    requires work_room { (bases_of program.now).every + 1 ≤ length work.old }
    ensures { take (statements program.now) work.new ≡ held_sets (table_of program.now) (one_each (table_of program.now)) false flow.now given.now }
{
    let places = lockset::places_of(program.numbers);
    lockset::held_sets(
        program,
        flow,
        given,
        Mode::Either,
        edges,
        &mut work[..places],
    );
}

// Leaves in the first places of `work` what is held in the way of each access.
fn both_holds(
    program: &Program<'_>,
    flow: &[u64],
    given: &[u64],
    edges: &mut [u32],
    work: &mut [u64],
)
    requires edges_room { 4 * statements program.now ≤ length edges.old }
    requires work_room { statements program.now + ((bases_of program.now).every + 1) ≤ length work.old }
    ensures { take (statements program.now) work.new ≡ held_by program.now (held_sets (table_of program.now) (one_each (table_of program.now)) true flow.now given.now) (held_sets (table_of program.now) (one_each (table_of program.now)) false flow.now given.now) }
{
    either_holds(program, flow, given, edges, work);
    if modes::first_to_read(program.numbers).is_some() {
        add_writing(program, flow, given, edges, work);
    }
}

// Leaves in the first places of `work` what is held at each statement of a table in the way of its access, from its flow sets.
pub fn own_holds(program: &Program<'_>, flow: &[u64], edges: &mut [u32], work: &mut [u64])
    requires flow_value { flow.now ≡ (sets_of (table_of program.now) (one_each (table_of program.now))).flow }
    requires numbers_in_bounds { 4 * statements program.now ≤ length edges.old }
    requires numbers_in_bounds_2 { statements program.now + ((bases_of program.now).every + 1) ≤ length work.old }
    ensures { take (statements program.now) work.new ≡ own_holds (table_of program.now) (one_each (table_of program.now)) (sets_of (table_of program.now) (one_each (table_of program.now))) }
{
    let routines = program.routines();
    let mut given = [0u64; 32];
    dataflow::given_sets(program, flow, edges, &mut given[..routines]);
    both_holds(program, flow, &given[..routines], edges, work);
}
