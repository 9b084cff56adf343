#![tactic(auto)]
// Flow, effects and given-up locks of an accepted table, each the least sets along the edges of its equation: flow by passes over the statements from the
// highest number down, the others by the solver.
// Flow sets go beside the program: any list serves, and `stages::Solved` is a program with its own.
// Reads and writes are two lists, since each is lent and filled by itself.
// `edges` lends the room for the edges, four a statement; what stands in it before does not matter, and what is left in it says nothing.
// The room is lent from above, since there is no heap, and lent on in parts, so each function says how much it needs: of a struct
// of program and room each contract would have to say too that they are the same lists.
ghost use Rattle.std.specs.Prelude.{◌≡◌, true, false, map, ◌*◌, ◌≤◌, max, length, take};
ghost use Rattle.sets.specs.Least.{edge_of, least};
ghost use Rattle.table.specs.Header.{handles, routines, statements};
ghost use Rattle.table.specs.Table.{table_of};
ghost use Rattle.table.specs.Tabulate.{tabulate};
ghost use Rattle.report.specs.Layout.{one_each};
ghost use Rattle.report.specs.Flow.{flow_sets};
ghost use Rattle.report.specs.FlowPasses.{flow_passes, HelpersFirst};
ghost use Rattle.report.specs.Effect.{effects, gives};
ghost use Rattle.initial.specs.InitialSets.{in_routine};

use declarations::program::Program;
use edges::list::EdgeList;
use initial::{Act, Acts};
use solver::Order;

// Leaves in `flow` the flow set of each handle, by passes over the statements from the highest number down until one changes nothing. Returns how many
// passes were made, that one among them: no more than there are handles, or one; at most three where helpers stand before the routines that use them.
pub fn flow_passes(program: &Program<'_>, edges: &mut [u32], flow: &mut [u64]) -> usize
    requires edges_room { 4 * statements program.now ≤ length edges.old }
    requires flow_len { length flow.old ≡ handles program.now }
    ensures sets { flow.new ≡ flow_sets (table_of program.now) (one_each (table_of program.now)) }
    ensures made { result ≡ flow_passes (table_of program.now) (one_each (table_of program.now)) }
    ensures most { result ≤ max 1 (handles program.now) }
    ensures few { HelpersFirst (table_of program.now) → result ≤ 3 }
{
    let mut list = EdgeList {
        room: edges,
        used: 0,
    };
    edges::fill_flow(program, &mut list);
    initial::fill_flow(program, flow);
    round_robin::solve(flow, list.edges())
}

// Leaves in `flow` the flow set of each handle.
pub fn flow_sets(program: &Program<'_>, edges: &mut [u32], flow: &mut [u64])
    requires edges_room { 4 * statements program.now ≤ length edges.old }
    requires flow_len { length flow.old ≡ handles program.now }
    ensures { flow.new ≡ flow_sets (table_of program.now) (one_each (table_of program.now)) }
{
    let _made = flow_passes(program, edges, flow);
}

// Leaves in `out` the least sets along the edges, from what the statements of each routine do so themselves.
fn own_sets(acts: &Acts<'_>, edges: &[u32], out: &mut [u64])
    requires { length out.old ≡ routines acts.now.program.now }
    ensures { out.new ≡ least (map edge_of edges.now) (tabulate (length out.old) (in_routine acts.now.act acts.now.flow.now (table_of acts.now.program.now))) }
{
    acts.fill_own(out);
    solver::solve_plain(out, edges, Order::LastToFirst);
}

// Leaves in `reads` and `writes` the cells that each routine reads and writes, with those of all it CALLs or STARTs.
pub fn effect_sets(
    program: &Program<'_>,
    flow: &[u64],
    edges: &mut [u32],
    reads: &mut [u64],
    writes: &mut [u64],
)
    requires edges_room { 4 * statements program.now ≤ length edges.old }
    requires reads_len { length reads.old ≡ routines program.now }
    requires writes_len { length writes.old ≡ routines program.now }
    ensures reads { reads.new ≡ effects (table_of program.now) (one_each (table_of program.now)) flow.now false }
    ensures writes { writes.new ≡ effects (table_of program.now) (one_each (table_of program.now)) flow.now true }
{
    let mut list = EdgeList {
        room: edges,
        used: 0,
    };
    edges::fill_naming(program, &mut list);
    let naming = list.edges();
    let act = Act::Reads;
    own_sets(&Acts { program, flow, act }, naming, reads);
    let act = Act::Writes;
    own_sets(&Acts { program, flow, act }, naming, writes);
}

// Leaves in `given` the locks that each routine, or what it reaches by CALLs, may give up.
pub fn given_sets(program: &Program<'_>, flow: &[u64], edges: &mut [u32], given: &mut [u64])
    requires edges_room { 4 * statements program.now ≤ length edges.old }
    requires given_len { length given.old ≡ routines program.now }
    ensures { given.new ≡ gives (table_of program.now) (one_each (table_of program.now)) flow.now }
{
    let mut list = EdgeList {
        room: edges,
        used: 0,
    };
    edges::fill_calls(program, &mut list);
    let act = Act::Gives;
    own_sets(&Acts { program, flow, act }, list.edges(), given);
}
