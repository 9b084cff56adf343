#![tactic(auto)]
// The futures of an accepted table, by the one solver, in two stages: what may follow in the routine, then what comes from its CALLs. `edges` lends the room
// for the edges, four a statement; what stands in it before does not matter, and what is left in it says nothing.
// The room is lent from above, since there is no heap, and lent on in parts, so each function says how much it needs: of a struct
// of program and room each contract would have to say too that they are the same lists.
// Effects come as two lists, as `dataflow` leaves them.
// `spread` goes through the statements itself: `edges::append_each` appends to a list of edges.
ghost use Rattle.std.specs.Prelude.{◌≡◌, true, false, ◌++◌, map, ◌+◌, ◌*◌, ◌≤◌, length};
ghost use Rattle.sets.specs.Least.{edge_of, least};
ghost use Rattle.table.specs.Header.{routines, statements};
ghost use Rattle.table.specs.Table.{table_of};
ghost use Rattle.table.specs.Tabulate.{tabulate};
ghost use Rattle.report.specs.Layout.{owner_of, one_each};
ghost use Rattle.report.specs.Future.{futures};
ghost use Rattle.initial.specs.InitialSets.{future_initial};
ghost use Rattle.future.specs.StageLaws.{spread};

use declarations::program::Program;
use edges::list::EdgeList;
use initial::{Act, Acts, Effects};
use solver::Order;

// Puts what the CALLs of each routine have into the sets of its statements. By places: each set is put together with one that stands behind the statements,
// in the same list.
fn spread(program: &Program<'_>, out: &mut [u64])
    requires { length out.old ≡ statements program.now + routines program.now }
    ensures { out.new ≡ spread (statements program.now) (routines program.now) (owner_of (table_of program.now)) out.old }
{
    let end = program.statements();
    let mut c = 0;
    for s in 0..end {
        c = edges::owner_of(program, c, s);
        out[s] = sets::union(out[s], out[end + c]);
    }
}

// Leaves in `out` futures in two stages, from the effects of what may come next: along the edges `within` a routine, then along those `up` to it, which
// bring what the CALLs of each routine have; and this goes to all its statements.
fn later_sets(effects: &Effects<'_>, within: &[u32], up: &[u32], out: &mut [u64])
    requires { length out.old ≡ statements effects.now.acts.program.now + routines effects.now.acts.program.now }
    ensures { out.new ≡ spread (statements effects.now.acts.program.now) (routines effects.now.acts.program.now) (owner_of (table_of effects.now.acts.program.now)) (least (map edge_of up.now) (least (map edge_of within.now) (tabulate (length out.old) (future_initial effects.now.acts.act effects.now.acts.flow.now effects.now.effect.now (table_of effects.now.acts.program.now))))) }
{
    effects.fill_future(out);
    solver::solve_plain(out, within, Order::LastToFirst);
    solver::solve_plain(out, up, Order::FirstToLast);
    spread(effects.acts.program, out);
}

// Leaves in `later` the future of each statement, and behind them that of the CALLs of each routine: first the cells that are read, then those that
// are written; `reads` and `writes` are the effects.
pub fn future_sets(
    program: &Program<'_>,
    flow: &[u64],
    reads: &[u64],
    writes: &[u64],
    edges: &mut [u32],
    later: &mut [u64],
)
    requires edges_room { 4 * statements program.now ≤ length edges.old }
    requires later_len { length later.old ≡ 2 * (statements program.now + routines program.now) }
    ensures { later.new ≡ futures (table_of program.now) (one_each (table_of program.now)) flow.now reads.now false ++ futures (table_of program.now) (one_each (table_of program.now)) flow.now writes.now true }
{
    let mut list = EdgeList {
        room: edges,
        used: 0,
    };
    edges::fill_nexts(program, &mut list);
    let nexts = list.used;
    edges::fill_callers(program, &mut list);
    let (within, up) = list.edges().split_at(nexts);
    let (read, written) = later.split_at_mut(later.len() / 2);
    let act = Act::Reads;
    let reading = Effects {
        acts: Acts { program, flow, act },
        effect: reads,
    };
    later_sets(&reading, within, up, read);
    let act = Act::Writes;
    let writing = Effects {
        acts: Acts { program, flow, act },
        effect: writes,
    };
    later_sets(&writing, within, up, written);
}
