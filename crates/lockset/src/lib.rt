#![tactic(auto)]
// The held sets of a table, of locks held for writing or in either way: all locks but what is left out of them, which the solver finds.
// Flow sets go beside the program: any list serves, and `stages::Solved` is a program with its own.
// The locks given up are a second list, out of an equation of their own.
ghost use Rattle.std.specs.Prelude.{◌≡◌, ◌+◌, ◌*◌, ◌≤◌, length, take};
ghost use Rattle.table.specs.Header.{statements};
ghost use Rattle.table.specs.Table.{table_of};
ghost use Rattle.table.specs.Tabulate.{tabulate};
ghost use Rattle.report.specs.Greatest.{leaving};
ghost use Rattle.report.specs.Layout.{one_each};
ghost use Rattle.report.specs.Held.{only_lock, held_sets};
ghost use Rattle.held_edges.specs.TableEdges.{writing_alone, bases_of};
ghost use Rattle.lockset.specs.Start.{start_in};

use declarations::program::Program;
use held_edges::Mode;
use lock_edges::Bases;
use lock_edges::list::MetEdges;
use solver::Order;

// The one lock of a flow set; the empty set if it has none or several.
fn only_lock(flow: u64) -> u64
    ensures { result ≡ only_lock flow }
{
    if sets::is_single(flow) { flow } else { 0 }
}

// What is left out at place `p` at the start.
fn start_at(flow: &[u64], given: &[u64], bases: Bases, all: u64, p: usize) -> u64
    ensures { result ≡ start_in flow.now given.now bases all p }
{
    if p < bases.given {
        return 0;
    }
    if p < bases.flow {
        return lists::value_at(given, p - bases.given, 0);
    }
    if p < bases.other {
        return lists::value_at(flow, p - bases.flow, 0);
    }
    if p < bases.every {
        return sets::difference(all, only_lock(lists::value_at(flow, p - bases.other, 0)));
    }
    all
}

// Turns what is left out at each statement into what is held there.
fn turn_round(sets: &mut [u64], all: u64)
    ensures { sets.new ≡ tabulate (length sets.old) (leaving all sets.old) }
{
    for set in sets.iter_mut() {
        *set = sets::difference(all, *set);
    }
}

// How many places `held_sets` needs.
pub fn places_of(numbers: &[i32]) -> usize
    ensures { result ≡ (bases_of numbers.now).every + 1 }
{
    held_edges::bases_of(numbers).every + 1
}

// Leaves in the first places of `out` the held sets of a table, from its flow sets and the locks that each routine may give up. `edges` lends the room for
// edges.
pub fn held_sets(
    program: &Program<'_>,
    flow: &[u64],
    given: &[u64],
    mode: Mode,
    edges: &mut [u32],
    out: &mut [u64],
)
    requires edges_room { 3 * statements program.now + 1 ≤ length edges.old }
    requires out_len { length out.old ≡ (bases_of program.now).every + 1 }
    ensures { take (statements program.now) out.new ≡ held_sets (table_of program.now) (one_each (table_of program.now)) (writing_alone mode) flow.now given.now }
{
    let bases = held_edges::bases_of(program.numbers);
    let all = sets::firsts(program.locks());
    initial::fill_each(out, |p| start_at(flow, given, bases, all, p));
    let mut also = [0u16; 1537];
    let mut list = MetEdges {
        edges,
        also: &mut also[..],
        used: 0,
    };
    held_edges::fill(program, mode, &mut list);
    solver::solve(out, list.edges(), list.also(), Order::FirstToLast);
    turn_round(&mut out[..bases.back], all);
}
