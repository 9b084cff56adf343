#![tactic(auto)]
// C-13: the routines that hold a START or reach one by CALLs, the statements that a START can precede, and the held sets with the others left out. `edges`
// lends the room for the edges, four a statement; what stands in it before does not matter, and what is left in it says nothing.
// The room is lent from above, since there is no heap, and lent on in parts, so each function says how much it needs: of a struct
// of program and room each contract would have to say too that they are the same lists.
// `reach` is a list of its own beside the program: it comes out of the first equation, and any list serves in the second.
// `reach_sets` and `preceded_sets` differ in the edges and the order, and each has an equation of its own.
ghost use Rattle.std.specs.Prelude.{◌≡◌, cond, ◌||◌, ◌+◌, ◌-◌, ◌*◌, ◌≤◌, ◌<◌, length, get_or, take, drop};
ghost use Rattle.table.specs.Header.{routines, statements};
ghost use Rattle.table.specs.Table.{table_of};
ghost use Rattle.table.specs.Tabulate.{tabulate};
ghost use Rattle.report.specs.Layout.{one_each};
ghost use Rattle.report.specs.Preceded.{marked, is_marked, reach_sets, preceded_sets};
ghost use Rattle.preceding.specs.LeaveLaws.{counted_at, behind_in, preceded_in};

use declarations::program::Program;
use edges::list::EdgeList;
use solver::Order;

// Makes all sets empty but the last, which has the element 0, whatever stood in the list.
fn fill_marked(out: &mut [u64])
    requires { 0 < length out.old }
    ensures { out.new ≡ marked (length out.old - 1) }
{
    out.fill(0);
    out[out.len() - 1] = 1;
}

// Leaves in `reach` a set for each routine, which has the element 0 if the routine holds a START or reaches one by CALLs; behind them that of "a START".
fn reach_sets(program: &Program<'_>, edges: &mut [u32], reach: &mut [u64])
    requires edges_room { 4 * statements program.now ≤ length edges.old }
    requires reach_len { length reach.old ≡ routines program.now + 1 }
    ensures { reach.new ≡ reach_sets (table_of program.now) (one_each (table_of program.now)) }
{
    let mut list = EdgeList {
        room: edges,
        used: 0,
    };
    start_edges::fill_reach(program, &mut list);
    fill_marked(reach);
    solver::solve_plain(reach, list.edges(), Order::LastToFirst);
}

// Leaves in `out` a set for each statement, which has the element 0 if the statement may follow a START, or a CALL that reaches one, or what such a one
// precedes; behind them one for each routine, which has it if the routine is named by a START, or by a CALL that a START can precede; last that of "a START".
fn preceded_sets(program: &Program<'_>, reach: &[u64], edges: &mut [u32], out: &mut [u64])
    requires edges_room { 4 * statements program.now ≤ length edges.old }
    requires out_len { length out.old ≡ statements program.now + routines program.now + 1 }
    ensures { out.new ≡ preceded_sets (table_of program.now) (one_each (table_of program.now)) reach.now }
{
    let mut list = EdgeList {
        room: edges,
        used: 0,
    };
    start_edges::fill_preceding(program, reach, &mut list);
    fill_marked(out);
    solver::solve_plain(out, list.edges(), Order::FirstToLast);
}

// What is held at statement `s`, whose place is `own`, of the routine at place `entered`, if a START can precede the statement; else `all`.
fn counted(work: &[u64], s: usize, own: usize, entered: usize, all: u64) -> u64
    ensures { result ≡ cond (is_marked work.now own || is_marked work.now entered) (get_or work.now s 0) all }
{
    if start_edges::is_marked(work, own) | start_edges::is_marked(work, entered) {
        return lists::value_at(work, s, 0);
    }
    all
}

// Takes in `work` a set for each statement, and behind them what preceded_sets leaves. Leaves there, for each statement, its set if a START can precede it,
// and else all the table's locks; the sets before them stay.
fn leave_out(program: &Program<'_>, work: &mut [u64])
    requires { statements program.now + (statements program.now + routines program.now + 1) ≤ length work.old }
    ensures before { take (statements program.now) work.new ≡ take (statements program.now) work.old }
    ensures behind { take (statements program.now) (drop (statements program.now) work.new) ≡ tabulate (statements program.now) (counted_at (table_of program.now) work.old (behind_in program.now work.old)) }
{
    let all = sets::firsts(program.locks());
    let end = program.statements();
    let mut c = 0;
    for s in 0..end {
        c = edges::owner_of(program, c, s);
        let own = end + s;
        work[own] = counted(work, s, own, end + end + c, all);
    }
}

// Leaves in `out` what preceded_sets leaves, from the routines that reach a START.
fn find_preceded(program: &Program<'_>, edges: &mut [u32], out: &mut [u64])
    requires edges_room { 4 * statements program.now ≤ length edges.old }
    requires out_len { length out.old ≡ statements program.now + routines program.now + 1 }
    ensures { out.new ≡ preceded_in (table_of program.now) }
{
    let many = program.routines() + 1;
    let mut reach = [0u64; 33];
    reach_sets(program, edges, &mut reach[..many]);
    preceded_sets(program, &reach[..many], edges, out);
}

// Leaves behind the held sets, which stand first in `work`, one for each statement, those that count for the common locks: what is held at a statement that
// a START can precede, and all locks at any other. The held sets stay.
pub fn counted_holds(program: &Program<'_>, edges: &mut [u32], work: &mut [u64])
    requires edges_room { 4 * statements program.now ≤ length edges.old }
    requires work_room { statements program.now + (statements program.now + routines program.now + 1) ≤ length work.old }
    ensures before { take (statements program.now) work.new ≡ take (statements program.now) work.old }
    ensures behind { take (statements program.now) (drop (statements program.now) work.new) ≡ tabulate (statements program.now) (counted_at (table_of program.now) work.old (preceded_in (table_of program.now))) }
{
    let count = program.statements();
    let end = count + (count + program.routines() + 1);
    find_preceded(program, edges, &mut work[count..end]);
    leave_out(program, work);
}
