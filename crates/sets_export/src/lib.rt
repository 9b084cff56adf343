#![tactic(auto)]
// The solver under C names, for programs in C and for the benchmark. Each slice is a pointer and a count.
ghost use Rattle.std.specs.Prelude.{◌≡◌, map};
ghost use Rattle.sets.specs.Least.{edge_of, least};

use solver::Order;

// `solver::solve_plain` from the first edge to the last.
#[unsafe(no_mangle)]
pub extern "C" fn sets_solve_up(sets: &mut [u64], edges: &[u32])
    ensures { sets.new ≡ least (map edge_of edges.now) sets.old }
{
    solver::solve_plain(sets, edges, Order::FirstToLast);
}

// `solver::solve_plain` from the last edge to the first.
#[unsafe(no_mangle)]
pub extern "C" fn sets_solve_down(sets: &mut [u64], edges: &[u32])
    ensures { sets.new ≡ least (map edge_of edges.now) sets.old }
{
    solver::solve_plain(sets, edges, Order::LastToFirst);
}
