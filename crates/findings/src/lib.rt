#![tactic(auto)]
// What the report says of cells and GIVEs, from the sets of a table. A statement is seen by its view.
// Flow sets go beside the program: any list serves, and `stages::Solved` is a program with its own.
// Flow sets, held sets, effects and futures come out of different equations, in lists of their own: a struct of all would ask for more than each function
// needs.
ghost use Rattle.std.specs.Prelude.{◌≡◌, ℕ, Bool, ◌+◌, ◌≤◌, ◌<◌, ◌^◌, get_or};
ghost use Rattle.table.specs.Header.{routines, statements, statement_line};
ghost use Rattle.table.specs.Table.{statement_of, table_of};
ghost use Rattle.table.specs.Accepted.{Accepted};
ghost use Rattle.report.specs.Over.{union_from, count_from};
ghost use Rattle.report.specs.Findings.{clash, stray_by};
ghost use Rattle.findings.specs.Steps.{own_by, noted_by, shared_by, started_by, stray_in, unguarded_in};
ghost use Rattle.findings.specs.NoteLaws.{NotedAt, Marked, CountsFew};

use declarations::program::Program;

// For each cell the locks common to all its accesses, how many statements read it themselves, and how many write it: three arrays, since `note` lends a count
// of reads or of writes.
#[derive(Clone, Copy)]
pub struct Noted {
    pub common: [u64; 64],
    pub reads: [u64; 64],
    pub writes: [u64; 64],
}

// Leaves of the common locks of each cell of a set those that are held too, and counts the cell once more.
fn note(cells: u64, held: u64, common: &mut [u64; 64], counts: &mut [u64; 64])
    requires { (x : ℕ) → x < 64 → get_or counts.old x 0 < 2 ^ 32 }
    ensures { Marked cells held common.old common.new counts.old counts.new }
{
    let mut rest = cells;
    while let Some(x) = sets::lowest(rest) {
        common[x] = sets::intersection(held, common[x]);
        counts[x] += 1;
        rest = sets::difference(rest, sets::one(x));
    }
}

// Notes what statement `s` reads or writes itself while `held` is held.
fn note_access(program: &Program<'_>, s: usize, flow: &[u64], held: u64, noted: &mut Noted)
    requires inside { s < statements program.now }
    requires few { CountsFew noted.old }
    ensures { NotedAt (λ w. own_by program.now flow.now w s) held noted.old noted.new }
{
    let line = program.line_of(s);
    let reads = attributes::set_on(attributes::reads_at(program.numbers, line), flow);
    note(reads, held, &mut noted.common, &mut noted.reads);
    let writes = attributes::set_on(attributes::writes_at(program.numbers, line), flow);
    note(writes, held, &mut noted.common, &mut noted.writes);
}

// What all statements note; `held` has for each statement the locks that count as held there.
pub fn note_accesses(program: &Program<'_>, flow: &[u64], held: &[u64]) -> Noted
    ensures { result ≡ noted_by program.now flow.now held.now }
{
    let all = sets::firsts(program.locks());
    let mut noted = Noted {
        common: [all; 64],
        reads: [0; 64],
        writes: [0; 64],
    };
    for s in (0..program.statements()).rev() {
        note_access(program, s, flow, lists::value_at(held, s, 0), &mut noted);
    }
    noted
}

// How many numbers below `n` pass the test.
fn count_each<F: Fn(usize) -> bool>(n: usize, test: F) -> usize
    requires { (i : ℕ) → i < n → F.pre test i }
    ensures is { (at : ℕ → Bool) → ((i : ℕ) (b : Bool) → i < n → F.post test i b → b ≡ at i) → result ≡ count_from 0 n at }
    ensures small { result ≤ n }
{
    let mut count = 0;
    for i in (0..n).rev() {
        count = usize::from(test(i)) + count;
    }
    count
}

// The cells that both of two effects touch and one of them writes.
fn clash(reads: u64, writes: u64, later_reads: u64, later_writes: u64) -> u64
    ensures { result ≡ clash reads writes later_reads later_writes }
{
    let both = sets::intersection(
        sets::union(reads, writes),
        sets::union(later_reads, later_writes),
    );
    sets::intersection(both, sets::union(writes, later_writes))
}

// The cells shared at statement `s`; what it may write later stands `half` places behind what it may read: any list is taken, and
// only of a long one could the two be cut apart.
fn shared_at(
    program: &Program<'_>,
    s: usize,
    reads: &[u64],
    writes: &[u64],
    later: &[u64],
    half: usize,
) -> u64
    requires inside { s < statements program.now }
    requires s_bound { half + s < 2 ^ 40 }
    ensures { result ≡ shared_by program.now reads.now writes.now later.now half s }
{
    match attributes::starts_at(program.numbers, program.line_of(s)) {
        Some(q) => clash(
            lists::value_at(reads, q, 0),
            lists::value_at(writes, q, 0),
            lists::value_at(later, s, 0),
            lists::value_at(later, half + s, 0),
        ),
        None => 0,
    }
}

// The cells shared at some statement, from the effects of the routines; `later` holds the futures, what may be read and then what may be written.
pub fn shared_cells(program: &Program<'_>, reads: &[u64], writes: &[u64], later: &[u64]) -> u64
    ensures accepted { Accepted (table_of program.now) }
    ensures is { result ≡ union_from 0 (statements program.now) (shared_by program.now reads.now writes.now later.now (statements program.now + routines program.now)) }
{
    let half = program.statements() + program.routines();
    initial::unite_each(
        0,
        program.statements(),
        |s| shared_at(program, s, reads, writes, later, half),
    )
}

// The routine that statement `s` STARTs, as a set.
fn started_at(program: &Program<'_>, s: usize) -> u64
    requires { s < statements program.now }
    ensures { result ≡ started_by program.now s }
{
    match attributes::starts_at(program.numbers, program.line_of(s)) {
        Some(q) => sets::one(q),
        None => 0,
    }
}

// The routines that are STARTed.
pub fn started(program: &Program<'_>) -> u64
    ensures accepted { Accepted (table_of program.now) }
    ensures is { result ≡ union_from 0 (statements program.now) (started_by program.now) }
{
    initial::unite_each(0, program.statements(), |s| started_at(program, s))
}

// Whether statement `s`, whose line is `line`, is a GIVE that is stray where `held` is held; of any text's numbers, so no `Program`.
pub fn is_stray(numbers: &[i32], s: usize, line: usize, flow: &[u64], held: u64) -> bool
    requires { line ≡ statement_line numbers.now s }
    ensures { result ≡ stray_by (λ h. get_or flow.now h 0) held (statement_of numbers.now s) }
{
    match attributes::gives_at(numbers, line) {
        Some(h) => {
            let locks = lists::value_at(flow, h, 0);
            !(sets::is_single(locks) & sets::subset(locks, held))
        }
        None => false,
    }
}

// How many statements are stray GIVEs.
pub fn stray_count(program: &Program<'_>, flow: &[u64], held: &[u64]) -> usize
    ensures is { result ≡ count_from 0 (statements program.now) (stray_in program.now flow.now held.now) }
    ensures small { result ≤ 512 }
{
    count_each(
        program.statements(),
        |s| is_stray(
            program.numbers,
            s,
            program.line_of(s),
            flow,
            lists::value_at(held, s, 0),
        ),
    )
}

// How many of the first `cells` cells are unguarded; `common` has for each cell the locks common to all its accesses.
pub fn unguarded_count(shared: u64, common: &[u64], cells: usize) -> usize
    ensures is { result ≡ count_from 0 cells (unguarded_in shared common.now) }
    ensures small { result ≤ cells }
{
    count_each(
        cells,
        |x| sets::has(shared, x) & sets::is_empty(lists::value_at(common, x, 0)),
    )
}
