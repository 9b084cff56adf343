#![tactic(auto)]
// The state of a run, which the caller of a step holds, and what a run is of. Places past the table's locks and cells are never read.
pub mod frames;

ghost use Rattle.std.specs.Prelude.{◌≡◌, ◌*◌, ◌<◌, ◌≤◌, get_or, length, pos, set, take};
ghost use Rattle.table.specs.Header.{statements, statement_line};
ghost use Rattle.table.specs.Table.{table_of};
ghost use Rattle.machine.specs.State.{start};
ghost use Rattle.run_state.specs.Lists.{cleared, locks_in, cells_in, put_lock, put_cell};
ghost use Rattle.run_state.specs.Shown.{ListsShow};

use declarations::program::Program;
use table::Arguments;

// What a run never changes: an accepted table, with all of its lines, and how many cells and locks it has, which a step does not ask its header for.
#[derive(Drop)]
pub struct Loaded<'a> {
    pub program: Program<'a>,
    pub cells: usize,
    pub locks: usize,
    pub ghost long: { length program ≡ 8 * statement_line program (statements program) },
    pub ghost cells_are: { cells ≡ (table_of program).cells },
    pub ghost locks_are: { locks ≡ (table_of program).locks },
}

impl<'a> Loaded<'a> {
    // Of a table whose lines are all there.
    pub fn new(program: Program<'a>) -> Loaded<'a>
        requires { length program ≡ 8 * statement_line program (statements program) }
        ensures { result.program ≡ program.entry }
    {
        let counts = table::counts_of(program.numbers);
        Loaded {
            program,
            cells: counts.cells,
            locks: counts.locks,
        }
    }
}

// The state of a run: how many threads are started (with 32 bits a step of `bench/run` took a sixth longer; the bar is that none takes longer), each slot's
// next statement and handle values, each thread's frame count and accumulator, each lock's word, the cells. Between `u32` and `usize`, and from `u64`, goes
// `as`: `From` has no way, and `TryFrom` answers with a `Result` that could not fail. Arrays of fixed size, one a field, by thread, by slot, by lock and by
// cell: there is no heap, a step touches a place or two of each, and how they show a state of the machine is said list by list. A count of locks or cells is
// asked for where an array is cut to it, which is as long as any table needs.
#[derive(Clone, Copy)]
pub struct State {
    pub started: usize,
    pub nexts: [u32; 512],
    pub values: [u8; 4096],
    pub counts: [u32; 16],
    pub accumulators: [i32; 16],
    pub locks: [u32; 16],
    pub cells: [i32; 64],
}

// Stores `value` in place `i` of a part of a list; nothing past it. (The library's `get_mut` does not say how the list ends.)
fn put<T: Copy>(part: &mut [T], i: usize, value: T)
    ensures { part.new ≡ set part.old i value }
{
    if i < part.len() {
        part[i] = value;
    }
}

impl State {
    // With no thread, all cleared.
    pub fn new() -> State
        ensures { result ≡ cleared }
    {
        State {
            started: 0,
            nexts: [0; 512],
            values: [0; 4096],
            counts: [0; 16],
            accumulators: [0; 16],
            locks: [0; 16],
            cells: [0; 64],
        }
    }

    // The word of lock `k` of so many locks: who holds it. 0 past them.
    pub fn lock(&self, locks: usize, k: usize) -> u64
        requires { locks ≤ 16 }
        ensures { (result ≡ get_or (locks_in locks self.now) k 0) × (result < 4294967296) }
    {
        u64::from(lists::value_at(&self.locks[..locks], k, 0))
    }

    #[tactic(auto, using(crate::specs::ListLaws::put_part))]
    // Stores the word of lock `k` of so many locks; nothing past them.
    pub fn put_lock(&mut self, locks: usize, k: usize, word: u64)
        requires { (locks ≤ 16) × (word < 4294967296) }
        ensures { self.new ≡ put_lock locks self.old k word }
    {
        put(&mut self.locks[..locks], k, word as u32);
    }

    // The value of cell `x` of so many cells; 0 past them.
    pub fn cell(&self, cells: usize, x: usize) -> i32
        requires { cells ≤ 64 }
        ensures { result ≡ get_or (cells_in cells self.now) x (pos 0) }
    {
        lists::value_at(&self.cells[..cells], x, 0)
    }

    #[tactic(auto, using(crate::specs::ListLaws::put_part))]
    // Stores `v` in cell `x` of so many cells; nothing past them.
    pub fn put_cell(&mut self, cells: usize, x: usize, v: i32)
        requires { cells ≤ 64 }
        ensures { self.new ≡ put_cell cells self.old x v }
    {
        put(&mut self.cells[..cells], x, v);
    }

    // Copies the cells' values out.
    pub fn leave(&self, cells: &mut [i32])
        requires { length cells.old ≤ 64 }
        ensures { cells.new ≡ cells_in (length cells.old) self.now }
    {
        cells.copy_from_slice(&self.cells[..cells.len()]);
    }
}

// Makes the state show where a run begins: thread 0 alone, in routine 0, cells zero and locks free.
pub fn begin(loaded: &Loaded<'_>, state: &mut State)
    ensures { ListsShow (table_of loaded.now.program) state.new (start (table_of loaded.now.program)) }
{
    *state = State::new();
    state.started = 1;
    state.counts[0] = 1;
    // routine 0 has no parameter
    frames::enter(loaded, 0, Arguments::default(), &mut state.values, 0, 1);
}
