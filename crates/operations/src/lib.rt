#![tactic(auto)]
// The operations of document 01 on the state of a run, but for those on locks, one function each, and what a step is answered with. A place and the state go
// into each as an index and a list do, and a routine with its arguments as the statement has them. READ and WRITE take a
// count of cells and no `Loaded`: they serve for any state, and any count that its array has.
mod numbers;
pub mod place;

ghost use Rattle.std.specs.Prelude.{◌≡◌, cond, ◌+◌, ◌*◌, ◌-◌, ◌<◌, ◌≤◌, pos, ◌+ℤ◌, get_or, set, Ok, Some, None};
ghost use Rattle.machine.specs.Step.{saturate, is_zero};
ghost use Rattle.machine.specs.Engine.{frame_slots};
ghost use Rattle.run_state.specs.Lists.{cells_in, put_cell};
ghost use Rattle.run_state.specs.Shown.{value_place};
ghost use Rattle.operations.specs.Step.{refusal_number};
ghost use Rattle.operations.specs.Operation.{Newest, on, Called, Started};

use numbers::saturating_sum;
pub use place::Place;
use run_state::frames::{enter, put_value, value_of};
use run_state::{Loaded, State};
use table::{Arguments, Statement};

// Why an operation was stopped: TAKE finds its lock held, GIVE finds it not held by this thread, START finds 16 threads started.
#[derive(Clone, Copy, PartialEq, Eq)]
pub enum Stop {
    Held = 16,
    NotHeld = 17,
    Full = 18,
}

// Why a step was turned down: its thread is not started or has ended, or the statement's operation was stopped.
#[derive(Clone, Copy)]
pub enum TurnedDown {
    NotStarted,
    Ended,
    Stopped { statement: Statement, why: Stop },
}

impl TurnedDown {
    // Its number, 14 to 18; that of a `Stop` by `as`, the one way from an enum to its numbers.
    pub fn number(self) -> u8
        ensures { result ≡ refusal_number self }
    {
        match self {
            TurnedDown::NotStarted => 14,
            TurnedDown::Ended => 15,
            TurnedDown::Stopped { statement: _, why } => why as u8,
        }
    }
}

// What a step is answered with: the statement that ran, or why none did.
pub type Step = Result<Statement, TurnedDown>;

// What an operation leaves: its frame goes to a statement, which the caller stores; with none its frame is closed; or it was stopped, and nothing has
// changed.
pub type Move = Result<Option<usize>, Stop>;

// The frame goes on to the next statement.
fn going_on(at: Place) -> Move
    ensures { result ≡ on at }
{
    Ok(Some(at.next + 1))
}

// READ: "accumulator becomes the cell's value".
pub fn read(h: usize, at: Place, cells: usize, state: &mut State) -> Move
    requires { cells ≤ 64 }
    ensures { (result ≡ on at) × (state.new ≡ record state.old { accumulators = set state.old.accumulators at.thread (get_or (cells_in cells state.old) (get_or state.old.values (value_place at.slot h) 0) (pos 0)) }) }
{
    let x = value_of(&state.values, at.slot, h);
    state.accumulators[at.thread] = state.cell(cells, x);
    going_on(at)
}

// WRITE: "cell becomes the accumulator".
pub fn write(h: usize, at: Place, cells: usize, state: &mut State) -> Move
    requires { cells ≤ 64 }
    ensures { (result ≡ on at) × (state.new ≡ put_cell cells state.old (get_or state.old.values (value_place at.slot h) 0) (get_or state.old.accumulators at.thread (pos 0))) }
{
    let x = value_of(&state.values, at.slot, h);
    state.put_cell(cells, x, state.accumulators[at.thread]);
    going_on(at)
}

// SET: "accumulator becomes it".
pub fn set(number: i32, at: Place, state: &mut State) -> Move
    ensures { (result ≡ on at) × (state.new ≡ record state.old { accumulators = set state.old.accumulators at.thread number }) }
{
    state.accumulators[at.thread] = number;
    going_on(at)
}

// ADD: "added", and "stops at 2,147,483,647 and at -2,147,483,648".
pub fn add(number: i32, at: Place, state: &mut State) -> Move
    ensures { (result ≡ on at) × (state.new ≡ record state.old { accumulators = set state.old.accumulators at.thread (saturate (get_or state.old.accumulators at.thread (pos 0) +ℤ number)) }) }
{
    let sum = saturating_sum(state.accumulators[at.thread], number);
    state.accumulators[at.thread] = sum;
    going_on(at)
}

// POINT: "h refers to what g refers to".
pub fn point(h: usize, g: usize, at: Place, state: &mut State) -> Move
    ensures { (result ≡ on at) × (state.new ≡ record state.old { values = set state.old.values (value_place at.slot h) (get_or state.old.values (value_place at.slot g) 0) }) }
{
    let v = value_of(&state.values, at.slot, g);
    put_value(&mut state.values, at.slot, h, v);
    going_on(at)
}

// CALL: "opens a frame". There is a slot for it: "32 frames always suffice".
pub fn call(
    loaded: &Loaded<'_>,
    routine: usize,
    arguments: Arguments,
    at: Place,
    state: &mut State,
) -> Move
    requires { (routine < 32) × Newest at (get_or state.old.counts at.thread 0) × (get_or state.old.counts at.thread 0 < frame_slots) }
    ensures { Called loaded.now.program routine arguments at result state.old state.new }
{
    let program = &loaded.program;
    let slot = at.slot + 1;
    // stored before the frame is entered, as in START: entered first, a step that POINTs took twice as long; `as`: see `State`
    state.nexts[slot] = program.extents.first[routine] as u32;
    state.counts[at.thread] += 1;
    enter(loaded, routine, arguments, &mut state.values, slot, at.slot);
    going_on(at)
}

// START: "adds a thread"; it is stopped where 16 are started.
pub fn start(
    loaded: &Loaded<'_>,
    routine: usize,
    arguments: Arguments,
    at: Place,
    state: &mut State,
) -> Move
    requires { (routine < 32) × (at.slot < state.old.started * 32) }
    ensures { Started loaded.now.program routine arguments at result state.old state.new }
{
    let n = state.started;
    if 16 <= n {
        return Err(Stop::Full);
    }
    let program = &loaded.program;
    // `as`: see `State`
    state.nexts[n * 32] = program.extents.first[routine] as u32;
    state.counts[n] = 1;
    state.started = n + 1;
    state.accumulators[n] = 0;
    enter(
        loaded,
        routine,
        arguments,
        &mut state.values,
        n * 32,
        at.slot,
    );
    going_on(at)
}

// JUMPZ: "goes there if the accumulator is zero, else on".
pub fn jump_zero(s: usize, at: Place, state: &State) -> Move
    ensures { result ≡ Ok (Some (cond (is_zero (get_or state.now.accumulators at.thread (pos 0))) s (at.next + 1))) }
{
    if state.accumulators[at.thread] == 0 {
        Ok(Some(s))
    } else {
        going_on(at)
    }
}

// RETURN: "closes the frame"; as many stay open as are older.
pub fn close(at: Place, state: &mut State) -> Move
    requires { Newest at (get_or state.old.counts at.thread 0) }
    ensures { (result ≡ Ok None) × (state.new ≡ record state.old { counts = set state.old.counts at.thread (get_or state.old.counts at.thread 0 - 1) }) }
{
    state.counts[at.thread] -= 1;
    Ok(None)
}
