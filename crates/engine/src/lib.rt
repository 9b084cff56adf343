#![tactic(auto)]
// The stepping engine: runs a schedule over a table text and leaves the answers and the cells.
// Text, schedule, answers and cells are lent apart, as C lends them, and the room for the numbers beside the text, since there is no heap.
ghost use Rattle.std.specs.Prelude.{◌≡◌, ◌++◌, ◌*◌, ◌≤◌, length, drop};
ghost use Rattle.lines.specs.Line.{line_count};
ghost use Rattle.table.specs.Header.{statements, statement_line};
ghost use Rattle.table.specs.Table.{table_of};
ghost use Rattle.table.specs.Accepted.{Accepted};
ghost use Rattle.machine.specs.State.{start};
ghost use Rattle.machine.specs.Engine.{engine_run, answers as answersOf};
ghost use Rattle.engine.specs.Run.{outcome_of, answers_left, cells_left};

use declarations::outline::Extents;
use declarations::program::Program;
use run_state::{Loaded, State};
use table::Refusal;

// The run of an accepted table by a schedule, with a list that is as long as the table has cells. Not inlined, so that its state is not on the stack while the
// text is read.
#[inline(never)]
fn run_accepted(numbers: &[i32], schedule: &[u8], answers: &mut [u8], cells: &mut [i32])
    requires { Accepted (table_of numbers.now) × (length numbers.now ≡ 8 * statement_line numbers.now (statements numbers.now)) × (length schedule.now ≤ length answers.old) × (length cells.old ≡ (table_of numbers.now).cells) }
    ensures answers_after { answers.new ≡ answersOf (table_of numbers.now) (start (table_of numbers.now)) schedule.now ++ drop (length schedule.now) answers.old }
    ensures cells_after { cells.new ≡ (engine_run (table_of numbers.now) (start (table_of numbers.now)) schedule.now).cells }
{
    let extents = Extents::of(numbers);
    let loaded = Loaded::new(Program::new(numbers, &extents));
    let mut state = State::new();
    run_state::begin(&loaded, &mut state);
    steps::follow(&loaded, schedule, answers, &mut state);
    state.leave(cells);
}

// `run`, with a list that has room for the text's numbers.
fn run_in(
    text: &[u8],
    numbers: &mut [i32],
    schedule: &[u8],
    answers: &mut [u8],
    cells: &mut [i32],
) -> Result<(), Refusal>
    requires { length numbers.old ≡ 8 * line_count text.now }
    ensures outcome { result ≡ outcome_of text.now schedule.now answers.old cells.old }
    ensures answered { answers.new ≡ answers_left text.now schedule.now answers.old cells.old }
    ensures left { cells.new ≡ cells_left text.now schedule.now answers.old cells.old }
{
    reader::read_into(text, numbers)?;
    let count = table::counts_of(numbers).cells;
    if answers.len() < schedule.len() {
        return Err(Refusal::Room);
    }
    if cells.len() < count {
        return Err(Refusal::Room);
    }
    run_accepted(numbers, schedule, answers, &mut cells[..count]);
    Ok(())
}

// `run`, with room for N numbers: the list for a text of few lines is soon cleared.
fn run_sized<const N: usize>(
    text: &[u8],
    schedule: &[u8],
    answers: &mut [u8],
    cells: &mut [i32],
) -> Result<(), Refusal>
    requires { (8 * line_count text.now ≤ N) × (N ≤ 5384) }
    ensures outcome { result ≡ outcome_of text.now schedule.now answers.old cells.old }
    ensures answered { answers.new ≡ answers_left text.now schedule.now answers.old cells.old }
    ensures left { cells.new ≡ cells_left text.now schedule.now answers.old cells.old }
{
    let mut numbers = [0i32; N];
    let count = 8 * lines::line_count(text);
    run_in(text, &mut numbers[..count], schedule, answers, cells)
}

// Runs a schedule, each byte a thread number, over a table text. Accepted: one answer for each byte stands in the first places of `answers`, and the
// final cell values in the first places of `cells`. Refused: both are as they were. Places past those written keep their contents.
pub fn run(
    text: &[u8],
    schedule: &[u8],
    answers: &mut [u8],
    cells: &mut [i32],
) -> Result<(), Refusal>
    ensures outcome { result ≡ outcome_of text.now schedule.now answers.old cells.old }
    ensures answered { answers.new ≡ answers_left text.now schedule.now answers.old cells.old }
    ensures left { cells.new ≡ cells_left text.now schedule.now answers.old cells.old }
{
    if lines::line_count(text) <= 64 {
        return run_sized::<512>(text, schedule, answers, cells);
    }
    run_sized::<5384>(text, schedule, answers, cells)
}
