// Steps called from a program: two tables of data/ are stepped in turn, each by its schedule and in a state of its own; then each is run by itself. What
// both ways answer and leave is printed. Last a chain of 32 routines, with the frames that its threads have open behind each step: 32 at the deepest.
// Two texts and two schedules are four lists of the caller's, lent on as they are; where to print goes beside what is printed.
#![tactic(auto)]

ghost use Rattle.std.specs.Prelude.{◌≡◌, ◌*◌, ◌<◌, ◌≤◌, length};
ghost use Rattle.lines.specs.Line.{line_count};
ghost use Rattle.table.specs.Header.{statements, statement_line};
ghost use Rattle.table.specs.Table.{table_of};
ghost use Rattle.table.specs.Accepted.{Accepted};
ghost use Rattle.run_state.specs.Shown.{Standing};

use declarations::outline::Extents;
use declarations::program::Program;
use run_printer::{load, say_words};
use run_state::{Loaded, State};
use std::io;
use std::rt::Files;

// A text and numbers behind it, a space before each.
fn say_numbers(rt: &impl Print, text: &[u8], numbers: &[u8]) -> io::Result<()> {
    say_words(&mut io::writer(rt), text, |tail| tail.put_answers(numbers))
}

// `, cells` and the values of the cells, a space before each; a line feed.
fn say_left(rt: &impl Print, cells: &[i32]) -> io::Result<()> {
    say_words(&mut io::writer(rt), b", cells", |tail| {
        tail.put_text(b"\n");
        tail.put_values(cells);
    })
}

// The cells of a run.
fn show_left(rt: &impl Print, loaded: &Loaded<'_>, state: &State) -> io::Result<()> {
    // named for the proof, which then knows that the table is accepted
    let _ = &loaded.program.base;
    let mut cells = [0i32; 64];
    let own = &mut cells[..loaded.cells];
    state.leave(own);
    say_left(rt, own)
}

// Step `i` of a schedule, by the byte that answers it; past the schedule's end 0, which is never printed.
fn step_at(loaded: &Loaded<'_>, schedule: &[u8], i: usize, state: &mut State) -> u8
    requires { Standing (table_of loaded.now.program) state.old }
    ensures { Standing (table_of loaded.now.program) state.new }
{
    match schedule.get(i) {
        Some(n) => {
            let answer = steps::step(loaded, usize::from(*n), state);
            steps::answer_byte(answer)
        }
        None => 0,
    }
}

// Two accepted tables in turn: a step of the one by its schedule, a step of the other by its own.
fn take_turns(rt: &impl Print, a: &[i32], b: &[i32], one: &[u8], other: &[u8]) -> io::Result<()>
    requires { Accepted (table_of a.now) × (length a.now ≡ 8 * statement_line a.now (statements a.now)) × Accepted (table_of b.now) × (length b.now ≡ 8 * statement_line b.now (statements b.now)) }
{
    let extents_a = Extents::of(a);
    let loaded_a = Loaded::new(Program::new(a, &extents_a));
    let mut state_a = State::new();
    run_state::begin(&loaded_a, &mut state_a);
    let extents_b = Extents::of(b);
    let loaded_b = Loaded::new(Program::new(b, &extents_b));
    let mut state_b = State::new();
    run_state::begin(&loaded_b, &mut state_b);
    let mut answers_a = [0u8; 300];
    let mut answers_b = [0u8; 300];
    for i in 0..300 {
        answers_a[i] = step_at(&loaded_a, one, i, &mut state_a);
        answers_b[i] = step_at(&loaded_b, other, i, &mut state_b);
    }
    say_numbers(rt, b"answers", lists::front(&answers_a, one.len()))?;
    show_left(rt, &loaded_a, &state_a)?;
    say_numbers(rt, b"answers", lists::front(&answers_b, other.len()))?;
    show_left(rt, &loaded_b, &state_b)
}

// Two texts in turn, with lists that have room for their numbers; nothing where one is refused.
fn in_turn(
    rt: &impl Print,
    text: &[u8],
    a: &mut [i32],
    second: &[u8],
    b: &mut [i32],
    one: &[u8],
    other: &[u8],
) -> io::Result<()>
    requires { (length a.old ≡ 8 * line_count text.now) × (length b.old ≡ 8 * line_count second.now) }
{
    match reader::read_into(text, a).and(reader::read_into(second, b)) {
        Ok(()) => take_turns(rt, a, b, one, other),
        Err(_) => Ok(()),
    }
}

// Two texts of at most 64 lines in turn.
fn show_turns(
    rt: &impl Print,
    text_a: &[u8],
    text_b: &[u8],
    one: &[u8],
    other: &[u8],
) -> io::Result<()> {
    let lines_a = lines::line_count(text_a);
    let lines_b = lines::line_count(text_b);
    if 64 < lines_a {
        return Ok(());
    }
    if 64 < lines_b {
        return Ok(());
    }
    let mut numbers_a = [0i32; 512];
    let mut numbers_b = [0i32; 512];
    let count_a = 8 * lines_a;
    let count_b = 8 * lines_b;
    in_turn(
        rt,
        text_a,
        &mut numbers_a[..count_a],
        text_b,
        &mut numbers_b[..count_b],
        one,
        other,
    )
}

// A run by itself: its answers, and as many cells as its header says; nothing of them where it says more than a table can have.
fn show_alone(rt: &impl Print, text: &[u8], schedule: &[u8]) -> io::Result<()> {
    let mut answers = [0u8; 300];
    let mut cells = [0i32; 64];
    let _ = engine::run(text, schedule, &mut answers, &mut cells);
    say_numbers(rt, b"answers", lists::front(&answers, schedule.len()))?;
    let count = table::cell_count(text);
    if cells.len() < count {
        return Ok(());
    }
    say_left(rt, &cells[..count])
}

// The tables and schedules of these names, in turn and by themselves.
fn show_pair(
    rt: &(impl Files + Print + Eprint),
    table_a: &[u8],
    schedule_a: &[u8],
    table_b: &[u8],
    schedule_b: &[u8],
) -> io::Result<()> {
    let mut text_a = [0u8; 3136];
    let mut text_b = [0u8; 3136];
    let mut one = [0u8; 300];
    let mut other = [0u8; 300];
    let n = load(rt, table_a, &mut text_a)?;
    let m = load(rt, table_b, &mut text_b)?;
    let k = load(rt, schedule_a, &mut one)?;
    let l = load(rt, schedule_b, &mut other)?;
    show_turns(rt, &text_a[..n], &text_b[..m], &one[..k], &other[..l])?;
    show_alone(rt, &text_a[..n], &one[..k])?;
    show_alone(rt, &text_b[..m], &other[..l])
}

// The frames open behind steps: a line for each of two threads.
fn say_frames(rt: &impl Print, frames: &[u8], others: &[u8]) -> io::Result<()> {
    say_numbers(rt, b"frames of thread 0:", frames)?;
    say_numbers(rt, b"\nframes of thread 1:", others)?;
    rt.write_all(b"\n")
}

// How many frames thread `n` has open, 32 at most; by `as`, since `TryFrom` has an error that cannot come.
fn frames_of(state: &State, n: usize) -> u8
    requires { n < 16 }
{
    (state.counts[n] & 255) as u8
}

// An accepted table by a schedule: the frames that threads 0 and 1 have open behind each step, the answers, and the cells.
fn count_frames(rt: &impl Print, numbers: &[i32], schedule: &[u8]) -> io::Result<()>
    requires { Accepted (table_of numbers.now) × (length numbers.now ≡ 8 * statement_line numbers.now (statements numbers.now)) }
{
    let extents = Extents::of(numbers);
    let loaded = Loaded::new(Program::new(numbers, &extents));
    let mut state = State::new();
    run_state::begin(&loaded, &mut state);
    let mut frames = [0u8; 300];
    let mut others = [0u8; 300];
    let mut answers = [0u8; 300];
    for i in 0..300 {
        answers[i] = step_at(&loaded, schedule, i, &mut state);
        frames[i] = frames_of(&state, 0);
        others[i] = frames_of(&state, 1);
    }
    let count = schedule.len();
    say_frames(
        rt,
        lists::front(&frames, count),
        lists::front(&others, count),
    )?;
    say_numbers(rt, b"answers", lists::front(&answers, count))?;
    show_left(rt, &loaded, &state)
}

// A text, with a list that has room for its numbers; nothing where it is refused.
fn count_in(rt: &impl Print, text: &[u8], numbers: &mut [i32], schedule: &[u8]) -> io::Result<()>
    requires { length numbers.old ≡ 8 * line_count text.now }
{
    match reader::read_into(text, numbers) {
        Ok(()) => count_frames(rt, numbers, schedule),
        Err(_) => Ok(()),
    }
}

// A text of at most 256 lines.
fn show_frames(rt: &impl Print, text: &[u8], schedule: &[u8]) -> io::Result<()> {
    let count = lines::line_count(text);
    if 256 < count {
        return Ok(());
    }
    let mut numbers = [0i32; 2048];
    count_in(rt, text, &mut numbers[..8 * count], schedule)
}

// The chain of 32 routines: thread 0 comes to 32 frames, thread 1 to 31.
fn show_deep(rt: &(impl Files + Print + Eprint)) -> io::Result<()> {
    let mut text = [0u8; 12544];
    let mut schedule = [0u8; 300];
    let n = load(rt, b"deep.table", &mut text)?;
    let k = load(rt, b"deep.schedule", &mut schedule)?;
    show_frames(rt, &text[..n], &schedule[..k])
}

fn main(rt: HostRuntime) -> io::Result<()> {
    show_pair(
        &rt,
        b"016.table",
        b"016.schedule",
        b"036.table",
        b"036.schedule",
    )?;
    show_pair(
        &rt,
        b"031.table",
        b"031.schedule",
        b"032.table",
        b"032.schedule",
    )?;
    show_pair(
        &rt,
        b"010.table",
        b"010.schedule",
        b"006.table",
        b"006.schedule",
    )?;
    show_pair(
        &rt,
        b"020.table",
        b"020.schedule",
        b"005.table",
        b"005.schedule",
    )?;
    show_deep(&rt)
}
