// The runs of data/, each with its answers beside it: RR-NN is run NN of request RR, and 01 is document 01. The engine's number and line, its cells, and at
// how many places of the answers it leaves what is stored, where a refused run has no answers and so the buffer as it was; then the edges: an empty schedule, a sum at the top of the range, and buffers one too short and
// longer than needed. Where to print goes beside what is printed, which is another thing each time. A name is put together by bytes: there is no heap for text.
#![tactic(auto)]

use run_printer::{load, say_words};
use std::io;
use std::rt::Files;
use table::Refusal;

// All the cells, a space before each.
fn say_cells(rt: &impl Print, cells: &[i32]) -> io::Result<()> {
    say_words(
        &mut io::writer(rt),
        b", cells",
        |tail| tail.put_values(cells),
    )
}

// All the answers, a space before each.
fn say_answers(rt: &impl Print, answers: &[u8]) -> io::Result<()> {
    say_words(
        &mut io::writer(rt),
        b", answers",
        |tail| tail.put_answers(answers),
    )
}

// The number and the line of a call.
fn say_outcome(rt: &impl Print, outcome: Result<(), Refusal>) -> io::Result<()> {
    match outcome {
        Ok(()) => print!(rt; "0 line 0"),
        Err(refusal) => print!(rt; "{} line {}", refusal.number(), refusal.line()),
    }
}

// A run of the engine: its number and line, all the answers and all the cells.
fn show(
    rt: &impl Print,
    text: &[u8],
    schedule: &[u8],
    answers: &mut [u8],
    cells: &mut [i32],
) -> io::Result<()> {
    say_outcome(rt, engine::run(text, schedule, answers, cells))?;
    say_answers(rt, answers)?;
    say_cells(rt, cells)?;
    rt.write_all(b"\n")
}

// The number and the line of a call and the cells that it left.
fn say_left(rt: &impl Print, outcome: Result<(), Refusal>, cells: &[i32]) -> io::Result<()> {
    say_outcome(rt, outcome)?;
    say_cells(rt, cells)
}

// At how many places, from the first on, two lists have the same.
fn count_same(answers: &[u8], stored: &[u8]) -> usize {
    answers
        .iter()
        .zip(stored)
        .take_while(|(answer, right)| answer == right)
        .count()
}

// A run of the engine: its number and line, all the cells, and at how many places the answers, with what is behind them, are as stored.
fn show_beside(
    rt: &impl Print,
    text: &[u8],
    schedule: &[u8],
    stored: &[u8],
    answers: &mut [u8],
    cells: &mut [i32],
) -> io::Result<()> {
    say_left(rt, engine::run(text, schedule, answers, cells), cells)?;
    let same = count_same(answers, stored);
    println!(rt; "; {same} of {} places as stored", stored.len())
}

// A table by the schedule and the answers of these names, in buffers longer than any run needs.
fn show_named(
    rt: &(impl Files + Print + Eprint),
    text: &[u8],
    steps: &[u8],
    right: &[u8],
) -> io::Result<()> {
    let mut schedule = [0u8; 40001];
    let mut stored = [99u8; 40001];
    let mut answers = [99u8; 40001];
    let mut cells = [99i32; 66];
    let m = load(rt, steps, &mut schedule)?;
    load(rt, right, &mut stored)?;
    show_beside(rt, text, &schedule[..m], &stored, &mut answers, &mut cells)
}

// Run `i` of the request that two digits name, with its answers beside it. Digits by `as`: `TryFrom` has an error that cannot come.
fn show_run(rt: &(impl Files + Print + Eprint), r: u8, q: u8, i: usize) -> io::Result<()> {
    let tens = (48 + i / 10 % 10) as u8;
    let ones = (48 + i % 10) as u8;
    let table = [r, q, b'-', tens, ones, b'.', b't', b'a', b'b', b'l', b'e'];
    let steps = [
        r, q, b'-', tens, ones, b'.', b's', b'c', b'h', b'e', b'd', b'u', b'l', b'e',
    ];
    let right = [
        r, q, b'-', tens, ones, b'.', b'a', b'n', b's', b'w', b'e', b'r', b's',
    ];
    let mut text = [0u8; 32978];
    let n = load(rt, &table, &mut text)?;
    show_named(rt, &text[..n], &steps, &right)
}

// The first runs of a request, so many.
fn show_runs(rt: &(impl Files + Print + Eprint), r: u8, q: u8, count: usize) -> io::Result<()> {
    for i in 0..count {
        show_run(rt, r, q, i)?;
    }
    Ok(())
}

// The table sum.table adds up to 2,147,483,647 in thread 0, and then 1 in thread 1: the cell stays there.
fn show_sum(rt: &impl Print, text: &[u8]) -> io::Result<()> {
    let mut schedule = [0u8; 6446];
    let mut answers = [99u8; 6446];
    let mut cells = [99i32; 2];
    let outcome = engine::run(text, &schedule[..6443], &mut answers, &mut cells);
    say_left(rt, outcome, &cells)?;
    rt.write_all(b"\n")?;
    schedule[6443] = 1;
    schedule[6444] = 1;
    schedule[6445] = 1;
    let after = engine::run(text, &schedule, &mut answers, &mut cells);
    say_left(rt, after, &cells)?;
    rt.write_all(b"\n")
}

// An empty schedule; buffers that just fit; one answer and one cell too few.
fn show_short(rt: &impl Print, text: &[u8]) -> io::Result<()> {
    let mut answers = [99u8; 3];
    let mut cells = [99i32; 1];
    show(rt, text, b"", &mut answers, &mut cells)?;
    cells[0] = 98;
    show(rt, text, b"\x00\x01\x02", &mut answers, &mut cells)?;
    cells[0] = 98;
    show(rt, text, b"\x00\x00\x00\x00", &mut answers, &mut cells)?;
    show(rt, text, b"\x00\x00\x00", &mut answers, &mut cells[..0])
}

// What sum.table shows at the edges.
fn show_edges(rt: &(impl Files + Print + Eprint)) -> io::Result<()> {
    let mut text = [0u8; 32978];
    let n = load(rt, b"sum.table", &mut text)?;
    show_sum(rt, &text[..n])?;
    show_short(rt, &text[..n])
}

fn main(rt: HostRuntime) -> io::Result<()> {
    show_runs(&rt, b'0', b'1', 41)?;
    show_runs(&rt, b'1', b'7', 21)?;
    show_runs(&rt, b'1', b'8', 84)?;
    show_edges(&rt)
}
