// Steps a table by a schedule and prints a line a step: 55, thread, answer, five zeros, and then each cell's value; or line 50 on refusal. The first argument names a file with the
// table text, the second a file with the schedule, each byte a thread number. Where to print goes beside what is printed, which is another thing each time.
#![tactic(auto)]

use std::io;
use std::rt::{Env, Files};

// One step: its thread and its answer.
fn print_step(rt: &impl Print, thread: u8, answer: u8) -> io::Result<()> {
    let mut out = [0u8; 49];
    let _ = line_printer::print_line(
        &mut out[..],
        0,
        [55, i32::from(thread), i32::from(answer), 0, 0, 0, 0, 0],
    );
    rt.write_all(&out[..])
}

fn print_steps(rt: &impl Print, schedule: &[u8], answers: &[u8]) -> io::Result<()> {
    for (thread, answer) in schedule.iter().zip(answers) {
        print_step(rt, *thread, *answer)?;
    }
    Ok(())
}

// The cells of an accepted text: as many as its header says, 20 bytes each at most.
fn print_cells_of(rt: &impl Print, text: &[u8], cells: &[i32]) -> io::Result<()> {
    let own = lists::front(cells, table::cell_count(text));
    run_printer::say_words(&mut io::writer(rt), b"", |tail| tail.put_cells(own))
}

fn step_through(rt: &impl Print, text: &[u8], schedule: &[u8]) -> io::Result<()> {
    let mut answers = [0u8; 65536];
    let mut cells = [0i32; 64];
    match engine::run(text, schedule, &mut answers[..], &mut cells[..]) {
        Ok(()) => {
            print_steps(rt, schedule, &answers[..])?;
            print_cells_of(rt, text, &cells[..])
        }
        Err(refusal) => run_printer::say_refusal(
            &mut io::writer(rt),
            refusal.number(),
            refusal.line(),
        ),
    }
}

// Hands the bytes of the file that argument `i` names to `take`; nothing where it cannot be opened, which is said on standard error. A name
// that is missing or longer than the buffer counts as empty.
fn with_argument<R: Files + Eprint + Env, F: FnOnce(&[u8]) -> io::Result<()>>(
    rt: &R,
    i: usize,
    take: F,
) -> io::Result<()>
    requires { F.IsAlwaysCallable take }
{
    let mut path = [0u8; 4096];
    let n = run_printer::read_argument(rt, i, &mut path).unwrap_or(0);
    run_printer::with_file(rt, &path[..n], take)?;
    Ok(())
}

fn with_table(rt: &(impl Files + Print + Eprint + Env), text: &[u8]) -> io::Result<()> {
    with_argument(rt, 2, |schedule| step_through(rt, text, schedule))
}

fn main(rt: HostRuntime) -> io::Result<()> {
    with_argument(&rt, 1, |text| with_table(&rt, text))
}
