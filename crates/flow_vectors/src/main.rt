// Prints, for each table text that an argument names, a line: the name, and how many passes over the statements the flow sets of the text take.
#![tactic(auto)]

ghost use Rattle.std.specs.Prelude.{◌≡◌, ◌*◌, ◌≤◌, length};
ghost use Rattle.lines.specs.Line.{line_count};
ghost use Rattle.table.specs.Header.{statements};
ghost use Rattle.table.specs.Table.{table_of};
ghost use Rattle.table.specs.Accepted.{Accepted};
ghost use Rattle.report.specs.Layout.{one_each};
ghost use Rattle.report.specs.FlowPasses.{flow_passes};
ghost use Rattle.flow_vectors.specs.Passes.{passes_in};

use declarations::outline::Extents;
use declarations::program::Program;
use std::io;
use std::rt::Files;

// How many passes the flow sets of a program take.
fn passes_through(program: &Program<'_>) -> usize
    requires { 4 * statements program.now ≤ 2048 }
    ensures { result ≡ flow_passes (table_of program.now) (one_each (table_of program.now)) }
{
    let handles = program.handles();
    let mut edges = [0u32; 2048];
    let mut flow = [0u64; 128];
    dataflow::flow_passes(program, &mut edges[..], &mut flow[..handles])
}

// How many passes the flow sets of an accepted table take.
fn passes_of(numbers: &[i32]) -> usize
    requires { Accepted (table_of numbers.now) }
    ensures { result ≡ flow_passes (table_of numbers.now) (one_each (table_of numbers.now)) }
{
    let extents = Extents::of(numbers);
    passes_through(&Program::new(numbers, &extents))
}

// How many passes a text takes, with a list that has room for its numbers; 0 where it is refused, as the definition and the printed line have it, since no accepted
// table takes none.
fn passes_in(text: &[u8], numbers: &mut [i32]) -> usize
    requires { length numbers.old ≡ 8 * line_count text.now }
    ensures { result ≡ passes_in text.now }
{
    match reader::read_into(text, numbers) {
        Ok(()) => passes_of(numbers),
        Err(_) => 0,
    }
}

// How many passes a text takes; 0 where it is refused, as one of more than 673 lines is.
fn passes_for(text: &[u8]) -> usize
    ensures { result ≡ passes_in text.now }
{
    let count = 8 * lines::line_count(text);
    let mut numbers = [0i32; 5384];
    passes_in(text, &mut numbers[..count])
}

// A file's name, a space, how many passes its text takes, and a line feed.
fn print_passes(rt: &impl Print, path: &[u8], text: &[u8]) -> io::Result<()> {
    rt.write_all(path)?;
    println!(rt; " {}", passes_for(text))
}

// One argument: the line of the file that it names.
fn try_argument(rt: &(impl Files + Print + Eprint), path: &[u8]) -> io::Result<()> {
    run_printer::with_file(rt, path, |text| print_passes(rt, path, text))?;
    Ok(())
}

fn main(rt: HostRuntime) -> io::Result<()> {
    run_printer::each_argument(&rt, |path| try_argument(&rt, path))
}
