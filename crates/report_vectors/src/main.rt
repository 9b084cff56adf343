// Prints the report of each table text that an argument names, line 50 for a refused one, one behind the other.
#![tactic(auto)]

use std::io;
use std::rt::Files;

fn print_answer(rt: &impl Print, text: &[u8]) -> io::Result<()> {
    let mut out = [0u8; 65536];
    let bytes = answer::print_answer(text, &mut out);
    rt.write_all(&out[..bytes])
}

// One argument: the report of the file that it names.
fn try_argument(rt: &(impl Files + Print + Eprint), path: &[u8]) -> io::Result<()> {
    run_printer::with_file(rt, path, |text| print_answer(rt, text))?;
    Ok(())
}

fn main(rt: HostRuntime) -> io::Result<()> {
    run_printer::each_argument(&rt, |path| try_argument(&rt, path))
}
