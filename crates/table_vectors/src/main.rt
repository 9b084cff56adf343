// Reads each table text that an argument names, and prints its name and then line 50 of its refusal, or that it is accepted.
#![tactic(auto)]

use std::io;
use std::rt::Files;

fn print_verdict(rt: &impl Print, text: &[u8]) -> io::Result<()> {
    match reader::read(text) {
        Ok(_) => println!(rt; "accepted"),
        Err(refusal) => run_printer::say_refusal(
            &mut io::writer(rt),
            refusal.number(),
            refusal.line(),
        ),
    }
}

// One argument: the file's name, and what is said of its text.
fn try_argument(rt: &(impl Files + Print + Eprint), path: &[u8]) -> io::Result<()> {
    rt.write_all(path)?;
    rt.write_all(b"\n")?;
    run_printer::with_file(rt, path, |text| print_verdict(rt, text))?;
    Ok(())
}

fn main(rt: HostRuntime) -> io::Result<()> {
    run_printer::each_argument(&rt, |path| try_argument(&rt, path))
}
