// Reads a table text from standard input, or from the file that its first argument names, and prints its report; on refusal line 50.
#![tactic(auto)]

ghost use Rattle.std.specs.Prelude.{IfSome, OnOk};
ghost use Rattle.std.specs.Io.KnownBytes.{Appends};
ghost use Rattle.answer.specs.Said.{said_of};

use std::io;
use std::io::{Read, Write};

// Reads a text to its end, or past the longest one, and prints what is said of it.
fn check_file<R: Read, W: Write>(file: &mut R, out: &mut W) -> io::Result<()>
    ensures { OnOk result (IfSome (R.remaining file.old) (λ text. Appends (W.contents out.old) (W.contents out.new) (said_of text 65536))) }
{
    let mut text = [0u8; 65536];
    let count = run_printer::read_full(file, &mut text)?;
    let mut said = [0u8; 65536];
    let bytes = answer::print_answer(&text[..count], &mut said);
    out.write_all(&said[..bytes])
}

fn main(rt: HostRuntime) -> io::Result<()> {
    let mut out = io::writer(&rt);
    let mut path = [0u8; 4096];
    let Some(n) = run_printer::read_argument(&rt, 1, &mut path) else {
        return check_file(&mut rt.reader(), &mut out);
    };
    let Some(mut file) = run_printer::open(&rt, &path[..n])? else {
        return Ok(());
    };
    check_file(&mut file, &mut out)
}
