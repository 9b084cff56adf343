// Reads and prints fields, lines and pages, and writes what came out. Where to print goes beside what is printed, which is another thing each time.
#![tactic(auto)]

use line_printer::PrintError;
use std::io;

// Eight numbers as a printed line.
fn show_numbers(rt: &impl Print, numbers: [i32; 8]) -> io::Result<()> {
    let mut out = [b'?'; 49];
    let _ = line_printer::print_line(&mut out, 0, numbers);
    rt.write_all(&out)
}

// A field, and its number as the first of a line.
fn show_field(rt: &impl Print, text: &[u8]) -> io::Result<()> {
    rt.write_all(b"[")?;
    rt.write_all(text)?;
    rt.write_all(b"] ")?;
    match fields::read_field(text, 0) {
        Some(z) => show_numbers(rt, [z, 0, 0, 0, 0, 0, 0, 0]),
        None => rt.write_all(b"bad\n"),
    }
}

// The line at a place of a text.
fn show_line(rt: &impl Print, text: &[u8], at: usize) -> io::Result<()> {
    match lines::read_line(text, at) {
        Some(numbers) => {
            rt.write_all(b"line ")?;
            show_numbers(rt, numbers)
        }
        None => rt.write_all(b"line bad\n"),
    }
}

// The first bad line of a text, or that there is none.
fn show_page(rt: &impl Print, text: &[u8]) -> io::Result<()> {
    match lines::read_page(text) {
        Ok(_) => rt.write_all(b"page good\n"),
        Err(i) => {
            rt.write_all(b"page bad at line ")?;
            println!(rt; "{i}")
        }
    }
}

// What printing into sixty dots from a place on answers and leaves.
fn show_printed(rt: &impl Print, at: usize, numbers: [i32; 8]) -> io::Result<()> {
    let mut out = [b'.'; 60];
    match line_printer::print_line(&mut out, at, numbers) {
        Ok(()) => rt.write_all(b"whole ")?,
        Err(PrintError::NoRoom) => rt.write_all(b"no room ")?,
        Err(PrintError::NoField) => rt.write_all(b"no field ")?,
    }
    rt.write_all(&out)?;
    rt.write_all(b"\n")
}

fn good_fields(rt: &impl Print) -> io::Result<()> {
    show_field(rt, b"999999")?;
    show_field(rt, b"-99999")?;
    show_field(rt, b"     0")?;
    show_field(rt, b"     7")?;
    show_field(rt, b"    -1")?;
    show_field(rt, b"100000")?;
    show_field(rt, b"-10000")?;
    show_field(rt, b"   120")
}

fn bad_fields(rt: &impl Print) -> io::Result<()> {
    show_field(rt, b"    -0")?;
    show_field(rt, b"    +1")?;
    show_field(rt, b"    01")?;
    show_field(rt, b"   1 2")?;
    show_field(rt, b"      ")?;
    show_field(rt, b"     -")?;
    show_field(rt, b"   - 5")?;
    show_field(rt, b"   -01")?;
    show_field(rt, b"    00")?;
    show_field(rt, b"\t    1")?;
    show_field(rt, b"    1\r")?;
    show_field(rt, b"-00001")?;
    show_field(rt, b"000000")?;
    show_field(rt, b"1     ")?;
    show_field(rt, b"   --1")?;
    show_field(rt, b"    1/")?;
    show_field(rt, b"    1:")?;
    show_field(rt, b"  1\n 2")?;
    show_field(rt, b"    1")?;
    show_field(rt, b"")
}

fn read_lines(rt: &impl Print) -> io::Result<()> {
    let text =
        b"     1    -2     3999999-99999     0    70 65535\n     1     2     3     4     5     6     7     8\n";
    show_line(rt, text, 0)?;
    show_line(rt, text, 49)?;
    show_line(rt, text, 1)?;
    show_line(rt, text, 50)?;
    show_line(rt, text, 18446744073709551615)?;
    show_line(rt, b"     1     2     3     4     5     6     7    08\n", 0)?;
    show_line(rt, b"     1     2     3     4     5     6     7     8 ", 0)?;
    show_line(rt, b"     1     2     3     4     5     6     7     8", 0)?;
    show_line(
        rt,
        b"     1     2     3     4     5     6     7     8\r\n",
        0,
    )
}

fn read_pages(rt: &impl Print) -> io::Result<()> {
    show_page(rt, b"")?;
    show_page(
        rt,
        b"     1     2     3     4     5     6     7     8\n     1     2     3     4     5     6     7     8\n",
    )?;
    show_page(
        rt,
        b"     1     2     3     4     5     6     7     8\n     1     2     3     4     5     6     7     8.",
    )?;
    show_page(
        rt,
        b"     1     2     3     4     5     6     7    +8\n     1     2     3     4     5     6     7     x\n",
    )?;
    show_page(
        rt,
        b"     1     2     3     4     5     6     7     8\n     1    --",
    )
}

fn print_lines(rt: &impl Print) -> io::Result<()> {
    let numbers = [1, -2, 3, 999999, -99999, 0, 70, 65535];
    show_printed(rt, 0, numbers)?;
    show_printed(rt, 5, numbers)?;
    show_printed(rt, 11, numbers)?;
    show_printed(rt, 12, numbers)?;
    show_printed(rt, 18446744073709551615, numbers)?;
    show_printed(rt, 0, [1000000, 0, 0, 0, 0, 0, 0, 0])?;
    show_printed(rt, 0, [0, 0, 0, 0, 0, 0, 0, -100000])?;
    show_printed(rt, 12, [0, 0, 0, -2147483648, 0, 0, 0, 0])
}

fn main(rt: HostRuntime) -> io::Result<()> {
    good_fields(&rt)?;
    bad_fields(&rt)?;
    read_lines(&rt)?;
    read_pages(&rt)?;
    print_lines(&rt)
}
