// For the programs that run tables: numbers, answers and cells as words at the end of a lent buffer, and the bytes of a file.
#![tactic(auto)]
// Bytes by hand and not by `Display`: each byte is promised. `say_refusal` takes a number and a line, as `refusal` does.
// Loops go down by an index, since what is put says how many are left. Casts are by `as` where `From` has no way and `TryFrom` would answer with a `Result` that cannot fail.

ghost use Rattle.std.specs.Prelude.{◌≡◌, ◌<◌, ◌≤◌, [], ◌∷◌, ℕ, List, Err, IfOk, IfErr, IfSome, OnOk, length, take, drop};
ghost use Rattle.fields.specs.Field.{decimal_text};
ghost use Rattle.run_printer.specs.Words.{word_text, answers_text, values_text, cell_text, cells_text};
ghost use Rattle.run_printer.specs.PutBefore.{PutBefore};
ghost use Rattle.std.specs.Io.{ReadsAtMost};
ghost use Rattle.refusal.specs.Refusal.{refusal_in};
ghost use Rattle.std.specs.Io.KnownBytes.{Appends, Consumes, IsAtEnd};
ghost use Rattle.std.specs.Str.{IsUtf8};
ghost use Rattle.std.specs.Fn.{FnReturnsAt};

use std::env::FillError;
use std::io::{Read, Write};
use std::rt::{Env, Files};
use std::{fs, io};

// A lent buffer, and where the text at its end begins. What is put stands before that text, and what has no room there is lost.
#[derive(Drop)]
pub struct Tail<'a> {
    pub out: &'a mut [u8],
    pub start: usize,
}

impl<'a> Tail<'a> {
    // The text so far; none where it begins past the buffer's end.
    pub fn text(&self) -> &[u8]
        ensures { result.now ≡ drop self.now.start self.now.out.now }
    {
        self.out.get(self.start..).unwrap_or(&[])
    }

    // Puts one byte.
    fn put_byte(&mut self, byte: u8)
        ensures { PutBefore self.old self.new (byte ∷ []) }
    {
        let Some(place) = self.start.checked_sub(1) else {
            return;
        };
        if place < self.out.len() {
            self.out[place] = byte;
        }
        self.start = place;
    }

    // Puts the bytes of a text. This loop and the three below are one call each: a function that takes the call as a closure is no plainer.
    pub fn put_text(&mut self, text: &[u8])
        ensures { PutBefore self.old self.new text.now }
    {
        for i in (0..text.len()).rev() {
            self.put_byte(text[i]);
        }
    }

    // Puts the digits of a number. No loop over an index: it divides the number until one digit is left.
    fn put_digits(&mut self, n: u64)
        ensures { PutBefore self.old self.new (decimal_text 20 n) }
    {
        let mut m = n;
        while 10 <= m {
            self.put_byte(b'0' + (m % 10) as u8);
            m = m / 10;
        }
        self.put_byte(b'0' + m as u8);
    }

    // Puts a space and the number.
    fn put_number(&mut self, x: i32)
        ensures { PutBefore self.old self.new (word_text x) }
    {
        self.put_digits(u64::from(x.unsigned_abs()));
        if x < 0 {
            self.put_text(b" -");
        } else {
            self.put_byte(b' ');
        }
    }

    // Puts the answers to steps, a space before each.
    pub fn put_answers(&mut self, answers: &[u8])
        ensures { PutBefore self.old self.new (answers_text answers.now) }
    {
        for i in (0..answers.len()).rev() {
            self.put_number(i32::from(answers[i]));
        }
    }

    // Puts the values of cells, a space before each.
    pub fn put_values(&mut self, values: &[i32])
        ensures { PutBefore self.old self.new (values_text values.now) }
    {
        for i in (0..values.len()).rev() {
            self.put_number(values[i]);
        }
    }

    // Puts a cell and its value: `cell K V` and a line feed.
    fn put_cell(&mut self, cell: usize, value: i32)
        ensures { PutBefore self.old self.new (cell_text cell value) }
    {
        self.put_byte(b'\n');
        self.put_number(value);
        // By `as`: std has no `u64::from` of a usize, and `try_from` has an error that cannot come.
        self.put_digits(cell as u64);
        self.put_text(b"cell ");
    }

    // Puts a line for each cell, from cell 0 on.
    pub fn put_cells(&mut self, cells: &[i32])
        ensures { PutBefore self.old self.new (cells_text cells.now) }
    {
        for i in (0..cells.len()).rev() {
            self.put_cell(i, cells[i]);
        }
    }
}

// Writes line 50: the number and the line of a refusal; nothing where one of them is no field of a line.
pub fn say_refusal<W: Write>(out: &mut W, number: u32, line: usize) -> io::Result<()>
    ensures { OnOk result (Appends (W.contents out.old) (W.contents out.new) (refusal_in number line 49)) }
{
    let mut bytes = [0u8; 49];
    let n = refusal::print_refusal(&mut bytes, number, line);
    out.write_all(&bytes[..n])
}

// Opens the file of a name that is text; none where it cannot be opened, which is said on standard error.
fn open_text<R: Files + Eprint>(rt: &R, path: &str) -> io::Result<Option<R::File>> {
    match fs::open(rt, path) {
        Ok(file) => Ok(Some(file)),
        Err(error) => {
            eprintln!(rt; "{path}: {error}")?;
            Ok(None)
        }
    }
}

// Opens a file to be read; none where it cannot be opened, which is said on standard error. A name that is not UTF-8 cannot be.
pub fn open<R: Files + Eprint>(rt: &R, path: &[u8]) -> io::Result<Option<R::File>>
    ensures { IfOk result (λ file. IfSome file (λ opened. IsUtf8 path.now)) }
{
    match str::from_utf8(path) {
        Ok(name) => open_text(rt, name),
        Err(error) => {
            eprintln!(rt; "the name of a file: {error}")?;
            Ok(None)
        }
    }
}

// Reads until the buffer is full or the input ends, and says how many bytes it put at the buffer's start: std's `read_exact` fails where the input
// ends, and its `read_to_end` allocates.
pub fn read_full<R: Read>(input: &mut R, buffer: &mut [u8]) -> io::Result<usize>
    ensures count { ReadsAtMost result buffer.new }
    ensures bytes { IfOk result (λ n. Consumes (R.remaining input.old) (R.remaining input.new) (take n buffer.new)) }
    ensures end { IfOk result (λ n. n < length buffer.new → IsAtEnd (R.remaining input.new)) }
{
    let mut done = 0;
    while done < buffer.len() {
        let n = input.read(&mut buffer[done..])?;
        if n == 0 {
            return Ok(done);
        }
        done += n;
    }
    Ok(done)
}

// The bytes of a file, as many as the buffer takes; none where it cannot be opened, which is said on standard error. (0 and no `Option`: a program goes on with
// an empty file then.)
pub fn load<R: Files + Eprint>(rt: &R, path: &[u8], buffer: &mut [u8]) -> io::Result<usize>
    ensures { ReadsAtMost result buffer.new }
{
    match open(rt, path)? {
        Some(mut file) => read_full(&mut file, buffer),
        None => Ok(0),
    }
}

// Hands the bytes of a file, 65,536 at most, to `take`; none where it cannot be opened, which is said on standard error, as a name that is not UTF-8 cannot be.
// What a file holds no contract of std's says.
pub fn with_file<R: Files + Eprint, F: FnOnce(&[u8]) -> io::Result<()>>(
    rt: &R,
    path: &[u8],
    take: F,
) -> io::Result<Option<()>>
    requires { F.IsAlwaysCallable take }
    ensures { IfOk result (λ taken. IfSome taken (λ done. IsUtf8 path.now)) }
{
    let Some(mut file) = open(rt, path)? else {
        return Ok(None);
    };
    let mut bytes = [0u8; 65536];
    let n = read_full(&mut file, &mut bytes)?;
    take(&bytes[..n])?;
    Ok(Some(()))
}

// Writes a text and behind it what `put` puts, 2,048 bytes at most.
pub fn say_words<W: Write, F: FnOnce(&mut Tail<'_>)>(
    to: &mut W,
    text: &[u8],
    put: F,
) -> io::Result<()>
    requires { F.IsAlwaysCallable put }
    ensures { (put_there : Tail) × (said : Tail) × PutBefore put_there said text.now × OnOk result (Appends (W.contents to.old) (W.contents to.new) (drop said.start said.out.now)) }
{
    let mut out = [0u8; 2048];
    let mut tail = Tail {
        out: &mut out,
        start: 2048,
    };
    put(&mut tail);
    tail.put_text(text);
    to.write_all(tail.text())
}

// Reads argument `i` into a buffer, and says how many bytes it has; none where there is no such argument. One that is longer than the buffer counts as empty.
pub fn read_argument<R: Env>(rt: &R, i: usize, buffer: &mut [u8]) -> Option<usize>
    ensures { IfSome result (λ n. n ≤ length buffer.new) }
{
    match rt.arg(i, buffer) {
        Ok(n) => Some(n),
        Err(FillError::TooLong) => Some(0),
        Err(FillError::NotPresent) => None,
    }
}

// Hands each argument in turn to `each`, as `read_argument` reads it, until a call fails. That none is left out is not said: what the
// arguments are no contract of std's says.
pub fn each_argument<R: Env, F: Fn(&[u8]) -> io::Result<()>>(rt: &R, each: F) -> io::Result<()>
    requires { F.IsAlwaysCallable each }
    ensures { IfErr result (λ e. (argument : List ℕ) × FnReturnsAt F.Fn each argument (Err e)) }
{
    let mut argument = [0u8; 4096];
    for i in 1..usize::MAX {
        let Some(n) = read_argument(rt, i, &mut argument) else {
            break;
        };
        each(&argument[..n])?;
    }
    Ok(())
}
