#![tactic(auto)]
// A line of a table text, printed: eight numbers as fields of six characters and a line feed, into a lent buffer.
// Bytes by hand and not by `Display`: there is no heap, and each byte is promised. `print_line` takes the buffer and where in it the line goes: any place is
// taken, past the end too, and of a slice a caller would have to know that it is inside. Casts are by `as` where `From` has no way and `TryFrom` would answer with a `Result` that cannot fail.
ghost use Rattle.std.specs.Prelude.{◌≡◌, true, ◌+◌, ◌≤◌, length};
ghost use Rattle.std.proofs.Math.Seq.{paste};
ghost use Rattle.fields.specs.Field.{in_field, field_text};
ghost use Rattle.lines.specs.Line.{all_in_field, line_text};
ghost use Rattle.line_printer.specs.Print.{print_answer, printed_at};

// Why a line is not printed: it does not fit, or one of its numbers is no field.
#[derive(Clone, Copy, Debug, PartialEq, Eq)]
pub enum PrintError {
    NoRoom,
    NoField,
}

// Whether a number is in the range of a field.
fn in_range(n: i32) -> bool
    ensures { result ≡ in_field n }
{
    (-99_999..=999_999).contains(&n)
}

// Whether every number is in the range of a field.
fn all_in_range(numbers: [i32; 8]) -> bool
    ensures { result ≡ all_in_field numbers }
{
    numbers.iter().all(|n| in_range(*n))
}

// Writes the six characters of a number.
fn put_number(field: &mut [u8], n: i32)
    requires { (in_field n ≡ true) × (length field.old ≡ 6) }
    ensures { field.new ≡ field_text n }
{
    field.fill(b' ');
    let mut m = n.unsigned_abs();
    let mut k: usize = 5;
    // No loop over an index: it divides the number until one digit is left. A `for` would count the digits first, so it is no plainer.
    while 10 <= m {
        field[k] = b'0' + (m % 10) as u8;
        m = m / 10;
        k -= 1;
    }
    field[k] = b'0' + m as u8;
    if n < 0 {
        field[k - 1] = b'-';
    }
}

// Writes the line of eight numbers to the start of a part; the places behind it stay.
fn put_line(part: &mut [u8], numbers: [i32; 8])
    requires { (all_in_field numbers ≡ true) × (49 ≤ length part.old) }
    ensures { part.new ≡ paste part.old 0 (line_text numbers) 49 }
{
    for i in 0..8 {
        put_number(&mut part[6 * i..6 * i + 6], numbers[i]);
    }
    part[48] = b'\n';
}

// Prints eight numbers as a line into `out` from `at` on; the other places keep their contents. Where a number is out of range the
// answer is NoField, else where the line does not fit NoRoom, and then no byte is written.
pub fn print_line(out: &mut [u8], at: usize, numbers: [i32; 8]) -> Result<(), PrintError>
    ensures answer { result ≡ print_answer out.old at numbers }
    ensures buffer { out.new ≡ printed_at out.old at numbers }
{
    if !all_in_range(numbers) {
        return Err(PrintError::NoField);
    }
    if out.len() < 49 {
        return Err(PrintError::NoRoom);
    }
    if out.len() - 49 < at {
        return Err(PrintError::NoRoom);
    }
    put_line(&mut out[at..], numbers);
    Ok(())
}
