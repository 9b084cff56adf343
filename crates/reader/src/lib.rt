#![tactic(auto)]
// The reader: a table text, or the first refusal of document 01.
mod checks;

ghost use Rattle.std.specs.Prelude.{◌≡◌, ◌*◌, length};
ghost use Rattle.lines.specs.Line.{line_count, numbers_of};
ghost use Rattle.table.specs.Verdict.{text_ok, verdict, reading_of};

use table::Refusal;

// Refusal 1's rule: whether a text of so many bytes may be one.
pub fn has_length(n: usize) -> bool
    ensures { result ≡ text_ok n }
{
    (0 < n) & (n % 49 == 0) & (n <= 32977)
}

// The verdict on a text; where it is accepted, its numbers stand in `numbers`. Each caller cuts an array of its own size to the text's length: there is no
// heap, and a part of an array cannot leave the function that has it.
pub fn read_into(text: &[u8], numbers: &mut [i32]) -> Result<(), Refusal>
    requires { length numbers.old ≡ 8 * line_count text.now }
    ensures verdict { result ≡ verdict text.now }
    ensures numbers { result ≡ Ok tt → numbers.new ≡ numbers_of text.now }
{
    if !has_length(text.len()) {
        return Err(Refusal::Length);
    }
    match lines::read_numbers(text, numbers) {
        Some(i) => Err(Refusal::Fields(i)),
        None => checks::numbers_verdict(numbers, text.len() / 49),
    }
}

// The numbers of a text, eight a line and zeros behind them, or its first refusal, for every text.
pub fn read(text: &[u8]) -> Result<[i32; 5384], Refusal>
    ensures { result ≡ reading_of text.now }
{
    let mut numbers = [0i32; 5384];
    let count = 8 * lines::line_count(text);
    read_into(text, &mut numbers[..count])?;
    Ok(numbers)
}
