#![tactic(auto)]
// A line of a table text: eight fields of six characters and a line feed, read.
// A text and a place in it are a list and an index, as in `fields`, and casts are by `as` for its reason. The loop over fields stands in `read_line` and in `read_numbers`: the document's form has
// it inside the loop over lines, left by a label.
ghost use Rattle.std.specs.Prelude.{◌≡◌, ◌*◌, ◌+◌, ◌≤◌, true, IfSome, length, take, drop};
ghost use Rattle.std.specs.Bool.{MatchBool};
ghost use Rattle.std.proofs.Math.Option.{none, some};
ghost use Rattle.fields.specs.Field.{answer};
ghost use Rattle.lines.specs.LineLoops.{Reading, Three, ZeroTail};
ghost use Rattle.lines.specs.Line.{line_of, line_count, first_bad, numbers_of, page_of};

// Whether the last five fields of the line at a place are zeros.
fn ends_in_zeros(text: &[u8], at: usize) -> bool
    requires { at + 49 ≤ length text.now }
    ensures { result ≡ true → ZeroTail text.now at }
{
    fields::zero_at(text, at + 18)
        & fields::zero_at(text, at + 24)
        & fields::zero_at(text, at + 30)
        & fields::zero_at(text, at + 36)
        & fields::zero_at(text, at + 42)
}

// The three numbers of the line at a place if each is below 1,000 and five zeros stand behind them.
fn quick_fields(text: &[u8], at: usize) -> Option<(i32, i32, i32)>
    requires { at + 49 ≤ length text.now }
    ensures { IfSome result (λ n. Three (take 49 (drop at text.now)) n.0 n.1 n.2) }
{
    if !ends_in_zeros(text, at) {
        return None;
    }
    let x = fields::quick_at(text, at)?;
    let y = fields::quick_at(text, at + 6)?;
    let z = fields::quick_at(text, at + 12)?;
    Some((x as i32, y as i32, z as i32))
}

// Puts the eight numbers of the line at a place into `line` if the quick way reads them; how many it put, eight or none: a count and
// no flag, since the loop over the fields begins behind what was put.
fn put_quick(text: &[u8], at: usize, line: &mut [i32]) -> usize
    requires at_in_bounds { at + 49 ≤ length text.now }
    requires eight { length line.old ≡ 8 }
    ensures { Reading (take 49 (drop at text.now)) result line.new }
{
    let Some((x, y, z)) = quick_fields(text, at) else {
        return 0;
    };
    // Stored one by one: `copy_from_slice` of an array takes 18.9 µs in `bench/reader/run`, not 17.5.
    line[0] = x;
    line[1] = y;
    line[2] = z;
    line[3..].fill(0);
    8
}

// The eight numbers of the 49 bytes at a place; none where those are no line, or fewer stand there.
pub fn read_line(text: &[u8], at: usize) -> Option<[i32; 8]>
    ensures { result ≡ answer (line_of (take 49 (drop at text.now))) }
{
    let last = text.len().checked_sub(49)?;
    if last < at {
        return None;
    }
    let mut numbers = [0; 8];
    for j in put_quick(text, at, &mut numbers)..8 {
        let z = fields::field_in(text, at + 6 * j)?;
        numbers[j] = z;
    }
    if text[at + 48] != b'\n' {
        return None;
    }
    Some(numbers)
}

// How many whole lines a text has, 673 at most.
pub fn line_count(text: &[u8]) -> usize
    ensures { result ≡ line_count text.now }
{
    (text.len() / 49).min(673)
}

// Reads the numbers of a text's lines, 673 at most, into `numbers`, eight a line; the first line that is none, if there is one.
pub fn read_numbers(text: &[u8], numbers: &mut [i32]) -> Option<usize>
    requires { length numbers.old ≡ 8 * line_count text.now }
    ensures found { result ≡ answer (first_bad text.now) }
    ensures numbers { first_bad text.now ≡ none → numbers.new ≡ numbers_of text.now }
{
    let lines = line_count(text);
    let mut first_bad = None;
    'lines: for i in 0..lines {
        let at = 49 * i;
        let line = &mut numbers[8 * i..8 * i + 8];
        for j in put_quick(text, at, line)..8 {
            let Some(z) = fields::field_in(text, at + 6 * j) else {
                first_bad = Some(i);
                break 'lines;
            };
            line[j] = z;
        }
        if text[at + 48] != b'\n' {
            first_bad = Some(i);
            break 'lines;
        }
    }
    first_bad
}

// The numbers of a text's lines, eight a line and zeros behind them, or the first line that is none. Looks at whole lines, 673 at most.
pub fn read_page(text: &[u8]) -> Result<[i32; 5384], usize>
    ensures { result ≡ page_of text.now }
{
    let mut numbers = [0i32; 5384];
    let count = 8 * line_count(text);
    match read_numbers(text, &mut numbers[..count]) {
        Some(i) => Err(i),
        None => Ok(numbers),
    }
}
