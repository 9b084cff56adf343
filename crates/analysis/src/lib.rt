#![tactic(auto)]
// The report of a table text, and whether its totals are 0.
// Text and buffer are lent apart, as C lends them, and the room for the numbers beside the text, since there is no heap. An accepted table's numbers are
// asked for up to where the lists for a `Program` are made.
ghost use Rattle.std.specs.Prelude.{◌≡◌, ◌*◌, ◌≤◌, ◌^◌, ◌<◌, length, replicate};
ghost use Rattle.lines.specs.Line.{line_count};
ghost use Rattle.table.specs.Header.{statements, statement_line};
ghost use Rattle.table.specs.Table.{table_of};
ghost use Rattle.table.specs.Accepted.{Accepted};
ghost use Rattle.report_printer.specs.Printed.{Reports};
ghost use Rattle.stages.specs.Lent.{Lent};
ghost use Rattle.analysis.specs.Reported.{report_answer, reported_into, loadable, examined_in};

use report_printer::Printed;
use table::Refusal;

// What is said of a text: how many bytes of report are written, or the refusal; and whether the table may be loaded.
#[derive(Clone, Copy)]
struct Examined {
    answer: Result<usize, Refusal>,
    clean: bool,
}

// The report of an accepted table, with room for `WORK` sets and `EDGES` edges.
fn examine_in<const WORK: usize, const EDGES: usize>(numbers: &[i32], out: &mut [u8]) -> Printed
    requires accepted { Accepted (table_of numbers.now) }
    requires lent { Lent numbers.now (replicate WORK 0) (replicate EDGES 0) }
    requires small { (WORK < 2 ^ 32) × (EDGES < 2 ^ 32) }
    ensures { Reports (table_of numbers.now) out.old out.new result }
{
    let mut work = [0u64; WORK];
    let mut edges = [0u32; EDGES];
    stages::examine(numbers, &mut work[..], &mut edges[..], out)
}

// The report of an accepted table, in lists of a size for it: small lists are soon cleared.
fn examine_sized(numbers: &[i32], out: &mut [u8]) -> Printed
    requires accepted { Accepted (table_of numbers.now) }
    requires numbers_len { length numbers.now ≡ 8 * statement_line numbers.now (statements numbers.now) }
    ensures { Reports (table_of numbers.now) out.old out.new result }
{
    if numbers.len() <= 512 {
        return examine_in::<192, 256>(numbers, out);
    }
    if numbers.len() <= 1536 {
        return examine_in::<576, 768>(numbers, out);
    }
    examine_in::<1600, 2048>(numbers, out)
}

// The report of a text, with a list that has room for its numbers.
fn report_within(text: &[u8], numbers: &mut [i32], out: &mut [u8]) -> Examined
    requires { length numbers.old ≡ 8 * line_count text.now }
    ensures answer { result ≡ examined_in text.now (length out.old) }
    ensures buffer { out.new ≡ reported_into text.now out.old }
{
    match reader::read_into(text, numbers) {
        Ok(()) => {
            let printed = examine_sized(numbers, out);
            Examined {
                answer: printed.bytes.ok_or(Refusal::Room),
                clean: printed.clean,
            }
        }
        Err(refusal) => Examined {
            answer: Err(refusal),
            clean: false,
        },
    }
}

// The report of a text of `NUMBERS` numbers at most.
fn report_in<const NUMBERS: usize>(text: &[u8], out: &mut [u8]) -> Examined
    requires { (8 * line_count text.now ≤ NUMBERS) × (NUMBERS < 2 ^ 32) }
    ensures answer { result ≡ examined_in text.now (length out.old) }
    ensures buffer { out.new ≡ reported_into text.now out.old }
{
    let count = 8 * lines::line_count(text);
    let mut numbers = [0i32; NUMBERS];
    report_within(text, &mut numbers[..count], out)
}

// The report of a text, its numbers in a list of a size for it. A text of no length that a text has is refused before any list is cleared.
fn report_sized(text: &[u8], out: &mut [u8]) -> Examined
    ensures answer { result ≡ examined_in text.now (length out.old) }
    ensures buffer { out.new ≡ reported_into text.now out.old }
{
    if !reader::has_length(text.len()) {
        return Examined {
            answer: Err(Refusal::Length),
            clean: false,
        };
    }
    let count = lines::line_count(text);
    if count <= 64 {
        return report_in::<512>(text, out);
    }
    if count <= 192 {
        return report_in::<1536>(text, out);
    }
    report_in::<5384>(text, out)
}

// The report of a table text, written to the start of `out`; the places behind it stay. The answer is how many bytes are written; or the
// first refusal 1 to 12 that applies to the text, or 13 where `out` is too short, and then no byte is written.
pub fn report(text: &[u8], out: &mut [u8]) -> Result<usize, Refusal>
    ensures answer { result ≡ report_answer text.now (length out.old) }
    ensures buffer { out.new ≡ reported_into text.now out.old }
{
    report_sized(text, out).answer
}

// Whether a text is accepted, and its report counts no unguarded cell and no stray GIVE.
pub fn is_clean(text: &[u8]) -> bool
    ensures { result ≡ loadable text.now }
{
    let mut out = [0u8; 1];
    report_sized(text, &mut out[..]).clean
}
