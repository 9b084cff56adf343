#![tactic(auto)]
// The table: its types, and what stands where in the numbers of its lines. Definitions and laws are in specs/.
ghost use Rattle.std.specs.Prelude.{◌≡◌, ℕ, ◌+◌, ◌*◌, ◌<◌, ◌≤◌, ◌^◌, get_or, length, take};
ghost use Rattle.table.specs.Fields.{field, number, unused, plain};
ghost use Rattle.fields.specs.Field.{answer};
ghost use Rattle.lines.specs.Line.{line_of as text_line};
ghost use Rattle.table.specs.Header.{statement_line, cells_said};
ghost use Rattle.table.specs.Refusals.{number_of, line_of};
ghost use Rattle.table.specs.Found.{FirstFailing};
ghost use Rattle.table.specs.Table.{counts_of, passed, arguments_in, statement_in};

// Why a text or a call is refused, in the documents' order, with the line of the text that goes with it where there is one.
#[derive(Clone, Copy, Debug, PartialEq, Eq)]
pub enum Refusal {
    // No text has this length.
    Length,
    // A line is not eight good fields and a line feed.
    Fields(usize),
    Header,
    LineCount,
    FirstField(usize),
    HandleLine(usize),
    RoutineLine(usize),
    // The routines' counts do not add up to the statements.
    Sum,
    StatementLine(usize),
    RoutineEnd(usize),
    // A routine is named by no CALL or START.
    Unnamed(usize),
    // A routine reaches itself.
    Recursive(usize),
    // A lent buffer is too short.
    Room,
}

impl Refusal {
    // Its number in the documents, 1 to 13.
    pub fn number(self) -> u32
        ensures { result ≡ number_of self }
    {
        match self {
            Refusal::Length => 1,
            Refusal::Fields(_) => 2,
            Refusal::Header => 3,
            Refusal::LineCount => 4,
            Refusal::FirstField(_) => 5,
            Refusal::HandleLine(_) => 6,
            Refusal::RoutineLine(_) => 7,
            Refusal::Sum => 8,
            Refusal::StatementLine(_) => 9,
            Refusal::RoutineEnd(_) => 10,
            Refusal::Unnamed(_) => 11,
            Refusal::Recursive(_) => 12,
            Refusal::Room => 13,
        }
    }

    // The line that goes with it, 0 where it has none.
    pub fn line(self) -> usize
        ensures { result ≡ line_of self }
    {
        match self {
            Refusal::Fields(line)
            | Refusal::FirstField(line)
            | Refusal::HandleLine(line)
            | Refusal::RoutineLine(line)
            | Refusal::StatementLine(line)
            | Refusal::RoutineEnd(line)
            | Refusal::Unnamed(line)
            | Refusal::Recursive(line) => line,
            Refusal::Length | Refusal::Header | Refusal::LineCount | Refusal::Sum | Refusal::Room =>
                0,
        }
    }
}

// What the header says: how many there are of each.
#[derive(Clone, Copy)]
pub struct Counts {
    pub cells: usize,
    pub locks: usize,
    pub handles: usize,
    pub routines: usize,
    pub statements: usize,
}

// A handle that a statement names, by its number through the whole table.
#[derive(Clone, Copy)]
pub struct Handle {
    pub number: usize,
}

// A statement that a jump goes to, by its number through the whole table.
#[derive(Clone, Copy)]
pub struct Target {
    pub statement: usize,
}

// The handles that a CALL or START passes, by their numbers; those past the named routine's parameters are 0.
// Four fields, as the definitions have them, which say which handle goes to which parameter by name.
#[derive(Clone, Copy, Default)]
pub struct Arguments {
    pub first: usize,
    pub second: usize,
    pub third: usize,
    pub fourth: usize,
}

impl Arguments {
    // The handle that is passed for parameter `k`; 0 where there is none.
    pub fn at(self, k: usize) -> usize
        ensures { result ≡ get_or (passed self) k 0 }
    {
        match k {
            0 => self.first,
            1 => self.second,
            2 => self.third,
            3 => self.fourth,
            _ => 0,
        }
    }
}

// A statement of the table: document 01's operations 1 to 12 in their order, and document 02's operation 13, TAKER.
#[derive(Clone, Copy)]
pub enum Statement {
    Read(Handle),
    Write(Handle),
    Set(i32),
    Add(i32),
    Take(Handle),
    Give(Handle),
    Point {
        handle: Handle,
        from: Handle,
    },
    Call {
        routine: usize,
        arguments: Arguments,
    },
    Start {
        routine: usize,
        arguments: Arguments,
    },
    Jump(Target),
    JumpZero(Target),
    Return,
    TakeRead(Handle),
}

// What a statement is to the rules, by attributes.
#[derive(Clone, Copy)]
pub struct View {
    // It may go on to the next statement; it closes its frame; the statement that it may jump to.
    pub onward: bool,
    pub ends: bool,
    pub target: Option<usize>,
    // The handle whose cell it reads, and writes.
    pub reads: Option<usize>,
    pub writes: Option<usize>,
    // The handle whose lock it takes, whether for writing (false where for reading or none), and the handle whose lock it gives up.
    pub takes: Option<usize>,
    pub writing: bool,
    pub gives: Option<usize>,
    // The handle that it makes refer elsewhere, and the handle whose reference that becomes; 0 where it points none.
    pub points: Option<usize>,
    pub source: usize,
    // The routine that it names, whether by START (false where by CALL or none), and what it passes; zeros where it names none.
    pub names: Option<usize>,
    pub starting: bool,
    pub arguments: Arguments,
}

// What a handle line says: its routine, its kind (1 cell, 2 lock), its origin (0 parameter, 1 local), and where a local starts. Kind and origin are numbers
// here, as in the line: the rules read them before they are known to be any.
#[derive(Clone, Copy)]
pub struct Declaration {
    pub routine: usize,
    pub kind: usize,
    pub origin: usize,
    pub start: usize,
}

// A routine: its first statement and how many it has, its first handle, how many handles it has and how many of them are parameters.
#[derive(Clone, Copy)]
pub struct Routine {
    pub first: usize,
    pub count: usize,
    pub handle: usize,
    pub handles: usize,
    pub parameters: usize,
}

// A number as the rules compare it: itself, or 1,000,000 for a negative one, which is above every bound, as the definition `plain` has it: one clause for each
// sign, and so an `if`.
fn plain_number(x: i32) -> usize
    ensures is { result ≡ plain x }
    ensures small { result < 2 ^ 31 }
{
    if x < 0 { 1_000_000 } else { x as usize }
}

// The functions below take a list and an index, as `list[i]` does: a struct of the numbers and a line would be made anew for each line. `View` has flags and
// values beside its Options, since the definitions ask for each attribute alone.

// Field `j` of `line` as the rules compare it: its number, 1,000,000 for a negative one, 0 past the end.
pub fn field_of(numbers: &[i32], line: usize, j: usize) -> usize
    ensures is { result ≡ field numbers.now line j }
    ensures small { result < 2 ^ 31 }
{
    let count = numbers.len();
    if j < count {
        if line <= (count - 1 - j) / 8 {
            return plain_number(numbers[line * 8 + j]);
        }
    }
    0
}

// The number in field `j` of a line that is there.
pub fn number_in(numbers: &[i32], line: usize, j: usize) -> i32
    requires { (line * 8 + 8 ≤ length numbers.now) × (j < 8) }
    ensures { result ≡ number numbers.now line j }
{
    numbers[line * 8 + j]
}

// Field `j` of a line that is there, as the rules compare it.
pub fn field_in(numbers: &[i32], line: usize, j: usize) -> usize
    requires { (line * 8 + 8 ≤ length numbers.now) × (j < 8) }
    ensures is { result ≡ field numbers.now line j }
    ensures small { result < 2 ^ 31 }
{
    plain_number(number_in(numbers, line, j))
}

// Whether the fields of `line` from field `from` on are 0.
pub fn is_unused(numbers: &[i32], line: usize, from: usize) -> bool
    ensures { result ≡ unused numbers.now line from }
{
    first_failing(from, 8, |j| field_of(numbers, line, j) == 0).is_none()
}

// The lowest number from `from` on, below `end`, of which a test says no. A range is its two ends here and above, as `from..end` has them.
pub fn first_failing<F: Fn(usize) -> bool>(from: usize, end: usize, holds: F) -> Option<usize>
    requires { (i : ℕ) → from ≤ i → i < end → F.pre holds i }
    ensures { FirstFailing (F.post holds) from end result }
{
    for i in from..end {
        if !holds(i) {
            return Some(i);
        }
    }
    None
}

// The line of statement 0.
pub fn first_line(numbers: &[i32]) -> usize
    ensures is { result ≡ statement_line numbers.now 0 }
    ensures small { result < 2 ^ 33 }
{
    1 + field_of(numbers, 0, 3) + field_of(numbers, 0, 4)
}

// How many cells the first line of a text says; 0 where that is no line.
pub fn cell_count(text: &[u8]) -> usize
    ensures { result ≡ cells_said (answer (text_line (take 49 text.now))) }
{
    match lines::read_line(text, 0) {
        Some(header) => field_of(&header, 0, 1),
        None => 0,
    }
}

// What the header of a table's numbers says.
pub fn counts_of(numbers: &[i32]) -> Counts
    ensures { result ≡ counts_of numbers.now }
{
    Counts {
        cells: field_of(numbers, 0, 1),
        locks: field_of(numbers, 0, 2),
        handles: field_of(numbers, 0, 3),
        routines: field_of(numbers, 0, 4),
        statements: field_of(numbers, 0, 5),
    }
}

// The handles that a CALL or START passes, by its line, which is there.
fn arguments_in(numbers: &[i32], line: usize) -> Arguments
    requires { line * 8 + 8 ≤ length numbers.now }
    ensures { result ≡ arguments_in numbers.now line }
{
    Arguments {
        first: field_in(numbers, line, 3),
        second: field_in(numbers, line, 4),
        third: field_in(numbers, line, 5),
        fourth: field_in(numbers, line, 6),
    }
}

// The statement of `line`, whose operation is `op`.
fn statement_in(numbers: &[i32], line: usize, op: usize) -> Statement
    requires { line * 8 + 8 ≤ length numbers.now }
    ensures { result ≡ statement_in numbers.now line op }
{
    let number = field_in(numbers, line, 2);
    match op {
        1 => Statement::Read(Handle { number }),
        2 => Statement::Write(Handle { number }),
        3 => Statement::Set(number_in(numbers, line, 2)),
        4 => Statement::Add(number_in(numbers, line, 2)),
        5 => Statement::Take(Handle { number }),
        6 => Statement::Give(Handle { number }),
        7 => Statement::Point {
            handle: Handle { number },
            from: Handle {
                number: field_in(numbers, line, 3),
            },
        },
        8 => Statement::Call {
            routine: number,
            arguments: arguments_in(numbers, line),
        },
        9 => Statement::Start {
            routine: number,
            arguments: arguments_in(numbers, line),
        },
        10 => Statement::Jump(Target { statement: number }),
        11 => Statement::JumpZero(Target { statement: number }),
        13 => Statement::TakeRead(Handle { number }),
        _ => Statement::Return,
    }
}

// The statement of a line that is there.
pub fn statement_at(numbers: &[i32], line: usize) -> Statement
    requires { line * 8 + 8 ≤ length numbers.now }
    ensures { result ≡ statement_in numbers.now line (field numbers.now line 1) }
{
    statement_in(numbers, line, field_in(numbers, line, 1))
}
