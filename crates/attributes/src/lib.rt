#![tactic(auto)]
// A statement by its attributes, out of its line in a table's numbers: each by equality with that of its view.
// `numbers` and `line` go together as a list and an index do: a struct of both would be made anew for each statement, and each promise would be longer.
// Operations are numbers here, as in the line: they are read before they are known to be any.
ghost use Rattle.std.specs.Prelude.{◌≡◌, get_or};
ghost use Rattle.table.specs.Fields.{field};
ghost use Rattle.table.specs.Table.{statement_in};
ghost use Rattle.table.specs.View.{view, set_on, calls, starts, in_mode, takes_to_read};
ghost use Rattle.table.specs.ViewLaws.{first_if, second_if, arguments_if};

use table::{Arguments, View, field_of};

// A reference to the first operand in `line`, if a test holds.
fn first_if(numbers: &[i32], line: usize, test: bool) -> Option<usize>
    ensures { result ≡ first_if numbers.now line test }
{
    if test {
        Some(field_of(numbers, line, 2))
    } else {
        None
    }
}

// The second operand in `line`, if a test holds; else 0.
fn second_if(numbers: &[i32], line: usize, test: bool) -> usize
    ensures { result ≡ second_if numbers.now line test }
{
    if test { field_of(numbers, line, 3) } else { 0 }
}

// The arguments in `line`, if a test holds; else zeros.
fn arguments_if(numbers: &[i32], line: usize, test: bool) -> Arguments
    ensures { result ≡ arguments_if numbers.now line test }
{
    if test {
        Arguments {
            first: field_of(numbers, line, 3),
            second: field_of(numbers, line, 4),
            third: field_of(numbers, line, 5),
            fourth: field_of(numbers, line, 6),
        }
    } else {
        Arguments::default()
    }
}

// What the statement in `line` is to the rules, where locks taken for writing alone count, or all. Past the last line it is RETURN.
// `writing` is a Boolean as the definition `in_mode` has it: it chooses what counts, not what is done; `held_edges::Mode` stands above.
pub fn view_at(numbers: &[i32], line: usize, writing: bool) -> View
    ensures { result ≡ in_mode writing (view (statement_in numbers.now line (field numbers.now line 1))) }
{
    let op = field_of(numbers, line, 1);
    let keeps = ((0 < op) & (op < 12)) | (op == 13);
    let naming = (op == 8) | (op == 9);
    View {
        onward: keeps & !(op == 10),
        ends: !keeps,
        target: first_if(numbers, line, (op == 10) | (op == 11)),
        reads: first_if(numbers, line, op == 1),
        writes: first_if(numbers, line, op == 2),
        takes: first_if(numbers, line, (op == 5) | ((op == 13) & !writing)),
        writing: op == 5,
        gives: first_if(numbers, line, op == 6),
        points: first_if(numbers, line, op == 7),
        source: second_if(numbers, line, op == 7),
        names: first_if(numbers, line, naming),
        starting: op == 9,
        arguments: arguments_if(numbers, line, naming),
    }
}

// The attributes one by one, for code that asks for few of them: to build the whole view takes longer than such code itself. They differ by the operation's
// number: a const parameter for it would leave each contract to choose its attribute by number.

// Whether the statement in `line` may go on to the next one.
pub fn onward_at(numbers: &[i32], line: usize) -> bool
    ensures { result ≡ (view (statement_in numbers.now line (field numbers.now line 1))).onward }
{
    let op = field_of(numbers, line, 1);
    (((0 < op) & (op < 12)) | (op == 13)) & !(op == 10)
}

// The statement that the one in `line` may jump to.
pub fn target_at(numbers: &[i32], line: usize) -> Option<usize>
    ensures { result ≡ (view (statement_in numbers.now line (field numbers.now line 1))).target }
{
    let op = field_of(numbers, line, 1);
    first_if(numbers, line, (op == 10) | (op == 11))
}

// The handle whose cell the statement in `line` reads.
pub fn reads_at(numbers: &[i32], line: usize) -> Option<usize>
    ensures { result ≡ (view (statement_in numbers.now line (field numbers.now line 1))).reads }
{
    first_if(numbers, line, field_of(numbers, line, 1) == 1)
}

// The handle whose cell the statement in `line` writes.
pub fn writes_at(numbers: &[i32], line: usize) -> Option<usize>
    ensures { result ≡ (view (statement_in numbers.now line (field numbers.now line 1))).writes }
{
    first_if(numbers, line, field_of(numbers, line, 1) == 2)
}

// Whether the statement in `line` takes a lock for reading.
pub fn takes_to_read_at(numbers: &[i32], line: usize) -> bool
    ensures { result ≡ takes_to_read (view (statement_in numbers.now line (field numbers.now line 1))) }
{
    field_of(numbers, line, 1) == 13
}

// The handle whose lock the statement in `line` gives up.
pub fn gives_at(numbers: &[i32], line: usize) -> Option<usize>
    ensures { result ≡ (view (statement_in numbers.now line (field numbers.now line 1))).gives }
{
    first_if(numbers, line, field_of(numbers, line, 1) == 6)
}

// The handle that the statement in `line` makes refer elsewhere.
pub fn points_at(numbers: &[i32], line: usize) -> Option<usize>
    ensures { result ≡ (view (statement_in numbers.now line (field numbers.now line 1))).points }
{
    first_if(numbers, line, field_of(numbers, line, 1) == 7)
}

// The handle whose reference that becomes.
pub fn source_at(numbers: &[i32], line: usize) -> usize
    ensures { result ≡ (view (statement_in numbers.now line (field numbers.now line 1))).source }
{
    second_if(numbers, line, field_of(numbers, line, 1) == 7)
}

// The routine that the statement in `line` names, by CALL or START.
pub fn names_at(numbers: &[i32], line: usize) -> Option<usize>
    ensures { result ≡ (view (statement_in numbers.now line (field numbers.now line 1))).names }
{
    let op = field_of(numbers, line, 1);
    first_if(numbers, line, (op == 8) | (op == 9))
}

// What the statement in `line` passes.
pub fn arguments_at(numbers: &[i32], line: usize) -> Arguments
    ensures { result ≡ (view (statement_in numbers.now line (field numbers.now line 1))).arguments }
{
    let op = field_of(numbers, line, 1);
    arguments_if(numbers, line, (op == 8) | (op == 9))
}

// The routine that the statement in `line` CALLs.
pub fn calls_at(numbers: &[i32], line: usize) -> Option<usize>
    ensures { result ≡ calls (view (statement_in numbers.now line (field numbers.now line 1))) }
{
    first_if(numbers, line, field_of(numbers, line, 1) == 8)
}

// The routine that the statement in `line` STARTs.
pub fn starts_at(numbers: &[i32], line: usize) -> Option<usize>
    ensures { result ≡ starts (view (statement_in numbers.now line (field numbers.now line 1))) }
{
    first_if(numbers, line, field_of(numbers, line, 1) == 9)
}

// The set of what is referred to, by its place in a list; the empty set if it is nothing.
pub fn set_on(reference: Option<usize>, list: &[u64]) -> u64
    ensures { result ≡ set_on reference (λ n. get_or list.now n 0) }
{
    match reference {
        Some(n) => lists::value_at(list, n, 0),
        None => 0,
    }
}
