#![tactic(auto)]
// The two modes of a hold (C-18), for writing and in either way: whether a table has two, and the held sets of both put together in the way of each access.
// Functions of a statement's line take any text's numbers, so no `Program`.
ghost use Rattle.std.specs.Prelude.{◌≡◌, ◌+◌, ◌≤◌, length, get_or, take, drop};
ghost use Rattle.table.specs.Found.{below};
ghost use Rattle.table.specs.Header.{statements, statement_line};
ghost use Rattle.table.specs.Table.{statement_of};
ghost use Rattle.table.specs.Until.{until};
ghost use Rattle.table.specs.View.{view, on_or};
ghost use Rattle.modes.specs.Modes.{takes_to_write_alone, held_by};

// Whether statement `s`, whose line is `line`, takes no lock, or takes it for writing.
fn takes_to_write_alone(numbers: &[i32], s: usize, line: usize) -> bool
    requires { line ≡ statement_line numbers.now s }
    ensures { result ≡ takes_to_write_alone numbers.now s }
{
    !attributes::takes_to_read_at(numbers, line)
}

// The lowest statement that takes a lock for reading.
pub fn first_to_read(numbers: &[i32]) -> Option<usize>
    ensures { result ≡ below (until (takes_to_write_alone numbers.now) 0 (statements numbers.now)) (statements numbers.now) }
{
    let base = table::first_line(numbers);
    table::first_failing(
        0,
        table::field_of(numbers, 0, 5),
        |s| takes_to_write_alone(numbers, s, base + s),
    )
}

// What is held in the way of the access of statement `s`, whose line is `line`, from what is held for writing and in either way.
fn held_in_way(numbers: &[i32], s: usize, line: usize, writing: u64, either: u64) -> u64
    requires { line ≡ statement_line numbers.now s }
    ensures { result ≡ on_or (view (statement_of numbers.now s)).writes (λ h. writing) either }
{
    match attributes::writes_at(numbers, line) {
        Some(_) => writing,
        None => either,
    }
}

// Leaves in the first places of `work`, where what is held in either way stands, what is held in the way of each access; behind it stands what is held for
// writing.
pub fn put_writing(numbers: &[i32], work: &mut [u64])
    requires { statements numbers.now + statements numbers.now ≤ length work.old }
    ensures { take (statements numbers.now) work.new ≡ held_by numbers.now (drop (statements numbers.now) work.old) work.old }
{
    let base = table::first_line(numbers);
    let count = table::field_of(numbers, 0, 5);
    for s in 0..count {
        work[s] = held_in_way(numbers, s, base + s, work[count + s], work[s]);
    }
}
