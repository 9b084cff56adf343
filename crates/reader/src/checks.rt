// The verdict: the refusals in their order, each over the whole text before the next.
ghost use Rattle.std.specs.Prelude.{◌≡◌, ◌-◌};
ghost use Rattle.table.specs.Found.{below};
ghost use Rattle.table.specs.Header.{routines, statements};
ghost use Rattle.table.specs.HeaderLaws.{Sized};
ghost use Rattle.table.specs.Naming.{names_in, is_named, is_acyclic};
ghost use Rattle.naming.specs.GatherLaws.{Ended};
ghost use Rattle.table.specs.Until.{until};
ghost use Rattle.table.specs.Statements.{bad_statement, end_ok};
ghost use Rattle.table.specs.Verdict.{naming_verdict, statement_verdict, declaration_verdict, numbers_verdict};

use declarations::handles::bad_handle;
use declarations::header::{bad_leading, header_ok, length_ok};
use declarations::outline::{Extents, Outline};
use declarations::routines::bad_routine;
use lists::value_at;
use naming::is_acyclic;
use statements::{bad_among, end_ok};
use table::{Refusal, field_of, first_failing, first_line};

// The lowest of `count` routines, routine 0 apart, that none names.
fn unnamed_routine(names: &[u64], count: usize) -> Option<usize>
    requires { Ended names.now count }
    ensures { result ≡ below (until (is_named names.now) 1 (count - 1)) count }
{
    let all = naming::all_named(names, count);
    first_failing(1, count, |r| sets::has(all, r))
}

// The lowest of `count` routines that reaches itself.
fn recursive_routine(names: &[u64], count: usize) -> Option<usize>
    ensures { result ≡ below (until (is_acyclic names.now) 0 count) count }
{
    first_failing(0, count, |r| is_acyclic(names, r))
}

// Refusals 11 and 12, by what each routine names.
fn naming_verdict(numbers: &[i32], names: &[u64]) -> Result<(), Refusal>
    requires sized { Sized numbers.now }
    requires names_value { names.now ≡ names_in numbers.now }
    ensures { result ≡ naming_verdict numbers.now names.now }
{
    let count = field_of(numbers, 0, 4);
    if let Some(r) = unnamed_routine(names, count) {
        return Err(Refusal::Unnamed(1 + field_of(numbers, 0, 3) + r));
    }
    if let Some(r) = recursive_routine(names, count) {
        return Err(Refusal::Recursive(1 + field_of(numbers, 0, 3) + r));
    }
    Ok(())
}

// The lowest statement that breaks refusal 9's rule.
fn bad_statement(outline: &Outline<'_>) -> Option<usize>
    ensures { result ≡ below (bad_statement outline.now.numbers.now 0 (routines outline.now.numbers.now)) (statements outline.now.numbers.now) }
{
    let first = &outline.extents.first;
    let count = field_of(outline.numbers, 0, 4);
    for r in 0..count {
        let from = value_at(first, r, 0);
        let end = value_at(first, r + 1, 0);
        if let Some(s) = bad_among(outline, r, from, end) {
            return Some(s);
        }
    }
    None
}

// The lowest routine that breaks refusal 10's rule.
fn running_on(outline: &Outline<'_>) -> Option<usize>
    ensures { result ≡ below (until (end_ok outline.now.numbers.now) 0 (routines outline.now.numbers.now)) (routines outline.now.numbers.now) }
{
    first_failing(0, field_of(outline.numbers, 0, 4), |r| end_ok(outline, r))
}

// Refusals 9 to 12.
fn statement_verdict(outline: &Outline<'_>) -> Result<(), Refusal>
    ensures { result ≡ statement_verdict outline.now.numbers.now }
{
    let numbers = outline.numbers;
    if let Some(s) = bad_statement(outline) {
        return Err(Refusal::StatementLine(first_line(numbers) + s));
    }
    if let Some(r) = running_on(outline) {
        let last = statements::last_of(&outline.extents.first, r);
        return Err(Refusal::RoutineEnd(first_line(numbers) + last));
    }
    let names = naming::names_in(outline);
    naming_verdict(numbers, &names[..])
}

// Refusals 6 to 12.
fn declaration_verdict(numbers: &[i32]) -> Result<(), Refusal>
    requires { Sized numbers.now }
    ensures { result ≡ declaration_verdict numbers.now }
{
    if let Some(h) = bad_handle(numbers) {
        return Err(Refusal::HandleLine(1 + h));
    }
    if let Some(r) = bad_routine(numbers) {
        return Err(Refusal::RoutineLine(1 + field_of(numbers, 0, 3) + r));
    }
    let extents = Extents::of(numbers);
    if !declarations::sum_ok(numbers, &extents.first) {
        return Err(Refusal::Sum);
    }
    statement_verdict(&Outline {
        numbers,
        extents: &extents,
    })
}

// Refusals 3 to 12, for a text of so many lines.
pub fn numbers_verdict(numbers: &[i32], lines: usize) -> Result<(), Refusal>
    ensures { result ≡ numbers_verdict numbers.now lines }
{
    if !header_ok(numbers) {
        return Err(Refusal::Header);
    }
    if !length_ok(numbers, lines) {
        return Err(Refusal::LineCount);
    }
    if let Some(line) = bad_leading(numbers, lines) {
        return Err(Refusal::FirstField(line));
    }
    declaration_verdict(numbers)
}
