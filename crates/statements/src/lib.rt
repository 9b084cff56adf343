#![tactic(auto)]
// The statement lines: their rule, and that of a routine's end.
// Operations and kinds are numbers here, as in the line: the rules read them before they are known to be any. A routine goes beside the outline as an index
// does.
ghost use Rattle.std.specs.Prelude.{◌≡◌, ◌&&◌, ◌<◌, ◌^◌, ◌+◌, ◌-◌, leb, ltb, get_or};
ghost use Rattle.table.specs.Until.{until};
ghost use Rattle.table.specs.Found.{below};
ghost use Rattle.table.specs.Fields.{field};
ghost use Rattle.table.specs.Header.{routines};
ghost use Rattle.table.specs.Statements.{own_handle, own_of_kind, argument_ok, arguments_ok, naming_ok, point_ok, operation_ok, statement_ok, end_ok};

use declarations::outline::Outline;
use lists::value_at;
use table::{field_of, first_failing, first_line, is_unused};

// Whether x is a handle of routine `r`.
fn own_handle(numbers: &[i32], r: usize, x: usize) -> bool
    ensures { result ≡ own_handle numbers.now r x }
{
    if field_of(numbers, 0, 3) <= x {
        return false;
    }
    field_of(numbers, 1 + x, 1) == r
}

// Whether x is a handle of routine `r` and of a kind. Not by `own_handle`: that `1 + x` fits follows from the test here, and not from what that one answers.
fn own_of_kind(numbers: &[i32], r: usize, kind: usize, x: usize) -> bool
    ensures { result ≡ own_of_kind numbers.now r kind x }
{
    if field_of(numbers, 0, 3) <= x {
        return false;
    }
    (field_of(numbers, 1 + x, 1) == r) & (field_of(numbers, 1 + x, 2) == kind)
}

// Whether x is a statement of routine `r`, by the list of the first ones.
fn own_statement(first: &[usize], r: usize, x: usize) -> bool
    requires { r < 32 }
    ensures { result ≡ (leb (get_or first.now r 0) x && ltb x (get_or first.now (r + 1) 0)) }
{
    (value_at(first, r, 0) <= x) & (x < value_at(first, r + 1, 0))
}

// Whether argument `k` in `line`, which is routine `r`'s and names routine `q`, is one that `q` takes.
fn argument_ok(outline: &Outline<'_>, r: usize, q: usize, k: usize, line: usize) -> bool
    requires q_bound { q < routines outline.now.numbers.now }
    requires k_bound { k < 4 }
    ensures { result ≡ argument_ok outline.now.numbers.now r q k (field outline.now.numbers.now line (3 + k)) }
{
    let numbers = outline.numbers;
    let x = field_of(numbers, line, 3 + k);
    if k < value_at(&outline.extents.counts, q, 0) {
        let kind = field_of(
            numbers,
            1 + (value_at(&outline.extents.handle, q, 0) + k),
            2,
        );
        return own_of_kind(numbers, r, kind, x);
    }
    x == 0
}

// Whether the CALL or START in `line` of routine `r` passes what routine `q` takes.
fn arguments_ok(outline: &Outline<'_>, r: usize, q: usize, line: usize) -> bool
    requires q_bound { q < routines outline.now.numbers.now }
    ensures { result ≡ arguments_ok outline.now.numbers.now r q line }
{
    argument_ok(outline, r, q, 0, line)
        & argument_ok(outline, r, q, 1, line)
        & argument_ok(outline, r, q, 2, line)
        & argument_ok(outline, r, q, 3, line)
        & is_unused(outline.numbers, line, 7)
}

// Whether the CALL or START in `line` of routine `r` names a routine and passes what it takes.
fn naming_ok(outline: &Outline<'_>, r: usize, line: usize) -> bool
    ensures { result ≡ naming_ok outline.now.numbers.now r line }
{
    let numbers = outline.numbers;
    let q = field_of(numbers, line, 2);
    if field_of(numbers, 0, 4) <= q {
        return false;
    }
    arguments_ok(outline, r, q, line)
}

// Whether the POINT in `line` of routine `r` has two handles of one kind.
fn point_ok(numbers: &[i32], r: usize, line: usize) -> bool
    ensures { result ≡ point_ok numbers.now r line }
{
    let a = field_of(numbers, line, 2);
    own_handle(numbers, r, a)
        & own_of_kind(
            numbers,
            r,
            field_of(numbers, 1 + a, 2),
            field_of(numbers, line, 3),
        )
        & is_unused(numbers, line, 4)
}

// The rule of operation `op` in `line` of routine `r`.
fn operation_ok(outline: &Outline<'_>, r: usize, line: usize, op: usize) -> bool
    requires r_bound { r < routines outline.now.numbers.now }
    ensures { result ≡ operation_ok outline.now.numbers.now r line op }
{
    let numbers = outline.numbers;
    let a = field_of(numbers, line, 2);
    if (op == 1) | (op == 2) {
        return own_of_kind(numbers, r, 1, a) & is_unused(numbers, line, 3);
    }
    if (op == 3) | (op == 4) {
        return is_unused(numbers, line, 3);
    }
    if (op == 5) | (op == 6) | (op == 13) {
        return own_of_kind(numbers, r, 2, a) & is_unused(numbers, line, 3);
    }
    if op == 7 {
        return point_ok(numbers, r, line);
    }
    if (op == 8) | (op == 9) {
        return naming_ok(outline, r, line);
    }
    if (op == 10) | (op == 11) {
        return own_statement(&outline.extents.first, r, a) & is_unused(numbers, line, 3);
    }
    (op == 12) & is_unused(numbers, line, 2)
}

// Refusal 9's rule at statement `s` of routine `r`.
fn statement_ok(outline: &Outline<'_>, r: usize, s: usize) -> bool
    requires r_bound { r < routines outline.now.numbers.now }
    requires s_bound { s < 2 ^ 32 }
    ensures { result ≡ statement_ok outline.now.numbers.now r s }
{
    let numbers = outline.numbers;
    let line = first_line(numbers) + s;
    operation_ok(outline, r, line, field_of(numbers, line, 1))
}

// The lowest statement of routine `r`, from `from` on and below `end`, that breaks refusal 9's rule.
pub fn bad_among(outline: &Outline<'_>, r: usize, from: usize, end: usize) -> Option<usize>
    requires r_bound { r < routines outline.now.numbers.now }
    requires end_bound { end < 2 ^ 32 }
    ensures { result ≡ below (until (statement_ok outline.now.numbers.now r) from (end - from)) end }
{
    first_failing(from, end, |s| { statement_ok(outline, r, s) })
}

// The last statement of routine `r`, by the list of the first ones; 0 if there is none, as the definition has it, which asks no more of a routine.
pub fn last_of(first: &[usize], r: usize) -> usize
    requires { r < 32 }
    ensures { result ≡ get_or first.now (r + 1) 0 - 1 }
{
    value_at(first, r + 1, 0).saturating_sub(1)
}

// Refusal 10's rule at routine `r`.
pub fn end_ok(outline: &Outline<'_>, r: usize) -> bool
    requires r_bound { r < routines outline.now.numbers.now }
    ensures { result ≡ end_ok outline.now.numbers.now r }
{
    let numbers = outline.numbers;
    let op = field_of(
        numbers,
        first_line(numbers) + last_of(&outline.extents.first, r),
        1,
    );
    (op == 10) | (op == 12)
}
