#![tactic(auto)]
// Where each routine's statements and handles begin, and how many parameters it has; and the rules of the lines that say it.
pub mod handles;
pub mod header;
pub mod outline;
pub mod program;
pub mod routines;

ghost use Rattle.std.specs.Prelude.{◌≡◌, ◌≤◌, ◌+◌, ◌-◌, min, eqb};
ghost use Rattle.table.specs.Until.{until};
ghost use Rattle.table.specs.Fields.{field};
ghost use Rattle.table.specs.Header.{routines, handle_line};
ghost use Rattle.table.specs.Routines.{sum_ok};
ghost use Rattle.table.specs.Extents.{first_statements, first_handles, parameter_counts};

use lists::value_at;
use routines::count_at;
use table::{field_of, first_failing};

// The first handle from `from` on, below `end`, whose field `j` is not `value`; the higher of both if there is none.
fn skip(numbers: &[i32], j: usize, value: usize, from: usize, end: usize) -> usize
    ensures { result ≡ until (λ h. eqb (field numbers.now (handle_line h) j) value) from (end - from) }
{
    first_failing(from, end, |h| field_of(numbers, 1 + h, j) == value).unwrap_or(from.max(end))
}

// The number of routines, 32 at most.
fn routine_count(numbers: &[i32]) -> usize
    ensures { result ≡ min 32 (routines numbers.now) }
{
    field_of(numbers, 0, 4).min(32)
}

// Fills a list with the first statement of each routine, behind the last routine's the number of statements dealt out, then zeros.
fn fill_first_statements(numbers: &[i32], first: &mut [usize; 33])
    ensures { first.new ≡ first_statements numbers.now }
{
    let count = routine_count(numbers);
    let mut sum = 0;
    *first = [0usize; 33];
    for r in 0..count {
        sum += count_at(numbers, r);
        first[r + 1] = sum;
    }
}

// Refusal 8's rule.
pub fn sum_ok(numbers: &[i32], first: &[usize]) -> bool
    requires first_value { first.now ≡ first_statements numbers.now }
    requires numbers_bound { routines numbers.now ≤ 32 }
    ensures { result ≡ sum_ok numbers.now }
{
    value_at(first, field_of(numbers, 0, 4), 0) == field_of(numbers, 0, 5)
}

// Fills a list with the first handle of each routine, behind the last routine's the number of handles, then zeros.
fn fill_first_handles(numbers: &[i32], from: &mut [usize; 33])
    ensures { from.new ≡ first_handles numbers.now }
{
    let handles = field_of(numbers, 0, 3);
    let count = routine_count(numbers);
    let mut h = 0;
    *from = [0usize; 33];
    for r in 0..count {
        h = skip(numbers, 1, r, h, handles);
        from[r + 1] = h;
    }
}

// Fills a list with how many parameters each routine has, then zeros.
fn fill_parameter_counts(numbers: &[i32], handle: &[usize], counts: &mut [usize; 32])
    requires { handle.now ≡ first_handles numbers.now }
    ensures { counts.new ≡ parameter_counts numbers.now }
{
    let count = routine_count(numbers);
    *counts = [0usize; 32];
    for r in 0..count {
        let from = value_at(handle, r, 0);
        let end = skip(numbers, 3, 0, from, value_at(handle, r + 1, 0));
        counts[r] = end - from;
    }
}
