// The routine lines: their rule.
// The numbers and a routine are a list and an index, as in `handles`.
ghost use Rattle.std.specs.Prelude.{◌≡◌, ◌<◌, ◌^◌};
ghost use Rattle.table.specs.Until.{until};
ghost use Rattle.table.specs.Found.{below};
ghost use Rattle.table.specs.Header.{routines};
ghost use Rattle.table.specs.Routines.{count_of, routine_ok};

use crate::header::is_within;
use table::{field_of, first_failing, is_unused};

// The statement count of routine `r`.
pub fn count_at(numbers: &[i32], r: usize) -> usize
    requires { r < 2 ^ 32 }
    ensures is { result ≡ count_of numbers.now r }
    ensures small { result < 2 ^ 31 }
{
    field_of(numbers, 1 + field_of(numbers, 0, 3) + r, 1)
}

// Refusal 7's rule at routine `r`.
fn routine_ok(numbers: &[i32], r: usize) -> bool
    requires { r < 2 ^ 32 }
    ensures { result ≡ routine_ok numbers.now r }
{
    is_within(1, field_of(numbers, 0, 5), count_at(numbers, r))
        & is_unused(numbers, 1 + field_of(numbers, 0, 3) + r, 2)
}

// The lowest routine that breaks refusal 7's rule.
pub fn bad_routine(numbers: &[i32]) -> Option<usize>
    ensures { result ≡ below (until (routine_ok numbers.now) 0 (routines numbers.now)) (routines numbers.now) }
{
    first_failing(0, field_of(numbers, 0, 4), |r| routine_ok(numbers, r))
}
