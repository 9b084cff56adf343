// The handle lines: their rule.
// Kinds and origins are numbers here, as in the line: the rules read them before they are known to be any. The numbers and a handle are a list and an index;
// that the index is small is asked where a line's number is reckoned from it, and a range gives it.
ghost use Rattle.std.specs.Prelude.{◌≡◌, ◌<◌, ◌^◌, ◌-◌};
ghost use Rattle.table.specs.Until.{until};
ghost use Rattle.table.specs.Found.{below};
ghost use Rattle.table.specs.Header.{handles};
ghost use Rattle.table.specs.Handles.{things, handle_fields_ok, same_above, handle_order_ok, parameter_ok, handle_ok};

use crate::header::is_within;
use table::{field_of, first_failing, is_unused};

// How many things there are of a kind.
fn things_of(numbers: &[i32], kind: usize) -> usize
    ensures { result ≡ things numbers.now kind }
{
    if kind == 1 {
        return field_of(numbers, 0, 1);
    }
    field_of(numbers, 0, 2)
}

// Whether handle `h`'s own fields are good.
fn handle_fields_ok(numbers: &[i32], h: usize) -> bool
    requires { h < 2 ^ 32 }
    ensures { result ≡ handle_fields_ok numbers.now h }
{
    let line = 1 + h;
    let kind = field_of(numbers, line, 2);
    let origin = field_of(numbers, line, 3);
    let start = field_of(numbers, line, 4);
    (field_of(numbers, line, 1) < field_of(numbers, 0, 4))
        & is_within(1, 2, kind)
        & ((origin == 0) & (start == 0) | (origin == 1) & (start < things_of(numbers, kind)))
        & is_unused(numbers, line, 5)
}

// Whether the handle `k` lines above `h` is there and of the same routine.
fn same_above(numbers: &[i32], h: usize, k: usize) -> bool
    requires { h < 2 ^ 32 }
    ensures { result ≡ same_above numbers.now h k }
{
    if h < k {
        return false;
    }
    field_of(numbers, 1 + (h - k), 1) == field_of(numbers, 1 + h, 1)
}

// Whether handle `h`'s routine is not below the one before and has no more than eight handles.
fn handle_order_ok(numbers: &[i32], h: usize) -> bool
    requires { h < 2 ^ 32 }
    ensures { result ≡ handle_order_ok numbers.now h }
{
    let before = h.saturating_sub(1);
    (field_of(numbers, 1 + before, 1) <= field_of(numbers, 1 + h, 1)) & !same_above(numbers, h, 8)
}

// Whether handle `h`, if a parameter, may stand where it does.
fn parameter_ok(numbers: &[i32], h: usize) -> bool
    requires { h < 2 ^ 32 }
    ensures { result ≡ parameter_ok numbers.now h }
{
    let before = h.saturating_sub(1);
    (field_of(numbers, 1 + h, 3) == 1)
        | !(field_of(numbers, 1 + h, 1) == 0)
            & !(same_above(numbers, h, 1) & (field_of(numbers, 1 + before, 3) == 1))
            & !same_above(numbers, h, 4)
}

// Refusal 6's rule at handle `h`.
fn handle_ok(numbers: &[i32], h: usize) -> bool
    requires { h < 2 ^ 32 }
    ensures { result ≡ handle_ok numbers.now h }
{
    handle_fields_ok(numbers, h) & handle_order_ok(numbers, h) & parameter_ok(numbers, h)
}

// The lowest handle that breaks refusal 6's rule.
pub fn bad_handle(numbers: &[i32]) -> Option<usize>
    ensures { result ≡ below (until (handle_ok numbers.now) 0 (handles numbers.now)) (handles numbers.now) }
{
    first_failing(0, field_of(numbers, 0, 3), |h| handle_ok(numbers, h))
}
