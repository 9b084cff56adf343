// The header's rule, and the first field of each line. Numbers and how many lines the text has go apart: a text's numbers may be more than its lines' until
// rule 4 holds.
ghost use Rattle.std.specs.Prelude.{◌≡◌, ◌-◌};
ghost use Rattle.table.specs.Until.{until};
ghost use Rattle.table.specs.Found.{below};
ghost use Rattle.table.specs.Header.{within, header_ok, length_ok, leading, leading_ok};

use table::{field_of, first_failing, is_unused};

// Whether n is from low to high.
pub fn is_within(low: usize, high: usize, n: usize) -> bool
    ensures { result ≡ within low high n }
{
    (low..=high).contains(&n)
}

// Refusal 3's rule.
pub fn header_ok(numbers: &[i32]) -> bool
    ensures { result ≡ header_ok numbers.now }
{
    (field_of(numbers, 0, 0) == 1)
        & is_within(1, 64, field_of(numbers, 0, 1))
        & is_within(0, 16, field_of(numbers, 0, 2))
        & is_within(0, 128, field_of(numbers, 0, 3))
        & is_within(1, 32, field_of(numbers, 0, 4))
        & is_within(1, 512, field_of(numbers, 0, 5))
        & is_unused(numbers, 0, 6)
}

// Refusal 4's rule, for a text of so many lines.
pub fn length_ok(numbers: &[i32], lines: usize) -> bool
    ensures { result ≡ length_ok numbers.now lines }
{
    lines == 1 + field_of(numbers, 0, 3) + field_of(numbers, 0, 4) + field_of(numbers, 0, 5)
}

// The first field that a later line's position needs.
fn leading_of(numbers: &[i32], line: usize) -> usize
    ensures { result ≡ leading numbers.now line }
{
    let handles = field_of(numbers, 0, 3);
    if line <= handles {
        return 2;
    }
    if line <= handles + field_of(numbers, 0, 4) {
        return 3;
    }
    4
}

// Refusal 5's rule at a later line.
fn leading_ok(numbers: &[i32], line: usize) -> bool
    ensures { result ≡ leading_ok numbers.now line }
{
    field_of(numbers, line, 0) == leading_of(numbers, line)
}

// The lowest later line that breaks refusal 5's rule.
pub fn bad_leading(numbers: &[i32], lines: usize) -> Option<usize>
    ensures { result ≡ below (until (leading_ok numbers.now) 1 (lines - 1)) lines }
{
    first_failing(1, lines, |line| leading_ok(numbers, line))
}
