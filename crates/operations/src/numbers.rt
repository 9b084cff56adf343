// The saturating sum of two 32-bit numbers. By hand, and casts by `as`: of the library's `saturating_add` no edit of a sum at an end is refused for its fact.
ghost use Rattle.std.specs.Prelude.{◌≡◌, ◌+ℤ◌};
ghost use Rattle.machine.specs.Step.{saturate};

// The sum of two numbers, stopped at both ends of the range.
pub fn saturating_sum(a: i32, b: i32) -> i32
    ensures { result ≡ saturate (a +ℤ b) }
{
    let sum = a as i64 + b as i64;
    if 2_147_483_647 < sum {
        2_147_483_647
    } else if sum < -2_147_483_648 {
        -2_147_483_648
    } else {
        sum as i32
    }
}
