#![tactic(auto)]
// An answer of three numbers in one, for the C boundary: a number, a line and a count, as C has them.
ghost use Rattle.std.specs.Prelude.{◌≡◌};
ghost use Rattle.packing.specs.Packed.{packed};

// A number, a line and a count of bytes in one number.
pub fn pack(number: u32, line: usize, bytes: usize) -> u64
    ensures { result ≡ packed number line bytes }
{
    // The two counts by `as`: std has no `u64::from` of a usize, and `try_from` has an error that cannot come.
    u64::from(number) % 65_536 * 281_474_976_710_656
        + line as u64 % 65_536 * 4_294_967_296
        + bytes as u64 % 4_294_967_296
}
