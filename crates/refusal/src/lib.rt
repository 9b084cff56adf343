#![tactic(auto)]
// Line 50: the number and the line of a refusal, as every program prints it.
ghost use Rattle.std.specs.Prelude.{◌≡◌, length};
ghost use Rattle.refusal.specs.Refusal.{refusal_in, over};

// Writes line 50 to the start of `out`, the places behind it stay, and returns how many bytes it has. If the number or the line is no field of a
// line, or `out` is shorter than a line, no byte is written and 0 is returned: the length of what is written, as the definition `refusal_in` says. Number and
// line are two parameters: document 02 has numbers to come, and `table::Refusal` has 1 to 13 alone.
pub fn print_refusal(out: &mut [u8], number: u32, line: usize) -> usize
    ensures bytes { result ≡ length (refusal_in number line (length out.old)) }
    ensures buffer { out.new ≡ over (refusal_in number line (length out.old)) out.old }
{
    let Ok(first) = i32::try_from(number) else {
        return 0;
    };
    let Ok(second) = i32::try_from(line) else {
        return 0;
    };
    match line_printer::print_line(out, 0, [50, first, second, 0, 0, 0, 0, 0]) {
        Ok(()) => 49,
        Err(_) => 0,
    }
}
