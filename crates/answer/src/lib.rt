#![tactic(auto)]
// What the program `check` prints for a text: its report, or line 50 with the number and the line of its refusal.
ghost use Rattle.std.specs.Prelude.{◌≡◌, ◌≤◌, length};
ghost use Rattle.refusal.specs.Refusal.{over};
ghost use Rattle.answer.specs.Said.{said_of};

// Writes what is said of a text to the start of `out`, the places behind it stay, and returns how many bytes that are: the report of an accepted
// text; line 50 of a refused one, and with number 13 if `out` is shorter than the report; nothing if `out` is shorter than line 50 too.
pub fn print_answer(text: &[u8], out: &mut [u8]) -> usize
    ensures bytes { result ≡ length (said_of text.now (length out.old)) }
    ensures room { result ≤ length out.old }
    ensures buffer { out.new ≡ over (said_of text.now (length out.old)) out.old }
{
    match analysis::report(text, out) {
        Ok(bytes) => bytes,
        Err(refusal) => refusal::print_refusal(out, refusal.number(), refusal.line()),
    }
}
