#![tactic(auto)]
// The reader under a C name, for programs in other languages. (`station` has calls of this form too, each with a promise of its own.)
ghost use Rattle.std.specs.Prelude.{◌≡◌};
ghost use Rattle.table.specs.Verdict.{verdict};
ghost use Rattle.table_export.specs.Packed.{packed_verdict};

// What is said of a text, in one number: 0 if it is accepted, else the refusal's number and its line.
#[unsafe(no_mangle)]
pub extern "C" fn table_verdict(text: &[u8]) -> u64
    ensures { result ≡ packed_verdict (verdict text.now) }
{
    match reader::read(text) {
        Ok(_) => 0,
        Err(refusal) => packing::pack(refusal.number(), refusal.line(), 0),
    }
}
