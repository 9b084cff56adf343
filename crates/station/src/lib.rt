#![tactic(auto)]
// The check and the engine under C names, for the gauge's firmware: include/station.h.
ghost use Rattle.std.specs.Prelude.{◌≡◌, length};
ghost use Rattle.analysis.specs.Reported.{report_answer, reported_into, loadable};
ghost use Rattle.engine.specs.Run.{outcome_of, answers_left, cells_left};
ghost use Rattle.station.specs.Packed.{packed_answer, packed_outcome};

use table::Refusal;

// An answer in one number: how many bytes are written, or the number and the line of the refusal.
fn packed(answer: Result<usize, Refusal>) -> u64
    ensures { result ≡ packed_answer answer }
{
    match answer {
        Ok(bytes) => packing::pack(0, 0, bytes),
        Err(refusal) => packing::pack(refusal.number(), refusal.line(), 0),
    }
}

// The report of a table text into `out`: `analysis::report`.
#[unsafe(no_mangle)]
pub extern "C" fn station_report_packed(text: &[u8], out: &mut [u8]) -> u64
    ensures answer { result ≡ packed_answer (report_answer text.now (length out.old)) }
    ensures buffer { out.new ≡ reported_into text.now out.old }
{
    packed(analysis::report(text, out))
}

// A run of a table text by a schedule: `engine::run`.
#[unsafe(no_mangle)]
pub extern "C" fn station_run_packed(
    text: &[u8],
    schedule: &[u8],
    answers: &mut [u8],
    cells: &mut [i32],
) -> u64
    ensures outcome { result ≡ packed_outcome (outcome_of text.now schedule.now answers.old cells.old) }
    ensures answered { answers.new ≡ answers_left text.now schedule.now answers.old cells.old }
    ensures left { cells.new ≡ cells_left text.now schedule.now answers.old cells.old }
{
    let outcome = engine::run(text, schedule, answers, cells);
    packed(outcome.and(Ok(0)))
}

// Whether a table text may be loaded: `loader::may_load`.
#[unsafe(no_mangle)]
pub extern "C" fn station_may_load_text(text: &[u8]) -> bool
    ensures { result ≡ loadable text.now }
{
    loader::may_load(text)
}
