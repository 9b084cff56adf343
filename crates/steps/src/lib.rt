#![tactic(auto)]
// One step of a thread on the state of a run, and the steps of a schedule. Between steps the state is the caller's, who
// may step several by one table, so that table and state are two parameters.
ghost use Rattle.std.specs.Prelude.{◌≡◌, ◌≤◌, length};
ghost use Rattle.table.specs.Table.{table_of};
ghost use Rattle.run_state.specs.Shown.{Standing};
ghost use Rattle.operations.specs.Step.{number_of, numbered};
ghost use Rattle.steps.specs.Stepped.{Steps, Follows, Here, Operated};

use operations::{Move, Place, Step, TurnedDown};
use run_state::{Loaded, State};
use table::Statement;

// The byte that answers a step: 0 where it ran, else the refusal's number.
pub fn answer_byte(answer: Step) -> u8
    ensures { result ≡ number_of (numbered answer) }
{
    match answer {
        Ok(_) => 0,
        Err(why) => why.number(),
    }
}

// Runs a thread's next statement once, by its operation; the frame's next statement is left to be stored.
fn operate(loaded: &Loaded<'_>, statement: Statement, at: Place, state: &mut State) -> Move
    requires { Here loaded.now.program state.old at statement }
    ensures { Operated (table_of loaded.now.program) state.old state.new at statement result }
{
    // named for the proof, which then knows that the table is accepted
    let program = &loaded.program;
    let _ = &program.base;
    let cells = loaded.cells;
    let locks = loaded.locks;
    match statement {
        Statement::Read(h) => operations::read(h.number, at, cells, state),
        Statement::Write(h) => operations::write(h.number, at, cells, state),
        Statement::Set(number) => operations::set(number, at, state),
        Statement::Add(number) => operations::add(number, at, state),
        Statement::Take(h) => locks::take(h.number, at, locks, state),
        Statement::Give(h) => locks::give(h.number, at, locks, state),
        Statement::Point { handle: h, from: g } => operations::point(h.number, g.number, at, state),
        Statement::Call { routine, arguments } => operations::call(
            loaded, routine, arguments, at, state,
        ),
        Statement::Start { routine, arguments } => operations::start(
            loaded, routine, arguments, at, state,
        ),
        Statement::Jump(target) => Ok(Some(target.statement)),
        Statement::JumpZero(target) => operations::jump_zero(target.statement, at, state),
        Statement::Return => operations::close(at, state),
        Statement::TakeRead(h) => locks::take_read(h.number, at, locks, state),
    }
}

// One step of thread `n`: its next statement, once; an error where it has none. The state shows some state of the machine; of every such state it shows
// afterwards the one after the step.
pub fn step(loaded: &Loaded<'_>, n: usize, state: &mut State) -> Step
    requires { Standing (table_of loaded.now.program) state.old }
    ensures { Steps (table_of loaded.now.program) state.old state.new n result }
{
    if state.started <= n {
        return Err(TurnedDown::NotStarted);
    }
    // `as`, here and below: see `State`
    let count = state.counts[n] as usize;
    if count == 0 {
        return Err(TurnedDown::Ended);
    }
    let slot = n * 32 + count - 1;
    let next = state.nexts[slot] as usize;
    let program = &loaded.program;
    let statement = table::statement_at(program.numbers, program.base + next);
    let at = Place {
        thread: n,
        slot,
        next,
    };
    let after = operate(loaded, statement, at, state).map_err(|why| TurnedDown::Stopped {
        statement,
        why,
    })?;
    if let Some(s) = after {
        state.nexts[slot] = s as u32;
    }
    Ok(statement)
}

// The steps of a schedule, each byte a thread number, in order, with one answer for each in the first places of `answers`; by an index, since it is the place
// in both.
pub fn follow(loaded: &Loaded<'_>, schedule: &[u8], answers: &mut [u8], state: &mut State)
    requires { Standing (table_of loaded.now.program) state.old × (length schedule.now ≤ length answers.old) }
    ensures { Follows (table_of loaded.now.program) state.old state.new schedule.now answers.old answers.new }
{
    for i in 0..schedule.len() {
        let n = usize::from(schedule[i]);
        let answer = step(loaded, n, state);
        answers[i] = answer_byte(answer);
    }
}
