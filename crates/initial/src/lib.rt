#![tactic(auto)]
// The sets that each dataflow equation begins with, in lists that the caller lends.
// `Act` is matched in `touched` alone, and a handle's origin is a number there as in its line.
ghost use Rattle.std.specs.Prelude.{◌≡◌, ◌≤◌, ◌<◌, ◌-◌, ℕ, length};
ghost use Rattle.table.specs.Header.{handles, routines, statements};
ghost use Rattle.table.specs.Fields.{field};
ghost use Rattle.table.specs.Table.{table_of, statement, statement_in};
ghost use Rattle.table.specs.Tabulate.{tabulate};
ghost use Rattle.table.specs.View.{view, set_on};
ghost use Rattle.report.specs.Flow.{start_of};
ghost use Rattle.report.specs.Over.{union_from};
ghost use Rattle.initial.specs.InitialSets.{touched, own_set, in_routine, effect_at, nexts_effect, future_initial};

use declarations::program::Program;

// What a statement may do through a handle: give up a lock, read a cell or write it.
#[derive(Clone, Copy)]
pub enum Act {
    Gives,
    Reads,
    Writes,
}

// Fills the list with what `value` says of each place; by an index, since that is what `value` takes.
pub fn fill_each<F: Fn(usize) -> u64>(out: &mut [u64], value: F)
    requires { (p : ℕ) → p < length out.old → F.pre value p }
    ensures { (at : ℕ → ℕ) → ((p r : ℕ) → p < length out.old → F.post value p r → r ≡ at p) → out.new ≡ tabulate (length out.old) at }
{
    for p in 0..out.len() {
        out[p] = value(p);
    }
}

// The union of what `value` says of each number from `from` on, below `end`.
pub fn unite_each<F: Fn(usize) -> u64>(from: usize, end: usize, value: F) -> u64
    requires { (s : ℕ) → from ≤ s → s < end → F.pre value s }
    ensures { (at : ℕ → ℕ) → ((s r : ℕ) → from ≤ s → s < end → F.post value s r → r ≡ at s) → result ≡ union_from from (end - from) at }
{
    let mut all = 0;
    for s in (from..end).rev() {
        all = sets::union(value(s), all);
    }
    all
}

// What the set of handle `h` begins with: a local's start.
fn flow_initial(program: &Program<'_>, h: usize) -> u64
    requires { h < handles program.now }
    ensures { result ≡ start_of (table_of program.now) h }
{
    let numbers = program.numbers;
    let line = 1 + h;
    if table::field_of(numbers, line, 3) == 1 {
        return sets::one(table::field_of(numbers, line, 4));
    }
    0
}

// Fills the list with what the flow sets begin with.
pub fn fill_flow(program: &Program<'_>, out: &mut [u64])
    requires { length out.old ≡ handles program.now }
    ensures { out.new ≡ tabulate (length out.old) (start_of (table_of program.now)) }
{
    fill_each(out, |h| flow_initial(program, h));
}

// The handle through which the statement on a line acts so.
fn touched(numbers: &[i32], line: usize, act: Act) -> Option<usize>
    ensures { result ≡ touched act (view (statement_in numbers.now line (field numbers.now line 1))) }
{
    match act {
        Act::Gives => attributes::gives_at(numbers, line),
        Act::Reads => attributes::reads_at(numbers, line),
        Act::Writes => attributes::writes_at(numbers, line),
    }
}

// What the statements of an accepted table do in one way, by the flow sets.
#[derive(Clone, Copy)]
pub struct Acts<'a> {
    pub program: &'a Program<'a>,
    pub flow: &'a [u64],
    pub act: Act,
}

impl<'a> Acts<'a> {
    // The locks that statement `s` itself may give up, or the cells that it reads or writes.
    fn own_set(&self, s: usize) -> u64
        requires { s < statements self.now.program.now }
        ensures { result ≡ own_set self.now.act self.now.flow.now (statement (table_of self.now.program.now) s) }
    {
        let program = self.program;
        attributes::set_on(
            touched(program.numbers, program.line_of(s), self.act),
            self.flow,
        )
    }

    // The union of these over the statements of routine `r`.
    fn in_routine(&self, r: usize) -> u64
        requires { r < routines self.now.program.now }
        ensures { result ≡ in_routine self.now.act self.now.flow.now (table_of self.now.program.now) r }
    {
        let program = self.program;
        let begin = lists::value_at(&program.extents.first, r, 0);
        let end = lists::value_at(&program.extents.first, r + 1, 0);
        unite_each(begin, end, |s| self.own_set(s))
    }

    // Fills the list with these unions, one for each routine.
    pub fn fill_own(&self, out: &mut [u64])
        requires { length out.old ≡ routines self.now.program.now }
        ensures { out.new ≡ tabulate (length out.old) (in_routine self.now.act self.now.flow.now (table_of self.now.program.now)) }
    {
        fill_each(out, |r| self.in_routine(r));
    }
}

// The same with the effect of each routine, which is what its statements and those of the routines that it names do.
#[derive(Clone, Copy)]
pub struct Effects<'a> {
    pub acts: Acts<'a>,
    pub effect: &'a [u64],
}

impl<'a> Effects<'a> {
    // The effect of statement `s`; nothing if there is no such statement.
    fn effect_at(&self, s: usize) -> u64
        ensures { result ≡ effect_at self.now.acts.act self.now.acts.flow.now self.now.effect.now (table_of self.now.acts.program.now) s }
    {
        let program = self.acts.program;
        if program.statements() <= s {
            return 0;
        }
        let names = attributes::names_at(program.numbers, program.line_of(s));
        sets::union(self.acts.own_set(s), attributes::set_on(names, self.effect))
    }

    // The effect of the statement that is referred to, if one is.
    fn effect_on(&self, reference: Option<usize>) -> u64
        ensures { result ≡ set_on reference (effect_at self.now.acts.act self.now.acts.flow.now self.now.effect.now (table_of self.now.acts.program.now)) }
    {
        // not `map_or`: what it ensures of the closure did not close the proof
        match reference {
            Some(s) => self.effect_at(s),
            None => 0,
        }
    }

    // The effects of the statements that may come after statement `s`.
    fn nexts_effect(&self, s: usize) -> u64
        requires { s < statements self.now.acts.program.now }
        ensures { result ≡ nexts_effect self.now.acts.act self.now.acts.flow.now self.now.effect.now (table_of self.now.acts.program.now) s }
    {
        let program = self.acts.program;
        let line = program.line_of(s);
        let target = attributes::target_at(program.numbers, line);
        let there = self.effect_on(target);
        if attributes::onward_at(program.numbers, line) {
            return sets::union(there, self.effect_at(s + 1));
        }
        there
    }

    // What the future at place `p` begins with: the effects of what may come next, and nothing behind the last statement.
    fn future_initial(&self, p: usize) -> u64
        ensures { result ≡ future_initial self.now.acts.act self.now.acts.flow.now self.now.effect.now (table_of self.now.acts.program.now) p }
    {
        if p < self.acts.program.statements() {
            return self.nexts_effect(p);
        }
        0
    }

    // Fills the list with what futures begin with.
    pub fn fill_future(&self, out: &mut [u64])
        ensures { out.new ≡ tabulate (length out.old) (future_initial self.now.acts.act self.now.acts.flow.now self.now.effect.now (table_of self.now.acts.program.now)) }
    {
        fill_each(out, |p| self.future_initial(p));
    }
}
