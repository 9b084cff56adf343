#![tactic(auto)]
// The loader's question: whether a table may be loaded, with what a yes promises.
ghost use Rattle.std.specs.Prelude.{◌≡◌, true, List, ℕ};
ghost use Rattle.machine.specs.State.{start};
ghost use Rattle.machine.specs.Step.{step, run};
ghost use Rattle.machine.specs.Words.{Safe};
ghost use Rattle.guarantee.specs.Reading.{EachCommon, Steady};
ghost use Rattle.analysis.specs.Reported.{table_in, loadable};

// Whether a table may be loaded: its text is accepted, and its report counts no unguarded cell and no stray GIVE. If so it is safe after every
// list of thread numbers, and a reading of a cell stays put while one of the common locks that the report prints for it is held (C-22).
pub fn may_load(text: &[u8]) -> bool
    ensures answer { result ≡ loadable text.now }
    ensures safe { result ≡ true → (ns : List ℕ) → Safe (table_in text.now) (run (table_in text.now) (start (table_in text.now)) ns) }
    ensures steady { result ≡ true → EachCommon text.now (Steady text.now step) }
{
    analysis::is_clean(text)
}
