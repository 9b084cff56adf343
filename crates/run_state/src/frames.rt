// The handle values of frames. Frame d of thread n, the oldest 0, stands in slot n * 32 + d, and the value of its routine's handle h in `values` at
// slot * 8 + h % 8 (a routine has at most eight handles, in a row). A value is cast by `as`: `TryFrom` would answer with a `Result` that cannot fail.
// One list and a place reckoned of two, and no list of lists: what is promised of it, kept and set, is by place. An origin is a number as in its line. Values
// and a slot go into each function as a list and an index do.
ghost use Rattle.std.specs.Prelude.{◌≡◌, ◌+◌, ◌*◌, ◌<◌, get_or, set, length};
ghost use Rattle.table.specs.Table.{table_of};
ghost use Rattle.table.specs.Extents.{first_handles};
ghost use Rattle.table.specs.Accepted.{Accepted};
ghost use Rattle.run_state.specs.Shown.{value_place, HandlesThere, Entered, entry_value};

use super::Loaded;
use table::Arguments;

// What handle `h` refers to in the frame in `slot`.
pub fn value_of(values: &[u8; 4096], slot: usize, h: usize) -> usize
    requires { slot < 512 }
    ensures { (result ≡ get_or values.now (value_place slot h) 0) × (result < 256) }
{
    usize::from(values[slot * 8 + h % 8])
}

// Lets handle `h` refer to `v` in the frame in `slot`.
pub fn put_value(values: &mut [u8; 4096], slot: usize, h: usize, v: usize)
    requires { (slot < 512) × (v < 256) }
    ensures { values.new ≡ set values.old (value_place slot h) v }
{
    values[slot * 8 + h % 8] = v as u8;
}

// What handle `h` refers to in a new frame: as a parameter what handle `g` does in the frame in slot `caller`, as a local its start.
fn entry_value(numbers: &[i32], h: usize, g: usize, values: &[u8; 4096], caller: usize) -> usize
    requires { (caller < 512) × (h < length (table_of numbers.now).handles) × Accepted (table_of numbers.now) × HandlesThere numbers.now }
    ensures { (result ≡ entry_value (table_of numbers.now) values.now caller g h) × (result < 256) }
{
    if table::field_in(numbers, 1 + h, 3) == 0 {
        value_of(values, caller, g)
    } else {
        table::field_in(numbers, 1 + h, 4)
    }
}

// Sets the handles of a routine in the new frame in `slot`: parameters to what the arguments refer to in the frame in slot `caller`, locals to their
// starts. Inlined into CALL and START both: as a call, each CALL takes a tenth more instructions.
#[inline(always)]
pub fn enter(
    loaded: &Loaded<'_>,
    routine: usize,
    arguments: Arguments,
    values: &mut [u8; 4096],
    slot: usize,
    caller: usize,
)
    requires { (routine < 32) × (slot < 512) × (caller < 512) × (caller ≡ slot → ⊥) }
    ensures accepted { Accepted (table_of loaded.now.program) }
    ensures entered { Entered (table_of loaded.now.program) values.old values.new slot caller (get_or (first_handles loaded.now.program) routine 0) (get_or (first_handles loaded.now.program) (routine + 1) 0) arguments }
{
    let program = &loaded.program;
    let numbers = program.numbers;
    let from = program.extents.handle[routine];
    let end = program.extents.handle[routine + 1];
    // by a look-up: `Arguments::at` is a match, and so a second indirect jump in each turn
    let passed = [
        arguments.first,
        arguments.second,
        arguments.third,
        arguments.fourth,
    ];
    for h in from..end {
        let g = lists::value_at(&passed, h - from, 0);
        let v = entry_value(numbers, h, g, values, caller);
        put_value(values, slot, h, v);
    }
}
