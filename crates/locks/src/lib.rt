#![tactic(auto)]
// TAKE, TAKER and GIVE. A lock's word is a set: reader n is element n, writer n is element 16 + n; 0 is nobody.
// That there are 16 locks at most is asked here: an operation gets their number and no `Loaded`, and serves for any state and any count that its array has.
// A handle, a place, that number and the state go into each function as indices and a list do.
ghost use Rattle.std.specs.Prelude.{ℕ, ◌≡◌, ◌<◌, ◌≤◌, get_or, Result};
ghost use Rattle.run_state.specs.Lists.{locks_in};
ghost use Rattle.run_state.specs.Shown.{value_place};
ghost use Rattle.operations.specs.declared.Stop.{Stop};
ghost use Rattle.locks.specs.Turns.{taking_word, reading_word, giving_word, Storable, Handed, Turned};

use operations::{Move, Place, Stop};
use run_state::State;
use run_state::frames::value_of;
use sets::{difference, has, one, with_element};

// TAKE of thread `n`: it waits while anybody holds the lock.
fn taking(word: u64, n: usize) -> Result<u64, Stop>
    requires { n < 16 }
    ensures { result ≡ taking_word n word }
{
    if word == 0 {
        Ok(one(16 + n))
    } else {
        Err(Stop::Held)
    }
}

// TAKER of thread `n`: it waits while a thread holds the lock for writing, or this one holds it at all.
fn reading(word: u64, n: usize) -> Result<u64, Stop>
    ensures { result ≡ reading_word n word }
{
    if word < 65536 && !has(word, n) {
        Ok(with_element(word, n))
    } else {
        Err(Stop::Held)
    }
}

// GIVE of thread `n`: it ends either hold.
fn giving(word: u64, n: usize) -> Result<u64, Stop>
    requires { n < 16 }
    ensures { result ≡ giving_word n word }
{
    if has(word, 16 + n) {
        Ok(0)
    } else if has(word, n) {
        Ok(difference(word, one(n)))
    } else {
        Err(Stop::NotHeld)
    }
}

// A thread's turn at the lock that handle `h` refers to, by what it makes of the lock's word: the lock has that word, and the thread goes on; or it is
// stopped, and nothing changes.
fn turn<F: FnOnce(u64) -> Result<u64, Stop>>(
    by: F,
    h: usize,
    at: Place,
    locks: usize,
    state: &mut State,
) -> Move
    requires few { locks ≤ 16 }
    requires called { F.IsAlwaysCallable by }
    requires stored { (word : ℕ) (r : Result ℕ Stop) → word < 4294967296 → F.post by word r → Storable r }
    ensures { (r : Result ℕ Stop) × F.post by (get_or (locks_in locks state.old) (get_or state.old.values (value_place at.slot h) 0) 0) r × Handed r (get_or state.old.values (value_place at.slot h) 0) at locks result state.old state.new }
{
    let k = value_of(&state.values, at.slot, h);
    let word = by(state.lock(locks, k))?;
    state.put_lock(locks, k, word);
    Ok(Some(at.next + 1))
}

// TAKE: "the free lock becomes this thread's"; it waits while anybody holds it.
pub fn take(h: usize, at: Place, locks: usize, state: &mut State) -> Move
    requires { locks ≤ 16 }
    ensures { Turned taking_word h at locks result state.old state.new }
{
    turn(|word| taking(word, at.thread), h, at, locks, state)
}

// TAKER: "takes a lock for reading"; it waits while a thread holds it for writing or this thread holds it at all.
pub fn take_read(h: usize, at: Place, locks: usize, state: &mut State) -> Move
    requires { locks ≤ 16 }
    ensures { Turned reading_word h at locks result state.old state.new }
{
    turn(|word| reading(word, at.thread), h, at, locks, state)
}

// GIVE: "ends either hold"; it is stopped where this thread holds the lock in neither way.
pub fn give(h: usize, at: Place, locks: usize, state: &mut State) -> Move
    requires { locks ≤ 16 }
    ensures { Turned giving_word h at locks result state.old state.new }
{
    turn(|word| giving(word, at.thread), h, at, locks, state)
}
