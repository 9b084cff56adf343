#![tactic(auto)]
// What stands at a place of a list, past its end too, and the front of a list. Each is said once, for all crates above.
ghost use Rattle.std.specs.Prelude.{◌≡◌, get_or, take};

// The element at place `i` of a list; `beyond` past the end.
pub fn value_at<T: Copy>(list: &[T], i: usize, beyond: T) -> T
    ensures { result ≡ get_or list.now i beyond }
{
    list.get(i).copied().unwrap_or(beyond)
}

// The first `n` of a list, or all of them.
pub fn front<T>(list: &[T], n: usize) -> &[T]
    ensures { result.now ≡ take n list.now }
{
    &list[..n.min(list.len())]
}
