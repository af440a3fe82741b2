//! A stack of values of the trees that wait for the pair above them.

ghost use Rattle.std.specs.Prelude.{◌≡◌, ◌≤◌, ◌++◌, ◌∷◌, [], vec_len};

/// The two latest of the values that wait, the earlier one first: those of a pair's left part and of its right part.
/// They leave the list.
pub fn take_pair<T: Copy>(waiting: &mut Vec<T>) -> (T, T)
    requires two { 2 ≤ vec_len waiting.old }
    ensures { waiting.old.items ≡ waiting.new.items ++ result.0 ∷ result.1 ∷ [] }
{
    let (Some(second), Some(first)) = (waiting.pop(), waiting.pop()) else {
        unreachable!()
    };
    (first, second)
}
