//! The first of a list is taken, in constant time.
ghost use Rattle.std.specs.Prelude.{◌≡◌, ◌<◌, ◌∷◌, length};

use std::collections::VecDeque;

/// Takes the first of a list that isn't empty.
pub(crate) fn take_first<T>(list: &mut VecDeque<T>) -> T
    requires { 0 < length list.old.items }
    ensures { list.old.items ≡ result ∷ list.new.items }
{
    match list.pop_front() {
        Some(first) => first,
        None => unreachable!(),
    }
}
