ghost use Rattle.std.specs.Prelude.{◌≡◌, IsTrue, ◌↔◌};

/// Values that can be told apart.
pub trait Same {
    /// Whether the two are equal.
    fn same(&self, other: &Self) -> bool
        ensures { IsTrue result ↔ (self.now ≡ other.now) };
}

/// Whether the two have equal items in the same order.
pub fn same_items<T: Same>(items: &[T], others: &[T]) -> bool
    ensures { IsTrue result ↔ (items.now ≡ others.now) }
{
    if items.len() != others.len() {
        return false;
    }
    for at in 0..items.len() {
        if !items[at].same(&others[at]) {
            return false;
        }
    }
    true
}
