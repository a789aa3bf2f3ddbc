//! The nodes of a term: how many, how deep, and whether one is a reference.

ghost use Rattle.std.specs.Prelude.{◌≡◌, ◌-◌, ◌^◌, min, map, sum};
ghost use Rattle.std.specs.List.{list_any};
ghost use Rattle.sig_terms.specs.Nodes.{node_count, depth_of, greatest, holds};

use crate::reference::Ref;
use crate::term::Term;

/// How many nodes the terms have together.
#[cycle(size)]
fn size_all(items: &[Term]) -> u64
    ensures { result ≡ min (sum (map node_count items.now)) (2 ^ 64 - 1) }
{
    let mut nodes = 0u64;
    for item in items {
        nodes = nodes.saturating_add(item.size());
    }
    nodes
}

/// The greatest depth of one of the terms, and 0 where there are none.
#[cycle(depth)]
fn greatest_depth(items: &[Term]) -> u64
    ensures { result ≡ min (greatest (map depth_of items.now)) (2 ^ 64 - 1) }
{
    let mut deepest = 0u64;
    for item in items {
        deepest = deepest.max(item.depth());
    }
    deepest
}

/// Whether one of the terms holds the reference.
#[cycle(holds_ref)]
fn any_holds_ref(items: &[Term], reference: Ref) -> bool
    ensures { result ≡ list_any (λ b. b) (map (holds reference) items.now) }
{
    for item in items {
        if item.holds_ref(reference) {
            return true;
        }
    }
    false
}

impl Term {
    /// How many nodes the term has: 1 for each integer, atom, pid, reference, tuple and list. A
    /// count past the greatest `u64` is answered as the greatest.
    #[cycle(size)]
    pub fn size(&self) -> u64
        ensures { result ≡ min (node_count self.now) (2 ^ 64 - 1) }
    {
        match self {
            Term::Tuple(items) => size_all(items.as_slice()).saturating_add(1),
            Term::List(items) => size_all(items.as_slice()).saturating_add(1),
            _ => 1,
        }
    }

    /// 1 for a term without elements, else 1 more than the greatest depth of an element. A depth
    /// past the greatest `u64` is answered as the greatest.
    #[cycle(depth)]
    pub fn depth(&self) -> u64
        ensures { result ≡ min (depth_of self.now) (2 ^ 64 - 1) }
    {
        match self {
            Term::Tuple(items) => greatest_depth(items.as_slice()).saturating_add(1),
            Term::List(items) => greatest_depth(items.as_slice()).saturating_add(1),
            _ => 1,
        }
    }

    /// Whether some node of the term is the reference.
    #[cycle(holds_ref)]
    pub fn holds_ref(&self, reference: Ref) -> bool
        ensures { result ≡ holds reference self.now }
    {
        match self {
            Term::Ref(own) => *own == reference,
            Term::Tuple(items) => any_holds_ref(items.as_slice(), reference),
            Term::List(items) => any_holds_ref(items.as_slice(), reference),
            _ => false,
        }
    }
}
