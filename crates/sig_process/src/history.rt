ghost use Rattle.std.specs.Prelude.{◌≡◌, ◌<◌, [], ◌∷◌, ◌++◌, OnOk};

use sig_kinds::Signal;
use std::alloc::{AllocError, Global};
use std::marker::Model;
use std::snapshot::Snapshot;

/// The signals that a process handled, in their order, and for how many more there is room. Only
/// contracts see the signals: at run time they are counted, and what they say may be moved on.
#[derive(Drop)]
pub(crate) struct History {
    seen: Vec<Snapshot<Signal>>,
}

impl Model for History {
    ghost use Rattle.std.specs.Prelude.{◌-◌, map, vec_capacity, vec_len};
    ghost use Rattle.std.specs.Coded.{codes};
    ghost use Rattle.sig_terms.specs.contracts.term.Term as term;
    ghost use Rattle.sig_kinds.specs.SignalList.{SignalList};

    ghost Value = { SignalList };

    ghost coded = { Prim.hlevel (codes, term.the_row.coded) };

    ghost view = { λ h. record {
      items = map (λ s. s.value) h.seen.items;
      spare = vec_capacity h.seen - vec_len h.seen;
    } };
}

impl History {
    /// That of a process which has handled none.
    pub(crate) fn new(alloc: Global) -> History
        ensures { result.items ≡ [] }
    {
        History {
            seen: Vec::new(alloc),
        }
    }

    /// Makes room for one more signal. The error is want of memory.
    pub(crate) fn room(&mut self) -> Result<(), AllocError>
        ensures items { self.new.items ≡ self.old.items }
        ensures ok { OnOk result (0 < self.new.spare) }
    {
        self.seen.reserve(1)
    }

    /// Tells a signal that is handled, where there is room.
    pub(crate) fn add(&mut self, signal: &Signal)
        requires { 0 < self.old.spare }
        ensures items { self.new.items ≡ self.old.items ++ signal.now ∷ [] }
    {
        self.seen.push_reserved(Snapshot::of(signal))
    }
}
