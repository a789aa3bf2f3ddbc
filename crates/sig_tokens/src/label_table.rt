ghost use Rattle.std.specs.Prelude.{◌≡◌, ◌<◌, ◌^◌, ◌++◌, [], ◌∷◌, length, position, false, None, IfOk};
ghost use Rattle.std.specs.List.{list_any};
ghost use Rattle.std.specs.Str.{bytes_eq};
ghost use Rattle.sig_program.specs.declared.label.Label.{Label};

use sig_lists::Sequence;
use sig_program::{Label, Labels};
use sig_terms::Name;
use std::alloc::{AllocError, Global};
use std::collections::BTreeMap;
use std::marker::Model;
use std::mem::{drop, replace};

/// The labels of a process while it is read, each with a name of its own. A name is looked up in
/// time in the logarithm of their count. Contracts see the labels alone.
#[derive(Drop)]
pub struct LabelTable {
    /// Where the copies of names get their memory.
    alloc: Global,
    /// The labels, in the order of their lines.
    labels: Labels,
    /// The place of each label, from 0, under its name.
    places: BTreeMap<Vec<u8>, u32>,
}

impl Model for LabelTable {
    ghost use Rattle.std.specs.Prelude.{List};
    ghost use Rattle.sig_program.specs.declared.label.Label.{Label};
    ghost use Rattle.sig_tokens.specs.NamePlaces.{IsIndexed};

    ghost Value = { List Label };

    ghost view = { λ t. t.labels };

    ghost invariant = { λ t. IsIndexed (λ (l : Label). l.name) t.labels t.places.entries };
}

impl LabelTable {
    /// No labels. It takes no memory.
    pub fn new(alloc: Global) -> LabelTable
        ensures { result ≡ [] }
    {
        LabelTable {
            alloc,
            labels: Sequence::new(alloc),
            places: BTreeMap::new(alloc),
        }
    }

    /// The place of the label of this name among the labels, from 0. `None` exactly where there is
    /// no such label.
    pub fn place_of(&self, name: &[u8]) -> Option<u32>
        ensures { result ≡ position (λ (l : Label). bytes_eq l.name name.now) self.now }
    {
        self.places.get(name).copied()
    }

    /// Whether a label has the name.
    #[tactic(auto, using(crate::proofs::PlaceLemmas::any_place))]
    pub fn has(&self, name: &[u8]) -> bool
        ensures any { result ≡ list_any (λ (l : Label). bytes_eq l.name name.now) self.now }
        ensures none { result ≡ false → position (λ (l : Label). bytes_eq l.name name.now) self.now ≡ None }
    {
        self.place_of(name).is_some()
    }

    /// The labels, with a further one at the end.
    fn with(self, label: Label) -> Result<LabelTable, AllocError>
        requires new { position (λ (l : Label). bytes_eq l.name label.name) self ≡ None }
        requires few { length self < 2 ^ 32 }
        ensures { IfOk result (λ t. t ≡ self ++ label ∷ []) }
    {
        let LabelTable {
            alloc,
            mut labels,
            mut places,
        } = self;
        let key = Vec::from_slice(alloc, label.name.bytes())?;
        places.insert(key, labels.len() as u32)?;
        labels.add(label)?;
        Ok(LabelTable {
            alloc,
            labels,
            places,
        })
    }

    /// Adds a label at the end. Without memory for it the labels are of no use.
    ///
    /// Asks that no label of this name is there, as [`LabelTable::has`] tells, and that there are
    /// fewer than 2^32 labels.
    pub fn add(&mut self, alloc: Global, label: Label) -> Result<(), AllocError>
        requires new { position (λ (l : Label). bytes_eq l.name label.name) self.old ≡ None }
        requires few { length self.old < 2 ^ 32 }
        ensures { IfOk result (λ u. self.new ≡ self.old ++ label ∷ []) }
    {
        let labels = replace(self, LabelTable::new(alloc)).with(label)?;
        drop(replace(self, labels));
        Ok(())
    }

    /// The labels, in the order of their lines.
    pub fn labels(&self) -> &[Label]
        ensures { result.now ≡ self.now }
    {
        self.labels.as_slice()
    }

    /// The labels alone.
    pub fn into_labels(self) -> Labels
        ensures { result ≡ self }
    {
        self.labels
    }
}
