ghost use Rattle.std.specs.Prelude.{◌≡◌, ◌<◌, [], ◌∷◌, ◌++◌, length, slice_get, IsTrue, ◌↔◌, OnSome, MatchOption, MatchResult};
ghost use Rattle.std.specs.Option.{option_copied};
ghost use Rattle.sig_lists.specs.Pushing.{IsPushed};

use crate::pushed::Pushed;
use crate::same::{Same, same_items};
use std::alloc::{AllocError, Global};
use std::marker::Model;

/// A list of items, added to and taken from at its end. Contracts see the items alone, so a copy equals what it
/// copies, and a type that holds a sequence of itself is plain data.
#[derive(Drop)]
pub struct Sequence<T> {
    items: Vec<T>,
}

impl<T> Model for Sequence<T> {
    ghost use Rattle.std.specs.Prelude.{List};
    ghost use Rattle.std.specs.Coded.{coded_list};

    ghost Value = { List T };

    ghost coded = { coded_list T.code };

    ghost view = { λ s. s.items.items };
}

impl<T> Sequence<T> {
    /// The empty list. It takes no memory.
    pub fn new(alloc: Global) -> Sequence<T>
        ensures { result ≡ [] }
    {
        Sequence {
            items: Vec::new(alloc),
        }
    }

    /// The list of these items.
    pub fn from_vec(items: Vec<T>) -> Sequence<T>
        ensures { result ≡ items.items }
    {
        Sequence { items }
    }

    /// The items of the list.
    pub fn into_vec(self) -> Vec<T>
        ensures { result.items ≡ self }
    {
        self.items
    }

    /// How many items there are.
    pub fn len(&self) -> usize
        ensures { result ≡ length self.now }
    {
        self.items.len()
    }

    /// Whether there is no item.
    pub fn is_empty(&self) -> bool
        ensures { IsTrue result ↔ (self.now ≡ []) }
    {
        self.items.is_empty()
    }

    /// The item at this place, from 0. `None` exactly where the place isn't below the length.
    pub fn get(&self, index: usize) -> Option<&T>
        ensures value { option_copied result ≡ slice_get self.now index }
        ensures within { OnSome result (index < length self.now) }
    {
        self.items.get(index)
    }

    /// The items, from the first to the last.
    pub fn as_slice(&self) -> &[T]
        ensures { result.now ≡ self.now }
    {
        self.items.as_slice()
    }

    /// Adds an item at the end.
    pub fn push(&mut self, item: T) -> Pushed<T>
        ensures { IsPushed self.old self.new item result }
    {
        match self.items.push(item) {
            Ok(()) => Pushed::Added,
            Err(full) => Pushed::Memory { item: full.value },
        }
    }

    /// Adds an item at the end, for callers that don't want it back: without memory for it it is
    /// dropped, and the list is as before.
    pub fn add(&mut self, item: T) -> Result<(), AllocError>
    where
        T: Drop,
        ensures { MatchResult result
            (λ _. self.new ≡ self.old ++ item ∷ [])
            (λ _. self.new ≡ self.old) }
    {
        self.items.push(item)?;
        Ok(())
    }

    /// Takes the last item, in constant time. `None` exactly where there is none.
    pub fn pop(&mut self) -> Option<T>
        ensures { MatchOption result
            ((self.old ≡ []) × (self.new ≡ []))
            (λ last. self.old ≡ self.new ++ last ∷ []) }
    {
        self.items.pop()
    }
}

impl<T: Same> Same for Sequence<T> {
    /// Whether the two have equal items in the same order.
    fn same(&self, other: &Sequence<T>) -> bool
        ensures { IsTrue result ↔ (self.now ≡ other.now) }
    {
        same_items(self.as_slice(), other.as_slice())
    }
}
