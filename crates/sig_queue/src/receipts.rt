ghost use Rattle.std.specs.Prelude.{◌≡◌, ◌<◌, [], length, slice_get, OnSome};
ghost use Rattle.std.specs.Option.{option_copied};
ghost use Rattle.sig_lists.specs.Pushing.{IsPushed};
ghost use Rattle.sig_queue.specs.Accounts.{EachMayFollow, all_followed};

use crate::receipt::Receipt;
use sig_lists::Pushed;
use std::alloc::Global;
use std::marker::Model;

/// A list of receipts. Contracts see what each says.
#[derive(Drop)]
pub struct Receipts {
    items: Vec<Receipt>,
}

impl Model for Receipts {
    ghost use Rattle.std.specs.Prelude.{List};
    ghost use Rattle.std.specs.Coded.{codes};
    ghost use Rattle.sig_terms.specs.contracts.term.Term as term;
    ghost use Rattle.sig_queue.specs.declared.account.Account.{Account};

    ghost Value = { List Account };

    ghost coded = { Prim.hlevel (codes, term.the_row.coded) };

    ghost view = { λ r. r.items.items };
}

impl Receipts {
    /// The empty list. It takes no memory.
    pub fn new(alloc: Global) -> Receipts
        ensures { result ≡ [] }
    {
        Receipts {
            items: Vec::new(alloc),
        }
    }

    /// How many receipts there are.
    pub fn len(&self) -> usize
        ensures { result ≡ length self.now }
    {
        self.items.len()
    }

    /// The receipt at this place, from 0. `None` exactly where the place isn't below the length.
    pub fn get(&self, index: usize) -> Option<&Receipt>
        ensures value { option_copied result ≡ slice_get self.now index }
        ensures within { OnSome result (index < length self.now) }
    {
        self.items.get(index)
    }

    /// Adds a receipt at the end.
    pub fn push(&mut self, item: Receipt) -> Pushed<Receipt>
        ensures { IsPushed self.old self.new item result }
    {
        match self.items.push(item) {
            Ok(()) => Pushed::Added,
            Err(full) => Pushed::Memory { item: full.value },
        }
    }

    /// Each receipt of `later` follows the one at the same place.
    ///
    /// Asks that both lists have the same length, and of each two receipts what [`Receipt::follow`]
    /// asks.
    pub fn follow(&mut self, later: Receipts)
        requires { EachMayFollow self.old later }
        ensures { self.new ≡ all_followed self.old later }
    {
        let Receipts { mut items } = later;
        while let Some(receipt) = items.pop() {
            self.items[items.len()].follow(receipt);
        }
    }
}
