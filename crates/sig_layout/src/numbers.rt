ghost use Rattle.std.specs.Prelude.{◌≡◌, ◌<◌, ◌≤◌, ◌+◌, ◌-◌, ◌^◌, [], ◌∷◌, ◌++◌, length, replicate, slice_get, IfOk, OnSome, MatchResult};
ghost use Rattle.std.specs.Option.{option_copied};
ghost use Rattle.sig_lists.specs.Pushing.{IsPushed};

use crate::run::Run;
use sig_lists::Pushed;
use std::alloc::{AllocError, Global};
use std::marker::Model;

/// A list of numbers, of which only those other than 1 take memory. Contracts see the list.
#[derive(Drop)]
pub struct Numbers {
    /// The numbers other than 1, each with the ones before it.
    runs: Vec<Run>,
    /// How many ones come behind them.
    ones: usize,
    /// How many numbers there are.
    len: usize,
    /// The one that is shown.
    one: u64,
}

impl Model for Numbers {
    ghost use Rattle.std.specs.Prelude.{◌≡◌, List, ℕ, length};
    ghost use Rattle.sig_layout.specs.Runs.{listed};

    ghost Value = { List ℕ };

    ghost view = { λ n. listed n.runs.items n.ones };

    ghost invariant = { λ n. (n.len ≡ length (listed n.runs.items n.ones)) × (n.one ≡ 1) };
}

impl Numbers {
    /// The empty list. It takes no memory.
    pub fn new(alloc: Global) -> Numbers
        ensures { result ≡ [] }
    {
        Numbers::ones(alloc, 0)
    }

    /// So many ones. They take no memory.
    pub fn ones(alloc: Global, count: usize) -> Numbers
        ensures { result ≡ replicate count 1 }
    {
        Numbers {
            runs: Vec::new(alloc),
            ones: count,
            len: count,
            one: 1,
        }
    }

    /// How many numbers there are.
    pub fn len(&self) -> usize
        ensures { result ≡ length self.now }
    {
        self.len
    }

    /// The number at this place, from 0. `None` exactly where the place isn't below the length. It
    /// looks at each number other than 1 that stands before it.
    pub fn get(&self, index: usize) -> Option<&u64>
        ensures value { option_copied result ≡ slice_get self.now index }
        ensures within { OnSome result (index < length self.now) }
    {
        let mut left = index;
        for at in 0..self.runs.len() {
            let run = &self.runs[at];
            if left < run.ones {
                return Some(&self.one);
            }
            left -= run.ones;
            if left == 0 {
                return Some(&run.number);
            }
            left -= 1;
        }
        if left < self.ones {
            Some(&self.one)
        } else {
            None
        }
    }

    /// Adds a number at the end. A one takes no memory. There is no room for more than 2^64 - 1
    /// numbers.
    pub fn push(&mut self, item: u64) -> Pushed<u64>
        ensures { IsPushed self.old self.new item result }
    {
        match self.add(item) {
            Ok(()) => Pushed::Added,
            Err(_) => Pushed::Memory { item },
        }
    }

    /// Adds a number at the end, as [`Numbers::push`] does, for callers that don't want it back.
    pub fn add(&mut self, item: u64) -> Result<(), AllocError>
        ensures { MatchResult result
            (λ _. self.new ≡ self.old ++ item ∷ [])
            (λ _. self.new ≡ self.old) }
    {
        if self.len == usize::MAX {
            return Err(AllocError);
        }
        if item == 1 {
            self.pad(self.len + 1);
            return Ok(());
        }
        self.add_run(item)
    }

    /// Adds a number behind the ones at the end, which are in a run with it then.
    fn add_run(&mut self, number: u64) -> Result<(), AllocError>
        requires { length self.old + 1 < 2 ^ 64 }
        ensures { MatchResult result
            (λ _. self.new ≡ self.old ++ number ∷ [])
            (λ _. self.new ≡ self.old) }
    {
        let run = Run {
            ones: self.ones,
            number,
        };
        self.runs.push(run)?;
        self.ones = 0;
        self.len += 1;
        Ok(())
    }

    /// Adds ones at the end, until there are so many numbers. They take no memory.
    ///
    /// Asks that there aren't more already.
    pub fn pad(&mut self, len: usize)
        requires { length self.old ≤ len }
        ensures { self.new ≡ self.old ++ replicate (len - length self.old) 1 }
    {
        self.ones += len - self.len;
        self.len = len;
    }

    /// An equal list. The error is want of memory.
    pub fn copy(&self, alloc: Global) -> Result<Numbers, AllocError>
        ensures { IfOk result (λ ns. ns ≡ self.now) }
    {
        let mut runs = Vec::new(alloc);
        runs.extend_from_slice(self.runs.as_slice())?;
        Ok(Numbers {
            runs,
            ones: self.ones,
            len: self.len,
            one: 1,
        })
    }
}
