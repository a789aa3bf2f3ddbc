ghost use Rattle.std.specs.Prelude.{◌≡◌, ◌<◌, ◌^◌, replicate, slice_index, IfOk};
ghost use Rattle.sig_model.specs.Finishing.{drawn};
ghost use Rattle.sig_process.specs.SentTo.{AreFirstOutside};

use sig_terms::Pid;
use std::alloc::{AllocError, Global};
use std::marker::Model;

/// The number of the next signal to each process, by pid, as contracts see them. It keeps besides
/// between which pids those lie to which it has sent.
#[derive(Drop)]
pub(crate) struct NextNumbers {
    numbers: Vec<u64>,
    /// No pid to which it has sent is below this one.
    low: usize,
    /// And all of them are below this one.
    high: usize,
}

impl Model for NextNumbers {
    ghost use Rattle.std.specs.Prelude.{List, ℕ};
    ghost use Rattle.sig_process.specs.SentTo.{AreFirstOutside};

    ghost Value = { List ℕ };

    ghost view = { λ n. n.numbers.items };

    ghost invariant = { λ n. AreFirstOutside n.low n.high n.numbers.items };
}

/// Draws the next number for this peer.
fn draw_from(numbers: &mut Vec<u64>, peer: Pid) -> u64
    requires { slice_index numbers.old.items peer.0 < 2 ^ 63 }
    ensures number { result ≡ slice_index numbers.old.items peer.0 }
    ensures drawn { numbers.new.items ≡ drawn numbers.old.items peer.0 }
{
    match numbers.get_mut(peer.0 as usize) {
        None => 0,
        Some(next) => {
            let number = *next;
            *next = number + 1;
            number
        }
    }
}

impl NextNumbers {
    /// Nothing is sent yet: each number is 1. The error is want of memory.
    pub(crate) fn first(alloc: Global, count: u32) -> Result<NextNumbers, AllocError>
        ensures { IfOk result (λ n. n ≡ replicate count 1) }
    {
        let numbers = vec![in alloc; 1; count as usize]?;
        Ok(NextNumbers {
            numbers,
            low: count as usize,
            high: 0,
        })
    }

    /// The number of the next signal to this peer, or 0 where there is no such process.
    pub(crate) fn get(&self, peer: Pid) -> u64
        ensures { result ≡ slice_index self.now peer.0 }
    {
        match self.numbers.get(peer.0 as usize) {
            None => 0,
            Some(next) => *next,
        }
    }

    /// Draws the next number for this peer.
    pub(crate) fn draw(&mut self, peer: Pid) -> u64
        requires { slice_index self.old peer.0 < 2 ^ 63 }
        ensures number { result ≡ slice_index self.old peer.0 }
        ensures drawn { self.new ≡ drawn self.old peer.0 }
    {
        let place = peer.0 as usize;
        let number = draw_from(&mut self.numbers, peer);
        self.low = self.low.min(place);
        self.high = self.high.max(place + 1);
        number
    }

    /// Two pids: each number below the first, and each from the second on, is 1.
    pub(crate) fn sent_between(&self) -> (usize, usize)
        ensures { AreFirstOutside result.0 result.1 self.now }
    {
        (self.low, self.high)
    }
}
