ghost use Rattle.std.specs.Prelude.{◌≡◌, ◌≢◌, ◌≤◌, ◌<◌, ◌==◌, ◌||◌, ◌↔◌, ℕ, IsTrue};
ghost use Rattle.std.specs.Int.{bit_at};
ghost use Rattle.sig_layout.specs.Sets.{has, least, no_senders, minus, plus};

use sig_terms::Pid;
use std::marker::Model;

/// The pids of senders are below this number. Where a seat has no sender, it is the seat's number.
pub const PIDS: u32 = 256;

/// A set of pids below [`PIDS`]. Contracts see its four words of bits: those of pids 0 to 63, of 64 to
/// 127, and so on.
#[derive(Clone, Copy, PartialEq, Eq)]
pub struct Senders([u64; 4]);

impl Model for Senders {
    ghost use Rattle.std.specs.Prelude.{List, ℕ};

    ghost Value = { List ℕ };

    ghost view = { λ s. s.0 };

    ghost inverse = { λ words. record { 0 = words } };
}

/// The place of the lowest 1 of a word that has one.
fn lowest_bit(word: u64) -> u64
    requires { word ≢ 0 }
    ensures within { result < 64 }
    ensures one { bit_at word result ≡ 1 }
    ensures lowest { (k : ℕ) → k < result → bit_at word k ≡ 0 }
{
    word.trailing_zeros() as u64
}

impl Senders {
    /// The empty set.
    pub fn none() -> Senders
        ensures { result ≡ no_senders }
    {
        Senders([0; 4])
    }

    /// The set with this pid too.
    ///
    /// Asks that the pid is below [`PIDS`].
    pub fn with(self, pid: Pid) -> Senders
        requires { pid.0 < PIDS }
        ensures { (s : ℕ) → has result s ≡ (has self s || (s == pid.0)) }
    {
        let mut words = self.0;
        words[(pid.0 / 64) as usize] |= 1 << (pid.0 % 64);
        Senders(words)
    }

    /// Whether the pid is in the set.
    pub fn has(self, pid: Pid) -> bool
        ensures { result ≡ has self pid.0 }
    {
        pid.0 < PIDS && self.0[(pid.0 / 64) as usize] >> (pid.0 % 64) & 1 == 1
    }

    /// The pids that the other set has not.
    pub fn minus(self, other: Senders) -> Senders
        ensures { result ≡ minus self other }
    {
        Senders([
            self.0[0] ^ (self.0[0] & other.0[0]),
            self.0[1] ^ (self.0[1] & other.0[1]),
            self.0[2] ^ (self.0[2] & other.0[2]),
            self.0[3] ^ (self.0[3] & other.0[3]),
        ])
    }

    /// The pids of both sets.
    pub fn plus(self, other: Senders) -> Senders
        ensures { result ≡ plus self other }
    {
        Senders([
            self.0[0] | other.0[0],
            self.0[1] | other.0[1],
            self.0[2] | other.0[2],
            self.0[3] | other.0[3],
        ])
    }

    /// The least pid of the set, or [`PIDS`] where it has none. Looks at each of the four words at most
    /// once.
    pub fn least(self) -> u64
        ensures least { result ≡ least self }
        ensures most { result ≤ PIDS }
    {
        let words = self.0;
        for at in 0..4usize {
            let word = words[at];
            if word != 0 {
                return at as u64 * 64 + lowest_bit(word);
            }
        }
        PIDS as u64
    }

    /// Whether the set has no pid.
    pub fn is_empty(self) -> bool
        ensures { IsTrue result ↔ (least self ≡ PIDS) }
    {
        self.least() == PIDS as u64
    }
}
