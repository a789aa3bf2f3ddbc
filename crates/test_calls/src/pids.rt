//! Sets of one, two and three pids.

ghost use Rattle.std.specs.Prelude.{◌≡◌, ◌<◌, ◌⊎◌, ℕ, true};
ghost use Rattle.sig_layout.specs.Sets.{has};

use sig_layout::Senders;
use sig_terms::Pid;

// The set of one pid.
pub(crate) fn only(pid: Pid) -> Senders
    requires { pid.0 < 256 }
    ensures it { has result pid.0 ≡ true }
    ensures alone { (s : ℕ) → has result s ≡ true → s ≡ pid.0 }
{
    Senders::none().with(pid)
}

// The set of two pids.
pub(crate) fn pair(first: Pid, second: Pid) -> Senders
    requires { (first.0 < 256) × (second.0 < 256) }
    ensures first { has result first.0 ≡ true }
    ensures second { has result second.0 ≡ true }
    ensures both { (s : ℕ) → has result s ≡ true → (s ≡ first.0) ⊎ (s ≡ second.0) }
{
    Senders::none().with(first).with(second)
}

// The set of three pids.
pub(crate) fn trio(first: Pid, second: Pid, third: Pid) -> Senders
    requires { (first.0 < 256) × (second.0 < 256) × (third.0 < 256) }
    ensures first { has result first.0 ≡ true }
    ensures second { has result second.0 ≡ true }
    ensures third { has result third.0 ≡ true }
    ensures all { (s : ℕ) → has result s ≡ true → (s ≡ first.0) ⊎ ((s ≡ second.0) ⊎ (s ≡ third.0)) }
{
    pair(first, second).with(third)
}
