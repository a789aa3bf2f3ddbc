ghost use Rattle.std.specs.Prelude.{◌≡◌};
ghost use Rattle.sig_host.specs.declared.settings.TheConstants.{MOST_CHURN, MOST_QUOTA, MOST_WORKERS};

use sig_layout::Policy;

/// What the arguments ask for.
#[derive(Clone, Copy, PartialEq, Eq)]
pub struct Settings {
    /// How many workers run the processes, from 1 to [`MOST_WORKERS`]. That so many run them, no
    /// clause says.
    pub workers: u32,
    /// How many events a worker makes before its part of the first round is over, at least: from 1 to
    /// [`MOST_QUOTA`]. Each later round asks for twice as many as the one before, up to 1,000,000. No
    /// clause speaks of what a quota does. With one worker it counts for nothing.
    pub quota: u32,
    /// When the shared queues have buffers; the number of [`Policy::Churn`] is from 1 to
    /// [`MOST_CHURN`]. With one worker it counts for nothing.
    pub policy: Policy,
    /// The calls that each client of the generated work makes, from 1 to
    /// [`MOST_CALLS`](sig_script::MOST_CALLS). Without it the script is read.
    pub generate: Option<u32>,
}

/// The most workers that the command takes.
pub const MOST_WORKERS: u32 = 16;

/// The largest quota.
pub const MOST_QUOTA: u32 = 1_000_000;

/// The largest number of the policy [`Policy::Churn`].
pub const MOST_CHURN: u32 = 1_000_000;

/// The limits in numbers: [`MOST_WORKERS`] is 16, and [`MOST_QUOTA`] and [`MOST_CHURN`] are 1,000,000.
pub fn the_limits_of_settings()
    ensures workers { MOST_WORKERS ≡ 16 }
    ensures quota { MOST_QUOTA ≡ 1000000 }
    ensures churn { MOST_CHURN ≡ 1000000 }
{}
