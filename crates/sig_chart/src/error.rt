ghost use Rattle.sig_chart.specs.declared.error.ChartError.TheVariants as chart_error;
ghost use Rattle.std.specs.Prelude.{◌≡◌};

use std::alloc::AllocError;

/// Why there is no chart.
#[derive(Clone, Copy, PartialEq, Eq)]
pub enum ChartError {
    /// The window has more than [`MOST_EVENTS`](crate::MOST_EVENTS) events.
    TooManyEvents,
    /// There was no memory to go on.
    Memory,
}

impl From<AllocError> for ChartError {
    ghost from_gives = { λ _ e. e ≡ chart_error.Memory };

    fn from(_e: AllocError) -> ChartError {
        ChartError::Memory
    }
}
