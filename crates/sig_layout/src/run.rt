/// So many ones, and then this number.
#[derive(Clone, Copy)]
pub(crate) struct Run {
    /// How many numbers are 1.
    pub(crate) ones: usize,
    /// The number behind them.
    pub(crate) number: u64,
}
