ghost use Rattle.std.specs.Prelude.{◌≡◌};
ghost use Rattle.sig_base.specs.Flow.{end_after};

/// How the reads of a source stand to its end, which is the first read that gave no bytes or failed.
#[derive(Clone, Copy, PartialEq, Eq)]
pub enum End {
    /// Each read gave bytes.
    Ahead,
    /// The last read was the first that gave none or failed.
    Met,
    /// There was a read behind that one.
    Passed,
}

impl End {
    /// How they stand after one more read. It is the `last` that should be made, where it gave no bytes or
    /// failed.
    pub fn after(self, last: bool) -> End
        ensures { result ≡ end_after last self }
    {
        match self {
            End::Ahead => { if last { End::Met } else { End::Ahead } }
            End::Met | End::Passed => End::Passed,
        }
    }
}
