ghost use Rattle.std.specs.Prelude.{◌≡◌, ℕ, List, Option};
ghost use Rattle.sig_model.specs.declared.origin.Origin.{Origin};
ghost use Rattle.sig_record.specs.declared.report.Report.{Report};
ghost use Rattle.sig_order.specs.declared.at.At.{At};
ghost use Rattle.sig_order.specs.Concurrent.{IsRange};

/// A range of the events of a process.
#[derive(Clone, Copy, PartialEq, Eq)]
pub struct Span {
    /// The number of the first among that process's events, from 1.
    pub first: u64,
    /// The number of the last, which isn't below that of the first.
    pub last: u64,
}

/// A record, the origins of its signals and an event determine the span of each process: at most one answer
/// meets what [`Happened::concurrent`](crate::Happened::concurrent) promises.
pub fn each_process_has_one_span()
    ensures { (reports : List Report) (origins : List Origin) (e : At) (pid : ℕ) (a b : Option Span) →
        IsRange reports origins e pid a → IsRange reports origins e pid b → a ≡ b }
{}
