ghost use Rattle.std.specs.Prelude.{◌≡◌, Some};
ghost use Rattle.sig_tokens.specs.FaultWords.{word_of};
ghost use Rattle.sig_tokens.specs.declared.fault.Stop.TheVariants.{Memory};

use std::alloc::AllocError;
use std::fmt;

/// Why a line of a text is no line of a script.
#[derive(Clone, Copy, Debug, PartialEq, Eq)]
pub enum FaultKind {
    /// The first line isn't the header.
    Header,
    /// No token stands at some place, a token can't stand where it is, or one is missing.
    Syntax,
    /// An integer has more than 64 bits.
    IntRange,
    /// An expression or a pattern has more than `MOST_NODES` nodes, or its depth is past
    /// `MOST_DEPTH`; or a guard has more than 64 tests.
    TermTooLarge,
    /// A process has the name of an earlier one.
    DuplicateName,
    /// There are as many processes before it as the script's version allows, by
    /// [`most_processes`](sig_program::most_processes).
    TooManyProcesses,
    /// A label of a process has the name of an earlier one.
    DuplicateLabel,
    /// The turns are more than [`MOST_TURNS`](sig_program::MOST_TURNS).
    TooManyTurns,
    /// A clause of a receive with a marker doesn't pin the marker's variable in its pattern.
    MarkerNotInClause,
    /// No process has the name behind an `@`.
    UnknownProcess,
    /// No label of the process has the name.
    UnknownLabel,
    /// The text has more than 1,048,576 bytes.
    TooLong,
}

impl FaultKind {
    /// The word for it, as a program tells it: `header`, `unknown_label` and so on.
    pub fn word(self) -> &'static str
        ensures { result.now ≡ word_of self }
    {
        match self {
            FaultKind::Header => "header",
            FaultKind::Syntax => "syntax",
            FaultKind::IntRange => "int_range",
            FaultKind::TermTooLarge => "term_too_large",
            FaultKind::DuplicateName => "duplicate_name",
            FaultKind::TooManyProcesses => "too_many_processes",
            FaultKind::DuplicateLabel => "duplicate_label",
            FaultKind::TooManyTurns => "too_many_turns",
            FaultKind::MarkerNotInClause => "marker_not_in_clause",
            FaultKind::UnknownProcess => "unknown_process",
            FaultKind::UnknownLabel => "unknown_label",
            FaultKind::TooLong => "too_long",
        }
    }
}

impl fmt::Display for FaultKind {
    ghost output = { λ kind. Some (word_of kind) };

    fn fmt<W: fmt::Write>(&self, f: &mut fmt::Formatter<W>) -> fmt::Result {
        f.write_str(self.word())
    }
}

/// Why a reader stops.
#[derive(Clone, Copy)]
pub enum Stop {
    /// The line is refused.
    Fault(FaultKind),
    /// There was no memory.
    Memory,
}

impl From<AllocError> for Stop {
    ghost from_gives = { λ _ e. e ≡ Memory };

    fn from(_e: AllocError) -> Stop {
        Stop::Memory
    }
}
