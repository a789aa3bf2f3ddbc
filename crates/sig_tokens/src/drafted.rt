ghost use Rattle.std.specs.Prelude.{◌≡◌, position};
ghost use Rattle.std.specs.Str.{bytes_eq};
ghost use Rattle.sig_program.specs.declared.label.Label.{Label};
ghost use Rattle.sig_program.specs.Scripts.{Declared};
ghost use Rattle.sig_tokens.specs.Names.{labels_at};

use crate::label_table::LabelTable;
use crate::proc_table::ProcTable;
use sig_kinds::QueueData;
use sig_program::{Instrs, Version};
use sig_terms::Name;
use std::marker::Model;

/// A process as it was read. Its targets may still be labels of any process.
#[derive(Drop)]
pub struct DraftProc {
    /// Its name.
    pub name: Name,
    /// Where it keeps its messages.
    pub queue_data: QueueData,
    /// Its labels, in the order of their lines.
    pub labels: LabelTable,
    /// Its instructions.
    pub instrs: Instrs,
}

impl Model for DraftProc {
    ghost use Rattle.std.specs.Coded.{codes};
    ghost use Rattle.sig_patterns.specs.contracts.expression.Expr as expr;
    ghost use Rattle.sig_patterns.specs.contracts.pattern.Pattern as pattern;
    ghost use Rattle.sig_program.specs.Scripts.{Declared};

    ghost Value = { Declared };

    ghost coded = { Prim.hlevel (codes, expr.the_row.coded, pattern.the_row.coded) };

    ghost view = { λ p. record { name = p.name; queue_data = p.queue_data; labels = p.labels; instrs = p.instrs } };
}

/// A script as it was read, of at most [`MOST_PROCESSES`](sig_program::MOST_PROCESSES) processes.
#[derive(Drop)]
pub struct DraftScript {
    /// The version of the language in which it is written.
    pub version: Version,
    /// How many instructions each process may execute.
    pub turns: u32,
    /// The processes, in the order of their lines.
    pub procs: ProcTable,
}

impl Model for DraftScript {
    ghost use Rattle.std.specs.Coded.{codes};
    ghost use Rattle.sig_patterns.specs.contracts.expression.Expr as expr;
    ghost use Rattle.sig_patterns.specs.contracts.pattern.Pattern as pattern;
    ghost use Rattle.sig_program.specs.Scripts.{Program};
    ghost use Rattle.std.specs.Prelude.{◌≤◌, length};
    ghost use Rattle.sig_program.specs.declared.script.TheConstants.{MOST_PROCESSES};

    ghost Value = { Program };

    ghost coded = { Prim.hlevel (codes, expr.the_row.coded, pattern.the_row.coded) };

    ghost view = { λ s. record { version = s.version; turns = s.turns; procs = s.procs } };

    ghost invariant = { λ s. length s.procs ≤ MOST_PROCESSES };
}

/// The place of the label of this name among those of the process at this place.
fn label_among(procs: &[DraftProc], here: usize, name: &[u8]) -> Option<u32>
    ensures { result ≡ position (λ (l : Label). bytes_eq l.name name.now) (labels_at here procs.now) }
{
    match procs.get(here) {
        Some(proc) => proc.labels.place_of(name),
        None => None,
    }
}

impl DraftScript {
    /// The pid of the process of this name. `None` exactly where no process has it.
    pub fn pid_of(&self, name: &[u8]) -> Option<u32>
        ensures { result ≡ position (λ (p : Declared). bytes_eq p.name name.now) self.now.procs }
    {
        match self.procs.place_of(name) {
            Some(place) => Some(place as u32),
            None => None,
        }
    }

    /// The place of the label of this name among those of the process with this place among the
    /// processes. `None` exactly where it has no such label.
    pub fn label_of(&self, here: usize, name: &[u8]) -> Option<u32>
        ensures { result ≡ position (λ (l : Label). bytes_eq l.name name.now) (labels_at here self.now.procs) }
    {
        label_among(self.procs.as_slice(), here, name)
    }
}
