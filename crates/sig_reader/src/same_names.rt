//! Whether two scripts have the same names of processes and labels.

ghost use Rattle.std.specs.Prelude.{◌≡◌, ◌↔◌, IsTrue};
ghost use Rattle.sig_reader.specs.SameNames.{label_names, named, names_within, AreItsNames};

use sig_program::Label;
use sig_terms::bytes::equal_bytes;
use sig_tokens::{DraftProc, DraftScript, Known};

fn same_labels(labels: &[Label], others: &[Label]) -> bool
    ensures { IsTrue result ↔ (label_names labels.now ≡ label_names others.now) }
{
    let mut left = labels;
    let mut right = others;
    while let Some((label, rest)) = left.split_first() {
        match right.split_first() {
            Some((other, behind)) if equal_bytes(label.name.bytes(), other.name.bytes()) => {
                left = rest;
                right = behind;
            }
            _ => return false,
        }
    }
    right.is_empty()
}

/// Whether both have the same name, and labels of the same names.
fn is_named_so(proc: &DraftProc, other: &DraftProc) -> bool
    ensures { IsTrue result ↔ (named proc.now ≡ named other.now) }
{
    equal_bytes(proc.name.bytes(), other.name.bytes())
        && same_labels(proc.labels.labels(), other.labels.labels())
}

fn same_procs(procs: &[DraftProc], others: &[DraftProc]) -> bool
    ensures { IsTrue result ↔ (names_within procs.now ≡ names_within others.now) }
{
    let mut left = procs;
    let mut right = others;
    while let Some((proc, rest)) = left.split_first() {
        match right.split_first() {
            Some((other, behind)) if is_named_so(proc, other) => {
                left = rest;
                right = behind;
            }
            _ => return false,
        }
    }
    right.is_empty()
}

/// Whether the names that are known are those of the script.
pub fn are_its_names(known: &Known, script: &DraftScript) -> bool
    ensures { IsTrue result ↔ AreItsNames known.now script.now }
{
    match known {
        Known::Any => false,
        Known::Among(names) => same_procs(names.procs.as_slice(), script.procs.as_slice()),
    }
}
