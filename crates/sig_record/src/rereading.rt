//! Records, printed and read again.

ghost use Rattle.std.specs.Prelude.{◌≡◌, ◌≢◌, ℕ, List, IfOk, IsErrOf};
ghost use Rattle.sig_record.specs.declared.refusal.RecordError.TheVariants as RecordError;
ghost use Rattle.sig_record.specs.declared.report.Report.{Report};
ghost use Rattle.sig_record.specs.RecordText.{record_text};
ghost use Rattle.sig_record.specs.ReadableRecord.{IsReadableRecord};
ghost use Rattle.sig_record.specs.SizedRecord.{IsSizedRecord};
ghost use Rattle.sig_record.specs.Refusing.{GivesBack, TellsLine};
ghost use Rattle.sig_record.specs.FaultLine.{IsFaultLine};

use crate::printing::print_record;
use crate::reading::read_record;
use crate::record::Record;
use crate::refusal::RecordError;
use std::alloc::Global;

/// The record, read from its text as [`read_record`] reads it. It is equal to the given one, unless
/// memory runs out, where the names are name tokens and the terms are no larger than what is read: so it
/// is where `gather` gave the record, of a lawful crew of a script whose processes have such names.
/// `BadRecord` only where its text is that of no record that can be read; the line that it tells is that of
/// [`read_record`].
pub fn reread(alloc: Global, given: &Record) -> Result<Record, RecordError>
    ensures found { IfOk result (λ r. IsReadableRecord r × (record_text given.now ≡ record_text r)) }
    ensures bad { (line : ℕ) → IsErrOf result (RecordError.BadRecord line) →
        (reports : List Report) → IsReadableRecord reports → record_text given.now ≢ record_text reports }
    ensures line { (line : ℕ) → IsErrOf result (RecordError.BadRecord line) → IsFaultLine (record_text given.now) line }
    ensures told { (line : ℕ) → IsFaultLine (record_text given.now) line →
        ((reports : List Report) → IsReadableRecord reports → record_text given.now ≢ record_text reports) → TellsLine line result }
    ensures again { IsSizedRecord given.now → GivesBack given.now result }
{
    let mut text = Vec::new(alloc);
    print_record(given, &mut text)?;
    read_record(alloc, text.as_slice())
}
