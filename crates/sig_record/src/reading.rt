//! Records from their texts.

ghost use Rattle.std.specs.Prelude.{◌≡◌, ◌≢◌, ◌≤◌, ◌-◌, ℕ, suc, List, [], length, take, IfOk, IsErrOf};
ghost use Rattle.sig_record.specs.declared.report.Report.{Report};
ghost use Rattle.sig_record.specs.RecordText.{record_text};
ghost use Rattle.sig_record.specs.ReadableRecord.{IsReadableRecord};
ghost use Rattle.sig_record.specs.Refusing.{Yields, GivesBack, TellsLine};
ghost use Rattle.sig_record.specs.RecordLines.{record_lines};
ghost use Rattle.sig_record.specs.FaultLine.{IsFaultLine, feeds};

use crate::items::read_all;
use crate::pieces::after;
use crate::record::Record;
use crate::refusal::{RecordError, Refusal};
use crate::report::Report;
use sig_lists::Sequence;
use std::alloc::Global;

/// Reads the reports of the record of which the bytes are the text into the empty list.
#[tactic(auto, unfolding(crate::specs::RecordLines::record_lines))]
fn read_whole(alloc: Global, reports: &mut Sequence<Report>, bytes: &[u8]) -> Result<(), Refusal>
    requires { reports.old ≡ [] }
    ensures { Yields (λ _. reports.new) result (record_lines bytes.now) }
{
    match after(b"sigrecord 1\n", bytes) {
        None => Err(Refusal::Bad { left: bytes.len() }),
        Some(rest) => {
            let rest = read_all(alloc, 0, reports, rest)?;
            if rest.len() == 0 {
                Ok(())
            } else {
                Err(Refusal::Bad { left: rest.len() })
            }
        }
    }
}

/// The reports of the record of which the bytes are the text.
fn whole(alloc: Global, bytes: &[u8]) -> Result<Vec<Report>, Refusal>
    ensures { Yields (λ v. v.items) result (record_lines bytes.now) }
{
    let mut reports = Sequence::new(alloc);
    read_whole(alloc, &mut reports, bytes)?;
    Ok(reports.into_vec())
}

/// How many line feeds there are.
#[tactic(auto, using(crate::proofs::FeedCounts::few_feeds))]
fn feeds(bytes: &[u8]) -> usize
    ensures count { result ≡ feeds bytes.now }
    ensures within { result ≤ length bytes.now }
{
    bytes.iter().filter(|b| **b == b'\n').count()
}

/// The number of the line, from 1, with which the last `left` bytes begin.
fn line_at(bytes: &[u8], left: usize) -> u64
    ensures { result ≡ suc (feeds (take (length bytes.now - left) bytes.now)) }
{
    let before = bytes.len().saturating_sub(left);
    (feeds(&bytes[..before]) as u64).saturating_add(1)
}

/// The record of which the bytes are the text. `BadRecord` exactly where they are the text of no
/// record that can be read, `Memory` only where memory ran out. The line is told, from 1, before
/// which all lines begin the text of some record, whole: and it isn't whole, or with it they begin
/// none.
#[tactic(auto, using(crate::proofs::RecordFaults::is_read))]
pub fn read_record(alloc: Global, bytes: &[u8]) -> Result<Record, RecordError>
    ensures found { IfOk result (λ r. IsReadableRecord r × (bytes.now ≡ record_text r)) }
    ensures bad { (line : ℕ) → IsErrOf result (RecordError.BadRecord line) →
        (reports : List Report) → IsReadableRecord reports → bytes.now ≢ record_text reports }
    ensures line { (line : ℕ) → IsErrOf result (RecordError.BadRecord line) → IsFaultLine bytes.now line }
    // There is one such line, and it is told, unless memory runs out.
    ensures told { (line : ℕ) → IsFaultLine bytes.now line →
        ((reports : List Report) → IsReadableRecord reports → bytes.now ≢ record_text reports) → TellsLine line result }
    // A record that can be read is read back from its text, unless memory runs out.
    ensures again { (reports : List Report) → IsReadableRecord reports → bytes.now ≡ record_text reports →
        GivesBack reports result }
{
    match whole(alloc, bytes) {
        Ok(reports) => Ok(Record { reports }),
        Err(Refusal::Memory) => Err(RecordError::Memory),
        Err(Refusal::Bad { left }) => Err(RecordError::BadRecord {
            line: line_at(bytes, left),
        }),
    }
}

/// Different records have different texts.
pub fn texts_tell_records_apart()
    ensures { (a b : List Report) → IsReadableRecord a → IsReadableRecord b → record_text a ≡ record_text b → a ≡ b }
{}
