//! Readers of what an event did, and of how it went. Each reads what stands behind its word.

ghost use Rattle.std.specs.Prelude.{◌≡◌};
ghost use Rattle.std.specs.Option.{option_map};
ghost use Rattle.sig_terms.specs.Fronts.{Gives};
ghost use Rattle.sig_record.specs.Phrases.{row_front, rows_front};
ghost use Rattle.sig_record.specs.EventRows as rows;
ghost use Rattle.sig_record.specs.EventRows.{did_front, word_rows, outcome_front};

use crate::pieces::{after, choice_field, narrow_field, term_field, wide_field};
use sig_model::{Did, Outcome};
use sig_terms::{Pid, ReadTerm};
use std::alloc::Global;

/// The place of an execution.
fn execution(bytes: &[u8]) -> Option<(Did, &[u8])>
    ensures { option_map (λ x. (x.0, x.1.now)) result ≡ row_front rows.exec bytes.now }
{
    let (place, rest) = narrow_field(bytes)?;
    Some((Did::Exec { place }, rest))
}

/// The sender and the number of a signal that was handled.
fn handling(bytes: &[u8]) -> Option<(Did, &[u8])>
    ensures { option_map (λ x. (x.0, x.1.now)) result ≡ row_front rows.from bytes.now }
{
    let (from, rest) = narrow_field(bytes)?;
    let (number, rest) = wide_field(rest)?;
    let from = Pid(from);
    Some((Did::From { from, number }, rest))
}

/// What a process did.
#[tactic(auto, unfolding(crate::specs::EventRows::did_front))]
pub(crate) fn did(bytes: &[u8]) -> Option<(Did, &[u8])>
    ensures { option_map (λ x. (x.0, x.1.now)) result ≡ did_front bytes.now }
{
    if let Some(rest) = after(b"exec", bytes) {
        return execution(rest);
    }
    if let Some(rest) = after(b"from", bytes) {
        return handling(rest);
    }
    None
}

fn sent(alloc: Global, bytes: &[u8]) -> Result<(Outcome, &[u8]), ReadTerm>
    ensures { Gives (λ x. (x.0, x.1.now)) result (row_front rows.sent bytes.now) }
{
    let (to, rest) = term_field(alloc, bytes)?;
    let (message, rest) = term_field(alloc, rest)?;
    Ok((Outcome::Sent { to, message }, rest))
}

fn set(alloc: Global, bytes: &[u8]) -> Result<(Outcome, &[u8]), ReadTerm>
    ensures { Gives (λ x. (x.0, x.1.now)) result (row_front rows.set bytes.now) }
{
    let (value, rest) = term_field(alloc, bytes)?;
    Ok((Outcome::Set { value }, rest))
}

fn answered(bytes: &[u8]) -> Result<(Outcome, &[u8]), ReadTerm>
    ensures { Gives (λ x. (x.0, x.1.now)) result (row_front rows.answered bytes.now) }
{
    match choice_field(b"true", b"false", bytes) {
        Some((yes, rest)) => Ok((Outcome::Answered { yes }, rest)),
        None => Err(ReadTerm::BadTerm),
    }
}

fn took(alloc: Global, bytes: &[u8]) -> Result<(Outcome, &[u8]), ReadTerm>
    ensures { Gives (λ x. (x.0, x.1.now)) result (row_front rows.took bytes.now) }
{
    let (clause, rest) = narrow_field(bytes).ok_or(ReadTerm::BadTerm)?;
    let (looked, rest) = wide_field(rest).ok_or(ReadTerm::BadTerm)?;
    let (message, rest) = term_field(alloc, rest)?;
    let outcome = Outcome::Took {
        clause,
        looked,
        message,
    };
    Ok((outcome, rest))
}

fn passed(bytes: &[u8]) -> Result<(Outcome, &[u8]), ReadTerm>
    ensures { Gives (λ x. (x.0, x.1.now)) result (row_front rows.after bytes.now) }
{
    match wide_field(bytes) {
        Some((looked, rest)) => Ok((Outcome::After { looked }, rest)),
        None => Err(ReadTerm::BadTerm),
    }
}

fn ended(alloc: Global, bytes: &[u8]) -> Result<(Outcome, &[u8]), ReadTerm>
    ensures { Gives (λ x. (x.0, x.1.now)) result (row_front rows.ended bytes.now) }
{
    let (reason, rest) = term_field(alloc, bytes)?;
    Ok((Outcome::Ended { reason }, rest))
}

fn kept(alloc: Global, bytes: &[u8]) -> Result<(Outcome, &[u8]), ReadTerm>
    ensures { Gives (λ x. (x.0, x.1.now)) result (row_front rows.kept bytes.now) }
{
    let (message, rest) = term_field(alloc, bytes)?;
    Ok((Outcome::Kept { message }, rest))
}

/// How the handling of a signal went, where that is a word alone.
fn word(bytes: &[u8]) -> Option<(Outcome, &[u8])>
    ensures { option_map (λ x. (x.0, x.1.now)) result ≡ rows_front word_rows bytes.now }
{
    if let Some(rest) = after(b"dropped", bytes) {
        return Some((Outcome::Dropped, rest));
    }
    if let Some(rest) = after(b"linked", bytes) {
        return Some((Outcome::Linked, rest));
    }
    if let Some(rest) = after(b"unlinked", bytes) {
        return Some((Outcome::Unlinked, rest));
    }
    if let Some(rest) = after(b"acked", bytes) {
        return Some((Outcome::Acked, rest));
    }
    if let Some(rest) = after(b"watched", bytes) {
        return Some((Outcome::Watched, rest));
    }
    if let Some(rest) = after(b"unwatched", bytes) {
        return Some((Outcome::Unwatched, rest));
    }
    let rest = after(b"noproc", bytes)?;
    Some((Outcome::NoProc, rest))
}

/// The outcome at the front of the bytes.
#[tactic(auto, unfolding(crate::specs::EventRows::outcome_front))]
pub(crate) fn outcome(alloc: Global, bytes: &[u8]) -> Result<(Outcome, &[u8]), ReadTerm>
    ensures { Gives (λ x. (x.0, x.1.now)) result (outcome_front bytes.now) }
{
    if let Some(rest) = after(b"sent", bytes) {
        return sent(alloc, rest);
    }
    if let Some(rest) = after(b"set", bytes) {
        return set(alloc, rest);
    }
    if let Some(rest) = after(b"done", bytes) {
        return Ok((Outcome::Done, rest));
    }
    if let Some(rest) = after(b"answered", bytes) {
        return answered(rest);
    }
    if let Some(rest) = after(b"took", bytes) {
        return took(alloc, rest);
    }
    if let Some(rest) = after(b"after", bytes) {
        return passed(rest);
    }
    if let Some(rest) = after(b"ended", bytes) {
        return ended(alloc, rest);
    }
    if let Some(rest) = after(b"kept", bytes) {
        return kept(alloc, rest);
    }
    word(bytes).ok_or(ReadTerm::BadTerm)
}
