//! What a signal says, printed and read. Each reader reads what stands behind its word.

ghost use Rattle.std.specs.Prelude.{◌≡◌, ◌++◌, OnOk, codes};
ghost use Rattle.sig_terms.specs.Fronts.{Gives};
ghost use Rattle.sig_terms.specs.Putting.{IsPut};
ghost use Rattle.sig_terms.specs.Readable.{IsTerm};
ghost use Rattle.sig_terms.specs.TermText.{term_text, reference_text};
ghost use Rattle.sig_record.specs.KindRows as kinds;
ghost use Rattle.sig_record.specs.KindRows.{kind_front, kind_text};
ghost use Rattle.sig_record.specs.Phrases.{link_text, row_front, IsStoredRef};
ghost use Rattle.sig_record.specs.StoredRecord.{IsStoredKind};

use crate::pieces::{after, choice_field, reference_field, term_field, wide_field};
use crate::printing::{put, put_byte, put_numbered, put_spaced_term, put_term};
use sig_kinds::Kind;
use sig_terms::{ReadTerm, Ref, Term};
use std::alloc::{AllocError, Global};

fn exit_words(linked: bool) -> &'static [u8]
    ensures { result.now ≡ codes "exit " ++ link_text linked ++ codes " " }
{
    if linked {
        b"exit linked "
    } else {
        b"exit plain "
    }
}

fn put_reference(into: &mut Vec<u8>, word: &[u8], reference: Ref) -> Result<(), AllocError>
    ensures text { IsPut into.old.items into.new.items (word.now ++ reference_text reference) result }
    ensures stored { OnOk result (IsStoredRef reference) }
{
    put(into, word)?;
    reference.print(into)
}

fn put_referring(
    into: &mut Vec<u8>,
    word: &[u8],
    reference: Ref,
    term: &Term,
) -> Result<(), AllocError>
    ensures text { IsPut into.old.items into.new.items (word.now ++ reference_text reference ++ codes " " ++ term_text term.now) result }
    ensures reference { OnOk result (IsStoredRef reference) }
    ensures term { OnOk result (IsTerm term.now) }
{
    put_reference(into, word, reference)?;
    put_spaced_term(into, term)
}

pub(crate) fn put_kind(into: &mut Vec<u8>, kind: &Kind) -> Result<(), AllocError>
    ensures text { IsPut into.old.items into.new.items (kind_text kind.now) result }
    ensures stored { OnOk result (IsStoredKind kind.now) }
{
    match kind {
        Kind::Message { term } => put_term(into, b"message ", term),
        Kind::AliasMessage { reference, term } => put_referring(into, b"alias ", *reference, term),
        Kind::Link => put(into, b"link"),
        Kind::Unlink { id } => put_numbered(into, b"unlink ", *id),
        Kind::UnlinkAck { id } => put_numbered(into, b"unlink_ack ", *id),
        Kind::Monitor { reference } => put_reference(into, b"monitor ", *reference),
        Kind::Demonitor { reference } => put_reference(into, b"demonitor ", *reference),
        Kind::Exit { reason, linked } => put_term(into, exit_words(*linked), reason),
        Kind::Down { reference, reason } => put_referring(into, b"down ", *reference, reason),
    }
}

/// A space, and the kind.
pub(crate) fn put_spaced_kind(into: &mut Vec<u8>, kind: &Kind) -> Result<(), AllocError>
    ensures text { IsPut into.old.items into.new.items (codes " " ++ kind_text kind.now) result }
    ensures stored { OnOk result (IsStoredKind kind.now) }
{
    put_byte(into, b' ')?;
    put_kind(into, kind)
}

fn message(alloc: Global, bytes: &[u8]) -> Result<(Kind, &[u8]), ReadTerm>
    ensures { Gives (λ x. (x.0, x.1.now)) result (row_front kinds.message bytes.now) }
{
    let (term, rest) = term_field(alloc, bytes)?;
    Ok((Kind::Message { term }, rest))
}

fn alias_message(alloc: Global, bytes: &[u8]) -> Result<(Kind, &[u8]), ReadTerm>
    ensures { Gives (λ x. (x.0, x.1.now)) result (row_front kinds.alias_message bytes.now) }
{
    let (reference, rest) = reference_field(bytes).ok_or(ReadTerm::BadTerm)?;
    let (term, rest) = term_field(alloc, rest)?;
    Ok((Kind::AliasMessage { reference, term }, rest))
}

fn unlink(bytes: &[u8]) -> Result<(Kind, &[u8]), ReadTerm>
    ensures { Gives (λ x. (x.0, x.1.now)) result (row_front kinds.unlink bytes.now) }
{
    match wide_field(bytes) {
        Some((id, rest)) => Ok((Kind::Unlink { id }, rest)),
        None => Err(ReadTerm::BadTerm),
    }
}

fn unlink_ack(bytes: &[u8]) -> Result<(Kind, &[u8]), ReadTerm>
    ensures { Gives (λ x. (x.0, x.1.now)) result (row_front kinds.unlink_ack bytes.now) }
{
    match wide_field(bytes) {
        Some((id, rest)) => Ok((Kind::UnlinkAck { id }, rest)),
        None => Err(ReadTerm::BadTerm),
    }
}

fn monitor(bytes: &[u8]) -> Result<(Kind, &[u8]), ReadTerm>
    ensures { Gives (λ x. (x.0, x.1.now)) result (row_front kinds.monitor bytes.now) }
{
    match reference_field(bytes) {
        Some((reference, rest)) => Ok((Kind::Monitor { reference }, rest)),
        None => Err(ReadTerm::BadTerm),
    }
}

fn demonitor(bytes: &[u8]) -> Result<(Kind, &[u8]), ReadTerm>
    ensures { Gives (λ x. (x.0, x.1.now)) result (row_front kinds.demonitor bytes.now) }
{
    match reference_field(bytes) {
        Some((reference, rest)) => Ok((Kind::Demonitor { reference }, rest)),
        None => Err(ReadTerm::BadTerm),
    }
}

fn exit(alloc: Global, bytes: &[u8]) -> Result<(Kind, &[u8]), ReadTerm>
    ensures { Gives (λ x. (x.0, x.1.now)) result (row_front kinds.exit bytes.now) }
{
    let (linked, rest) = choice_field(b"linked", b"plain", bytes).ok_or(ReadTerm::BadTerm)?;
    let (reason, rest) = term_field(alloc, rest)?;
    Ok((Kind::Exit { reason, linked }, rest))
}

fn down(alloc: Global, bytes: &[u8]) -> Result<(Kind, &[u8]), ReadTerm>
    ensures { Gives (λ x. (x.0, x.1.now)) result (row_front kinds.down bytes.now) }
{
    let (reference, rest) = reference_field(bytes).ok_or(ReadTerm::BadTerm)?;
    let (reason, rest) = term_field(alloc, rest)?;
    Ok((Kind::Down { reference, reason }, rest))
}

/// What a signal says, at the front of the bytes.
#[tactic(auto, unfolding(crate::specs::KindRows::kind_front))]
pub(crate) fn kind(alloc: Global, bytes: &[u8]) -> Result<(Kind, &[u8]), ReadTerm>
    ensures { Gives (λ x. (x.0, x.1.now)) result (kind_front bytes.now) }
{
    if let Some(rest) = after(b"message", bytes) {
        return message(alloc, rest);
    }
    if let Some(rest) = after(b"alias", bytes) {
        return alias_message(alloc, rest);
    }
    if let Some(rest) = after(b"link", bytes) {
        return Ok((Kind::Link, rest));
    }
    if let Some(rest) = after(b"unlink_ack", bytes) {
        return unlink_ack(rest);
    }
    if let Some(rest) = after(b"unlink", bytes) {
        return unlink(rest);
    }
    if let Some(rest) = after(b"monitor", bytes) {
        return monitor(rest);
    }
    if let Some(rest) = after(b"demonitor", bytes) {
        return demonitor(rest);
    }
    if let Some(rest) = after(b"exit", bytes) {
        return exit(alloc, rest);
    }
    if let Some(rest) = after(b"down", bytes) {
        return down(alloc, rest);
    }
    Err(ReadTerm::BadTerm)
}
