//! Readers of a line's parts: numbers, terms, references, names, and fields, which stand behind a space.

ghost use Rattle.std.specs.Prelude.{◌≡◌, ◌≤◌, length, codes};
ghost use Rattle.std.specs.Option.{option_map};
ghost use Rattle.std.specs.List.{prefix_len};
ghost use Rattle.sig_terms.specs.Words.{is_name_byte};
ghost use Rattle.sig_terms.specs.Tokens.{after_text};
ghost use Rattle.sig_terms.specs.Fronts.{Gives};
ghost use Rattle.sig_record.specs.Readers.{behind};
ghost use Rattle.sig_record.specs.Phrases.{
  a_narrow,
  a_wide,
  a_reference,
  a_term,
  narrow,
  wide,
  term_front,
  ref_front,
  choice_front,
  field_front,
};
ghost use Rattle.sig_record.specs.RecordFronts.{name_front};

use sig_terms::bytes::{follows_in_name, spells_name};
use sig_terms::numbers::number;
use sig_terms::{Name, Pid, ReadTerm, Ref, Term, read_front};
use std::alloc::Global;

/// The number of 32 bits at the front of the bytes.
pub(crate) fn narrow(bytes: &[u8]) -> Option<(u32, &[u8])>
    ensures { option_map (λ x. (x.0, x.1.now)) result ≡ narrow bytes.now }
{
    let (n, rest) = number((1 << 32) - 1, bytes)?;
    Some((n as u32, rest))
}

/// The number of 64 bits at the front of the bytes.
pub(crate) fn wide(bytes: &[u8]) -> Option<(u64, &[u8])>
    ensures { option_map (λ x. (x.0, x.1.now)) result ≡ wide bytes.now }
{
    number(u64::MAX, bytes)
}

/// What follows the text.
pub(crate) fn after<'a>(text: &[u8], bytes: &'a [u8]) -> Option<&'a [u8]>
    ensures { option_map (λ x. x.now) result ≡ after_text text.now bytes.now }
{
    bytes.strip_prefix(text)
}

/// What follows the text, for readers that may run out of memory.
pub(crate) fn past<'a>(text: &[u8], bytes: &'a [u8]) -> Result<&'a [u8], ReadTerm>
    ensures { Gives (λ x. x.now) result (after_text text.now bytes.now) }
{
    after(text, bytes).ok_or(ReadTerm::BadTerm)
}

/// The term at the front of the bytes.
pub(crate) fn term(alloc: Global, bytes: &[u8]) -> Result<(Term, &[u8]), ReadTerm>
    ensures { Gives (λ x. (x.0, x.1.now)) result (term_front bytes.now) }
{
    match read_front(alloc, bytes) {
        Ok(front) => Ok((front.term, &bytes[front.used..])),
        Err(e) => Err(e),
    }
}

/// The reference at the front of the bytes.
pub(crate) fn reference(bytes: &[u8]) -> Option<(Ref, &[u8])>
    ensures { option_map (λ x. (x.0, x.1.now)) result ≡ ref_front bytes.now }
{
    let inside = after(b"#", bytes)?;
    let digits = after(b"Ref<", inside)?;
    let (owner, more) = narrow(digits)?;
    let more = after(b".", more)?;
    let (serial, rest) = wide(more)?;
    let rest = after(b">", rest)?;
    let owner = Pid(owner);
    Some((Ref { owner, serial }, rest))
}

/// How many bytes at the front may follow in a name.
fn name_length(bytes: &[u8]) -> usize
    ensures length { result ≡ prefix_len is_name_byte bytes.now }
    ensures within { result ≤ length bytes.now }
{
    bytes.iter().take_while(|b| follows_in_name(**b)).count()
}

/// The name of a process at the front of the bytes.
pub(crate) fn name(alloc: Global, bytes: &[u8]) -> Result<(Name, &[u8]), ReadTerm>
    ensures { Gives (λ x. (x.0, x.1.now)) result (name_front bytes.now) }
{
    let (name, rest) = bytes.split_at(name_length(bytes));
    if !spells_name(name) {
        return Err(ReadTerm::BadTerm);
    }
    match Name::new(alloc, name)? {
        Some(name) => Ok((name, rest)),
        None => Err(ReadTerm::BadTerm),
    }
}

/// The first of the two words, or the second.
fn choice<'a>(one: &[u8], other: &[u8], bytes: &'a [u8]) -> Option<(bool, &'a [u8])>
    ensures { option_map (λ x. (x.0, x.1.now)) result ≡ choice_front one.now other.now bytes.now }
{
    if let Some(rest) = after(one, bytes) {
        return Some((true, rest));
    }
    let rest = after(other, bytes)?;
    Some((false, rest))
}

/// One of the two words, as a field.
pub(crate) fn choice_field<'a>(
    one: &[u8],
    other: &[u8],
    bytes: &'a [u8],
) -> Option<(bool, &'a [u8])>
    ensures { option_map (λ x. (x.0, x.1.now)) result ≡ behind (codes " ") (choice_front one.now other.now) bytes.now }
{
    let rest = after(b" ", bytes)?;
    choice(one, other, rest)
}

/// A number of 32 bits, as a field.
pub(crate) fn narrow_field(bytes: &[u8]) -> Option<(u32, &[u8])>
    ensures { option_map (λ x. (x.0, x.1.now)) result ≡ field_front a_narrow bytes.now }
{
    let rest = after(b" ", bytes)?;
    narrow(rest)
}

/// A number of 64 bits, as a field.
pub(crate) fn wide_field(bytes: &[u8]) -> Option<(u64, &[u8])>
    ensures { option_map (λ x. (x.0, x.1.now)) result ≡ field_front a_wide bytes.now }
{
    let rest = after(b" ", bytes)?;
    wide(rest)
}

/// A reference, as a field.
pub(crate) fn reference_field(bytes: &[u8]) -> Option<(Ref, &[u8])>
    ensures { option_map (λ x. (x.0, x.1.now)) result ≡ field_front a_reference bytes.now }
{
    let rest = after(b" ", bytes)?;
    reference(rest)
}

/// A term, as a field.
pub(crate) fn term_field(alloc: Global, bytes: &[u8]) -> Result<(Term, &[u8]), ReadTerm>
    ensures { Gives (λ x. (x.0, x.1.now)) result (field_front a_term bytes.now) }
{
    let rest = past(b" ", bytes)?;
    term(alloc, rest)
}
