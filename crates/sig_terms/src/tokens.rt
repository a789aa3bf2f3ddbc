//! Readers of what has no elements: integers, atoms, pids and references. Each reads as many
//! bytes as it can, and answers what is behind them.

ghost use Rattle.std.specs.Prelude.{◌≡◌, ◌≤◌, ◌^◌, ◌-◌, ◌*◌, ◌<◌, negsuc, take, length};
ghost use Rattle.std.specs.Option.{option_map};
ghost use Rattle.std.specs.List.{prefix_len};
ghost use Rattle.sig_terms.specs.Words.{is_name_byte, is_atom_byte};
ghost use Rattle.sig_terms.specs.Tokens.{negative_at, int_at, after_text, atom_of};
ghost use Rattle.sig_terms.specs.Fronts.{Gives, int_term_at, name_term_at, quoted_term_at, pid_term_at};
ghost use Rattle.sig_terms.specs.Fronts.{serial_term_at, reference_term_at, marked_at, leaf_at};

use crate::atom::Atom;
use crate::bytes::{
    MOST_WORD_BYTES, follows_in_name, is_digit_byte, is_lower_byte, spells_name, stands_in_atom,
};
use crate::numbers::number;
use crate::pid::Pid;
use crate::reference::Ref;
use crate::refusal::ReadTerm;
use crate::term::Term;
use std::alloc::Global;

/// The integer below zero that is this far from -1.
fn below_zero(distance: u64) -> i64
    requires { distance < 2 ^ 63 }
    ensures { result ≡ negsuc distance }
{
    -1 - distance as i64
}

/// The integer that `-` begins: at most 2^63 below zero, and not zero.
fn negative(digits: &[u8]) -> Option<(i64, &[u8])>
    ensures { option_map (λ x. (x.0, x.1.now)) result ≡ negative_at digits.now }
{
    let (n, rest) = number(1 << 63, digits)?;
    if n == 0 {
        return None;
    }
    Some((below_zero(n - 1), rest))
}

/// The integer at the front of the bytes.
fn int(bytes: &[u8]) -> Option<(i64, &[u8])>
    ensures { option_map (λ x. (x.0, x.1.now)) result ≡ int_at bytes.now }
{
    if let [b'-', digits @ ..] = bytes {
        return negative(digits);
    }
    let (n, rest) = number((1 << 63) - 1, bytes)?;
    Some((n as i64, rest))
}

/// What follows the text.
fn after<'a>(text: &[u8], bytes: &'a [u8]) -> Option<&'a [u8]>
    ensures { option_map (λ x. x.now) result ≡ after_text text.now bytes.now }
{
    bytes.strip_prefix(text)
}

/// The pid that `<` begins.
fn pid(bytes: &[u8]) -> Option<(Term, &[u8])>
    ensures { option_map (λ x. (x.0, x.1.now)) result ≡ pid_term_at bytes.now }
{
    let (n, rest) = number((1 << 32) - 1, bytes)?;
    let rest = after(b">", rest)?;
    Some((Term::Pid(Pid(n as u32)), rest))
}

/// The reference of this owner, from the dot before its serial on.
fn serial(owner: Pid, bytes: &[u8]) -> Option<(Term, &[u8])>
    ensures { option_map (λ x. (x.0, x.1.now)) result ≡ serial_term_at owner bytes.now }
{
    let digits = after(b".", bytes)?;
    let (serial, rest) = number(u64::MAX, digits)?;
    let rest = after(b">", rest)?;
    Some((Term::Ref(Ref { owner, serial }), rest))
}

/// The reference that `#` begins.
fn reference(bytes: &[u8]) -> Option<(Term, &[u8])>
    ensures { option_map (λ x. (x.0, x.1.now)) result ≡ reference_term_at bytes.now }
{
    let digits = after(b"Ref<", bytes)?;
    let (owner, rest) = number((1 << 32) - 1, digits)?;
    serial(Pid(owner as u32), rest)
}

/// How many bytes at the front may follow in a name, up to [`MOST_WORD_BYTES`].
fn name_length(bytes: &[u8]) -> usize
    ensures length { result ≡ prefix_len is_name_byte (take MOST_WORD_BYTES bytes.now) }
    ensures within { result ≤ length bytes.now }
{
    bytes
        .iter()
        .take(MOST_WORD_BYTES)
        .take_while(|b| follows_in_name(**b))
        .count()
}

/// How many bytes at the front may stand in an atom.
fn quoted_length(bytes: &[u8]) -> usize
    ensures length { result ≡ prefix_len is_atom_byte bytes.now }
    ensures within { result ≤ length bytes.now }
{
    bytes.iter().take_while(|b| stands_in_atom(**b)).count()
}

/// The atom of these bytes.
fn atom_from(alloc: Global, bytes: &[u8]) -> Result<Atom, ReadTerm>
    ensures { Gives (λ a. a) result (atom_of bytes.now) }
{
    match Atom::new(alloc, bytes)? {
        Some(atom) => Ok(atom),
        None => Err(ReadTerm::BadTerm),
    }
}

/// The atom whose name is at the front of the bytes.
fn name(alloc: Global, bytes: &[u8]) -> Result<(Term, &[u8]), ReadTerm>
    ensures { Gives (λ x. (x.0, x.1.now)) result (name_term_at bytes.now) }
{
    let (name, rest) = bytes.split_at(name_length(bytes));
    let atom = atom_from(alloc, name)?;
    Ok((Term::Atom(atom), rest))
}

/// The atom that a quote begins.
fn quoted(alloc: Global, bytes: &[u8]) -> Result<(Term, &[u8]), ReadTerm>
    ensures { Gives (λ x. (x.0, x.1.now)) result (quoted_term_at bytes.now) }
{
    let (body, rest) = bytes.split_at(quoted_length(bytes));
    if spells_name(body) {
        return Err(ReadTerm::BadTerm);
    }
    match after(b"'", rest) {
        None => Err(ReadTerm::BadTerm),
        Some(rest) => {
            let atom = atom_from(alloc, body)?;
            Ok((Term::Atom(atom), rest))
        }
    }
}

/// The integer at the front of the bytes, as a term.
fn int_term(bytes: &[u8]) -> Result<(Term, &[u8]), ReadTerm>
    ensures { Gives (λ x. (x.0, x.1.now)) result (int_term_at bytes.now) }
{
    let (n, rest) = int(bytes).ok_or(ReadTerm::BadTerm)?;
    Ok((Term::Int(n), rest))
}

/// The term behind a mark: `'`, `<` or `#`.
fn marked(alloc: Global, mark: u8, bytes: &[u8]) -> Result<(Term, &[u8]), ReadTerm>
    ensures { Gives (λ x. (x.0, x.1.now)) result (marked_at mark bytes.now) }
{
    match mark {
        b'\'' => quoted(alloc, bytes),
        b'<' => pid(bytes).ok_or(ReadTerm::BadTerm),
        b'#' => reference(bytes).ok_or(ReadTerm::BadTerm),
        _ => Err(ReadTerm::BadTerm),
    }
}

/// The term without elements at the front of the bytes.
#[tactic(auto, unfolding(crate::specs::Fronts::leaf_at))]
pub fn leaf(alloc: Global, bytes: &[u8]) -> Result<(Term, &[u8]), ReadTerm>
    ensures { Gives (λ x. (x.0, x.1.now)) result (leaf_at bytes.now) }
{
    match bytes.split_first() {
        None => Err(ReadTerm::BadTerm),
        Some((first, inside)) => {
            if *first == b'-' || is_digit_byte(*first) {
                int_term(bytes)
            } else if is_lower_byte(*first) {
                name(alloc, bytes)
            } else {
                marked(alloc, *first, inside)
            }
        }
    }
}
