//! Terms from their texts.

ghost use Rattle.std.specs.Prelude.{◌≡◌, ◌≢◌, ◌≤◌, IfOk, IsErrOf, Some, take, length};
ghost use Rattle.sig_terms.specs.declared.bytes.TheConstants.{MOST_WORD_BYTES};
ghost use Rattle.sig_terms.specs.declared.reading.TheConstants.{READ_DEPTH, READ_NODES};
ghost use Rattle.sig_terms.specs.declared.term.Term.{Term};
ghost use Rattle.sig_terms.specs.TermText.{term_text};
ghost use Rattle.sig_terms.specs.Readable.{IsTerm, IsReadable, Begins};
ghost use Rattle.sig_terms.specs.Fronts.{Gives};

use crate::nested::front;
use crate::refusal::ReadTerm;
use crate::term::Term;
use std::alloc::Global;

/// The greatest depth of a term that is read.
pub const READ_DEPTH: u64 = 65;

/// The most nodes of a term that is read.
pub const READ_NODES: u64 = 1029;

/// A term at the front of bytes.
#[derive(Drop)]
pub struct Front {
    /// The term.
    pub term: Term,
    /// How many bytes its text takes.
    pub used: usize,
}

/// The term whose text is the longest front of the bytes that is the text of a term of at most
/// [`READ_NODES`] nodes and depth [`READ_DEPTH`]. `BadTerm` exactly where no front is such a text,
/// `Memory` only where memory ran out. (Erlang Reference Manual, Data Types.)
pub fn read_front(alloc: Global, bytes: &[u8]) -> Result<Front, ReadTerm>
    ensures readable { IfOk result (λ f. IsReadable f.term) }
    ensures text { IfOk result (λ f. (f.used ≤ length bytes.now) × (take f.used bytes.now ≡ term_text f.term)) }
    ensures longest { IfOk result (λ f. (t : Term) → IsReadable t → Begins bytes.now t → length (term_text t) ≤ f.used) }
    // No other term has that text.
    ensures only { IfOk result (λ f. (t : Term) → IsTerm t → take f.used bytes.now ≡ term_text t → t ≡ f.term) }
    ensures bad { IsErrOf result ReadTerm.BadTerm → (t : Term) → IsReadable t → ¬ Begins bytes.now t }
{
    let (term, _, rest) = front(alloc, READ_DEPTH, READ_NODES, bytes)?;
    let used = bytes.len() - rest.len();
    Ok(Front { term, used })
}

/// The term of which the bytes are the text. `BadTerm` exactly where they are the text of no term
/// of at most [`READ_NODES`] nodes and depth [`READ_DEPTH`], `Memory` only where memory ran out.
/// (Erlang Reference Manual, Data Types.)
pub fn read(alloc: Global, bytes: &[u8]) -> Result<Term, ReadTerm>
    ensures found { IfOk result (λ t. IsReadable t × (bytes.now ≡ term_text t)) }
    // No other term has this text.
    ensures only { IfOk result (λ t. (u : Term) → IsTerm u → bytes.now ≡ term_text u → u ≡ t) }
    ensures bad { IsErrOf result ReadTerm.BadTerm → (t : Term) → IsReadable t → bytes.now ≢ term_text t }
    // What was printed is read again, unless memory runs out.
    ensures again { (t : Term) → IsReadable t → bytes.now ≡ term_text t → Gives (λ u. u) result (Some t) }
{
    let front = read_front(alloc, bytes)?;
    if front.used == bytes.len() {
        Ok(front.term)
    } else {
        drop(front);
        Err(ReadTerm::BadTerm)
    }
}

/// Different terms have different texts.
pub fn texts_tell_terms_apart()
    ensures { (t u : Term) → IsTerm t → IsTerm u → term_text t ≡ term_text u → t ≡ u }
{}

/// The limits in numbers: [`READ_DEPTH`] is 65, [`READ_NODES`] is 1,029, and
/// [`MOST_WORD_BYTES`](crate::bytes::MOST_WORD_BYTES) is 255.
pub fn the_limits_of_terms()
    ensures depth { READ_DEPTH ≡ 65 }
    ensures nodes { READ_NODES ≡ 1029 }
    ensures word { MOST_WORD_BYTES ≡ 255 }
{}
