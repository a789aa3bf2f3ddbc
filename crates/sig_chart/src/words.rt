//! What a record says of an event, a signal and a process, as texts of a chart.

ghost use Rattle.std.specs.Prelude.{◌≡◌, ◌++◌, IfOk, OnOk};
ghost use Rattle.sig_terms.specs.TermText.{term_text};
ghost use Rattle.sig_record.specs.KindRows.{kind_text};
ghost use Rattle.sig_record.specs.RecordText.{event_words};
ghost use Rattle.sig_chart.specs.Shapes.{standing};

use sig_kinds::Kind;
use sig_lists::Sequence;
use sig_model::{Event, State};
use sig_record::{print_event_words, print_kind};
use sig_svg::Bytes;
use sig_terms::Term;
use std::alloc::{AllocError, Global};

/// What the process did at the event, and what came of it. The error is want of memory.
pub(crate) fn event_words(alloc: Global, event: &Event) -> Result<Bytes, AllocError>
    ensures { IfOk result (λ text. text ≡ event_words event.now) }
{
    let mut text = Vec::new(alloc);
    print_event_words(event, &mut text)?;
    Ok(Sequence::from_vec(text))
}

/// What a signal of this kind says. The error is want of memory.
pub(crate) fn kind_words(alloc: Global, kind: &Kind) -> Result<Bytes, AllocError>
    ensures { IfOk result (λ text. text ≡ kind_text kind.now) }
{
    let mut text = Vec::new(alloc);
    print_kind(kind, &mut text)?;
    Ok(Sequence::from_vec(text))
}

fn put(into: &mut Vec<u8>, text: &[u8]) -> Result<(), AllocError>
    ensures { OnOk result (into.new.items ≡ into.old.items ++ text.now) }
{
    into.extend_from_slice(text)
}

fn put_term(into: &mut Vec<u8>, word: &[u8], term: &Term) -> Result<(), AllocError>
    ensures { OnOk result (into.new.items ≡ into.old.items ++ (word.now ++ term_text term.now)) }
{
    put(into, word)?;
    term.print(into)
}

fn put_standing(into: &mut Vec<u8>, state: &State) -> Result<(), AllocError>
    ensures { OnOk result (into.new.items ≡ into.old.items ++ standing state.now) }
{
    match state {
        State::Ended { reason } => put_term(into, b"ended ", reason),
        State::Waiting => put(into, b"waiting"),
        State::Cut => put(into, b"cut"),
    }
}

/// How a process stands. The error is want of memory.
pub(crate) fn standing(alloc: Global, state: &State) -> Result<Bytes, AllocError>
    ensures { IfOk result (λ text. text ≡ standing state.now) }
{
    let mut text = Vec::new(alloc);
    put_standing(&mut text, state)?;
    Ok(Sequence::from_vec(text))
}
