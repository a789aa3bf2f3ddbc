//! The order in which outcomes are listed: that of their texts.

ghost use Rattle.std.specs.Prelude.{◌≡◌, IfOk, OnOk, All, AllPairs, map};
ghost use Rattle.std.specs.List.Sorted.{IsPermutation};
ghost use Rattle.sig_record.specs.EndText.{ends_text};
ghost use Rattle.sig_record.specs.StoredEnds.{AreStoredEnds};
ghost use Rattle.sig_view.specs.OutcomeText.{AreEndingsInTextOrder, IsNotBehind};
ghost use Rattle.sig_view.specs.declared.ordering.Listed.{Listed};

use sig_record::{Record, print_ends};
use std::alloc::{AllocError, Global};

/// A record, and the text of the outcome in which its run ended.
#[derive(Drop)]
struct Listed {
    ending: Record,
    text: Vec<u8>,
}

/// The record, with that text.
fn with_text(alloc: Global, ending: Record) -> Result<Listed, AllocError>
    ensures text { IfOk result (λ listed. (listed.ending ≡ ending) × (listed.text.items ≡ ends_text ending)) }
    ensures stored { OnOk result (AreStoredEnds ending) }
{
    let mut text = Vec::new(alloc);
    print_ends(ending.reports(), &mut text)?;
    Ok(Listed { ending, text })
}

/// The records, each with its text.
fn with_texts(alloc: Global, endings: Vec<Record>) -> Result<Vec<Listed>, AllocError>
    ensures endings { IfOk result (λ listed. map (λ (l : Listed). l.ending) listed.items ≡ endings.items) }
    ensures texts { IfOk result (λ listed. All (λ (l : Listed). l.text.items ≡ ends_text l.ending) listed.items) }
    ensures stored { IfOk result (λ listed. All (λ (l : Listed). AreStoredEnds l.ending) listed.items) }
{
    let mut listed = Vec::new(alloc);
    for ending in endings {
        listed.push(with_text(alloc, ending)?)?;
    }
    Ok(listed)
}

/// Puts them into the order of their texts.
fn sort(listed: &mut Vec<Listed>)
    ensures same { IsPermutation listed.old.items listed.new.items }
    ensures ascending { AllPairs (λ (a b : Listed). IsNotBehind a.text.items b.text.items) listed.new.items }
{
    listed.sort_unstable_by(|a, b| a.text.as_slice().cmp(b.text.as_slice()));
}

/// The records alone.
fn endings_of(alloc: Global, listed: Vec<Listed>) -> Result<Vec<Record>, AllocError>
    ensures { IfOk result (λ endings. endings.items ≡ map (λ (l : Listed). l.ending) listed.items) }
{
    let mut endings = Vec::new(alloc);
    for one in listed {
        endings.push(one.ending)?;
    }
    Ok(endings)
}

/// The same records, by ascending text of the outcomes that they tell.
pub(crate) fn arranged(alloc: Global, endings: Vec<Record>) -> Result<Vec<Record>, AllocError>
    ensures same { IfOk result (λ arranged. IsPermutation endings.items arranged.items) }
    ensures ascending { IfOk result (λ arranged. AreEndingsInTextOrder arranged.items) }
    ensures stored { IfOk result (λ arranged. All AreStoredEnds arranged.items) }
{
    let mut listed = with_texts(alloc, endings)?;
    sort(&mut listed);
    endings_of(alloc, listed)
}
