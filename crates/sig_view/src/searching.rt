//! The command `outcomes`.

ghost use Rattle.std.specs.Prelude.{◌≡◌, ◌+◌, All, IfOk, OnOk, map};
ghost use Rattle.std.specs.Option.{option_copied};
ghost use Rattle.sig_base.specs.Flow.{IsNotPassed};
ghost use Rattle.sig_edge.specs.Streams.{IsReadWithin, reading};
ghost use Rattle.sig_program.specs.ScriptNames.{AreNames};
ghost use Rattle.sig_record.specs.ReadableRecord.{CanBeReread};
ghost use Rattle.sig_record.specs.RecordText.{record_text};
ghost use Rattle.sig_record.specs.StoredEnds.{AreStoredEnds};
ghost use Rattle.sig_outcomelaw.specs.Told.{outcome_told};
ghost use Rattle.sig_explore.specs.Seen.{HaveSeen};
ghost use Rattle.sig_tool.specs.declared.given.TheConstants.{MOST_INPUT};
ghost use Rattle.sig_view.specs.declared.command.Command.TheVariants.{OutcomeRecord, Outcomes as Listing};
ghost use Rattle.sig_view.specs.Outcomes.{AreFound, end_with, IsFoundText, IsListText, IsNumberedText, numbered};
ghost use Rattle.sig_view.specs.OutcomeText.{AreEndingsInTextOrder};
ghost use Rattle.sig_view.specs.Texts.{IsTextRead};

use crate::ordering::arranged;
use crate::outcome_text::endings_text;
use crate::reading::read_alone;
use crate::status::ViewStatus;
use crate::text::Text;
use sig_base::Source;
use sig_explore::{Outcomes, list_outcomes};
use sig_record::{Record, print_record};
use sig_script::{Script, names_of_scripts_are_name_tokens};
use sig_search::Teller;
use std::alloc::{AllocError, Global};

/// What a search of the script's runs finds, which visits at most so many states.
fn search<T: Teller>(
    alloc: Global,
    script: &Script,
    states: u64,
    teller: &mut T,
) -> Result<Outcomes, AllocError>
    ensures found { IfOk result (λ found. AreFound script.now states found.endings.items found.states found.all) }
    ensures seen { IfOk result (λ found. HaveSeen script.now states found.states (map outcome_told found.endings.items)) }
{
    list_outcomes(alloc, script, states as usize, teller)
}

/// The same, with the records in the order of their texts.
fn search_in_order<T: Teller>(
    alloc: Global,
    script: &Script,
    states: u64,
    teller: &mut T,
) -> Result<Outcomes, AllocError>
    ensures found { IfOk result (λ found. AreFound script.now states found.endings.items found.states found.all) }
    ensures seen { IfOk result (λ found. HaveSeen script.now states found.states (map outcome_told found.endings.items)) }
    ensures ascending { IfOk result (λ found. AreEndingsInTextOrder found.endings.items) }
    ensures stored { IfOk result (λ found. All AreStoredEnds found.endings.items) }
{
    let found = search(alloc, script, states, teller)?;
    let endings = arranged(alloc, found.endings)?;
    Ok(Outcomes {
        endings,
        states: found.states,
        all: found.all,
    })
}

/// How the call ends that has written what was found.
fn end_of(found: &Outcomes) -> ViewStatus
    ensures { result ≡ end_with found.now.all found.now.states }
{
    if found.all {
        ViewStatus::Done
    } else {
        ViewStatus::Unfinished {
            states: found.states as u64,
        }
    }
}

/// The text that lists the outcomes of the script which a search of at most so many states finds.
fn list_text<T: Teller>(
    alloc: Global,
    script: &Script,
    states: u64,
    teller: &mut T,
) -> Result<Text, ViewStatus>
    ensures { AreNames script.now → IsListText script.now states result }
{
    let found = search_in_order(alloc, script, states, teller)?;
    let bytes = endings_text(alloc, found.endings.as_slice(), found.all)?;
    let end = end_of(&found);
    Ok(Text { bytes, end })
}

/// The text of `outcomes`: the outcomes of the script that the input spells, as many as a search of at
/// most so many states finds.
pub(crate) fn outcomes_text<S: Source, T: Teller>(
    alloc: Global,
    states: u64,
    input: &mut S,
    teller: &mut T,
) -> Result<Text, ViewStatus>
    ensures text { IsTextRead (Listing states)
        (reading (S.left input.old) (S.left input.new) (S.faults input.old) (S.faults input.new)) result }
    ensures taken { IsReadWithin (MOST_INPUT + 1)
        (reading (S.left input.old) (S.left input.new) (S.faults input.old) (S.faults input.new)) }
    ensures behind { IsNotPassed (S.end input.old) (S.end input.new) }
{
    let script = read_alone(alloc, input)?;
    names_of_scripts_are_name_tokens();
    list_text(alloc, &script, states, teller)
}

/// The record of this number, counted from 1.
fn numbered(endings: &[Record], number: u64) -> Option<&Record>
    ensures { option_copied result ≡ numbered number endings.now }
{
    match number.checked_sub(1) {
        Some(place) => endings.get(place as usize),
        None => None,
    }
}

/// The text of a record.
fn text_of(alloc: Global, told: &Record) -> Result<Vec<u8>, AllocError>
    ensures text { IfOk result (λ text. text.items ≡ record_text told.now) }
    ensures readable { OnOk result (CanBeReread told.now) }
{
    let mut text = Vec::new(alloc);
    print_record(told, &mut text)?;
    Ok(text)
}

/// The text of the record of this number, counted from 1, among those that were found; with it the call ends
/// as with their list. Where there is none it is `NoOutcome` if these are all, and else `NotFound`.
fn found_text(alloc: Global, found: &Outcomes, number: u64) -> Result<Text, ViewStatus>
    ensures { IsFoundText found.now.endings.items found.now.states found.now.all number result }
{
    match numbered(found.endings.as_slice(), number) {
        Some(ending) => {
            let bytes = text_of(alloc, ending)?;
            let end = end_of(found);
            Ok(Text { bytes, end })
        }
        None if found.all => Err(ViewStatus::NoOutcome),
        None => Err(ViewStatus::NotFound {
            states: found.states as u64,
        }),
    }
}

/// The same of those that a search of at most so many states finds. There is no search for 0, which
/// numbers none.
fn numbered_text<T: Teller>(
    alloc: Global,
    script: &Script,
    states: u64,
    number: u64,
    teller: &mut T,
) -> Result<Text, ViewStatus>
    ensures { AreNames script.now → IsNumberedText script.now states number result }
{
    if number == 0 {
        return Err(ViewStatus::NoOutcome);
    }
    let found = search_in_order(alloc, script, states, teller)?;
    found_text(alloc, &found, number)
}

/// The text of `outcomes --record`: the record of a run that ends in the outcome of this number, counted
/// from 1, of those that a search of at most so many states finds; or why there is none.
pub(crate) fn outcome_record_text<S: Source, T: Teller>(
    alloc: Global,
    states: u64,
    number: u64,
    input: &mut S,
    teller: &mut T,
) -> Result<Text, ViewStatus>
    ensures text { IsTextRead (OutcomeRecord states number)
        (reading (S.left input.old) (S.left input.new) (S.faults input.old) (S.faults input.new)) result }
    ensures taken { IsReadWithin (MOST_INPUT + 1)
        (reading (S.left input.old) (S.left input.new) (S.faults input.old) (S.faults input.new)) }
    ensures behind { IsNotPassed (S.end input.old) (S.end input.new) }
{
    let script = read_alone(alloc, input)?;
    names_of_scripts_are_name_tokens();
    numbered_text(alloc, &script, states, number, teller)
}
