ghost use Rattle.std.specs.Prelude.{◌≡◌, ◌++◌, ◌∷◌, ℕ, List, [], OnOk, OnErr, All, true, codes, decimal};
ghost use Rattle.std.specs.List.{flat_map};
ghost use Rattle.sig_terms.specs.TermText.{term_text};
ghost use Rattle.sig_terms.specs.Readable.{IsTerm};
ghost use Rattle.sig_terms.specs.Words.{is_token};
ghost use Rattle.sig_terms.specs.Putting.{IsPut};
ghost use Rattle.sig_record.specs.Phrases.{truth_text, IsNarrow, IsWide};
ghost use Rattle.sig_record.specs.EventRows.{did_text, outcome_text};
ghost use Rattle.sig_record.specs.RecordText.{
  event_text,
  left_text,
  queued_text,
  state_text,
  head_text,
  report_text,
  header_text,
  reports_text,
  record_text,
};
ghost use Rattle.sig_record.specs.StoredRecord.{
  IsStoredDid,
  IsStoredOutcome,
  IsStoredEvent,
  IsStoredLeft,
  IsStoredSignal,
  IsStoredState,
  IsStoredReport,
  IsStoredRecord,
};
ghost use Rattle.sig_record.specs.ReadableRecord.{CanBeReread};

use crate::kinds::put_spaced_kind;
use crate::record::Record;
use crate::report::{Left, Report};
use crate::words::write_word;
use itoa::{Buffer, write_digits};
use sig_kinds::Signal;
use sig_model::{Did, Event, Outcome, State};
use sig_terms::{Name, Pid, Term};
use std::alloc::AllocError;

/// About how many bytes the line of an event has.
const EVENT_LINE: usize = 40;

/// No fewer bytes than the numbers of an event take, with the words between them.
const LINE: usize = 72;

pub(crate) fn put(into: &mut Vec<u8>, text: &[u8]) -> Result<(), AllocError>
    ensures { IsPut into.old.items into.new.items text.now result }
{
    into.extend_from_slice(text)
}

pub(crate) fn put_byte(into: &mut Vec<u8>, byte: u8) -> Result<(), AllocError>
    ensures { IsPut into.old.items into.new.items (byte ∷ []) result }
{
    into.push(byte)?;
    Ok(())
}

fn put_number(into: &mut Vec<u8>, n: u64) -> Result<(), AllocError>
    ensures { IsPut into.old.items into.new.items (decimal n) result }
{
    let mut buffer = Buffer::new();
    into.extend_from_slice(buffer.format(n).as_bytes())
}

pub(crate) fn put_numbered(into: &mut Vec<u8>, word: &[u8], number: u64) -> Result<(), AllocError>
    ensures text { IsPut into.old.items into.new.items (word.now ++ decimal number) result }
    ensures wide { IsWide number }
{
    put(into, word)?;
    put_number(into, number)
}

/// A space, and the number.
pub(crate) fn put_spaced_number(into: &mut Vec<u8>, number: u64) -> Result<(), AllocError>
    ensures text { IsPut into.old.items into.new.items (codes " " ++ decimal number) result }
    ensures wide { IsWide number }
{
    put_byte(into, b' ')?;
    put_number(into, number)
}

pub(crate) fn put_pid(into: &mut Vec<u8>, word: &[u8], pid: Pid) -> Result<(), AllocError>
    ensures text { IsPut into.old.items into.new.items (word.now ++ decimal pid.0) result }
    ensures narrow { IsNarrow pid.0 }
{
    put_numbered(into, word, u64::from(pid.0))
}

pub(crate) fn put_term(into: &mut Vec<u8>, word: &[u8], term: &Term) -> Result<(), AllocError>
    ensures text { IsPut into.old.items into.new.items (word.now ++ term_text term.now) result }
    ensures stored { OnOk result (IsTerm term.now) }
{
    put(into, word)?;
    term.print(into)
}

/// A space, and the term.
pub(crate) fn put_spaced_term(into: &mut Vec<u8>, term: &Term) -> Result<(), AllocError>
    ensures text { IsPut into.old.items into.new.items (codes " " ++ term_text term.now) result }
    ensures stored { OnOk result (IsTerm term.now) }
{
    put_byte(into, b' ')?;
    term.print(into)
}

fn answered_words(truth: bool) -> &'static [u8]
    ensures { result.now ≡ codes " answered " ++ truth_text truth }
{
    if truth {
        b" answered true"
    } else {
        b" answered false"
    }
}

/// A space, and which clause took a message, after how many were looked at.
fn put_took(into: &mut Vec<u8>, clause: u32, looked: u64) -> Result<(), AllocError>
    ensures text { IsPut into.old.items into.new.items (codes " took " ++ decimal clause ++ codes " " ++ decimal looked) result }
    ensures clause { IsNarrow clause }
    ensures looked { IsWide looked }
{
    let mut line = [0; LINE];
    let at = write_digits(looked, &mut line, LINE);
    let at = write_word(b" ", &mut line, at);
    let at = write_digits(u64::from(clause), &mut line, at);
    let at = write_word(b" took ", &mut line, at);
    put(into, &line[at..])
}

/// A space, and what a receive took.
fn put_spaced_took(
    into: &mut Vec<u8>,
    clause: u32,
    looked: u64,
    message: &Term,
) -> Result<(), AllocError>
    ensures text { IsPut into.old.items into.new.items
        (codes " took " ++ decimal clause ++ codes " " ++ decimal looked ++ codes " " ++ term_text message.now) result }
    ensures clause { IsNarrow clause }
    ensures looked { IsWide looked }
    ensures message { OnOk result (IsTerm message.now) }
{
    put_took(into, clause, looked)?;
    put_spaced_term(into, message)
}

/// A space, and how it went.
pub(crate) fn put_spaced_outcome(into: &mut Vec<u8>, outcome: &Outcome) -> Result<(), AllocError>
    ensures text { IsPut into.old.items into.new.items (codes " " ++ outcome_text outcome.now) result }
    ensures stored { OnOk result (IsStoredOutcome outcome.now) }
{
    match outcome {
        Outcome::Sent { to, message } => {
            put_term(into, b" sent ", to)?;
            put_spaced_term(into, message)
        }
        Outcome::Set { value } => put_term(into, b" set ", value),
        Outcome::Done => put(into, b" done"),
        Outcome::Answered { yes } => put(into, answered_words(*yes)),
        Outcome::Took {
            clause,
            looked,
            message,
        } => put_spaced_took(into, *clause, *looked, message),
        Outcome::After { looked } => put_numbered(into, b" after ", *looked),
        Outcome::Ended { reason } => put_term(into, b" ended ", reason),
        Outcome::Kept { message } => put_term(into, b" kept ", message),
        Outcome::Dropped => put(into, b" dropped"),
        Outcome::Linked => put(into, b" linked"),
        Outcome::Unlinked => put(into, b" unlinked"),
        Outcome::Acked => put(into, b" acked"),
        Outcome::Watched => put(into, b" watched"),
        Outcome::Unwatched => put(into, b" unwatched"),
        Outcome::NoProc => put(into, b" noproc"),
    }
}

/// The stamp of an execution, and its place.
fn put_exec(into: &mut Vec<u8>, stamp: u64, place: u32) -> Result<(), AllocError>
    ensures text { IsPut into.old.items into.new.items (decimal stamp ++ codes " exec " ++ decimal place) result }
    ensures stamp { IsWide stamp }
    ensures place { IsNarrow place }
{
    let mut line = [0; LINE];
    let at = write_digits(u64::from(place), &mut line, LINE);
    let at = write_word(b" exec ", &mut line, at);
    let at = write_digits(stamp, &mut line, at);
    put(into, &line[at..])
}

/// The stamp of a handling, and the sender of the signal with its number.
fn put_from(into: &mut Vec<u8>, stamp: u64, from: Pid, number: u64) -> Result<(), AllocError>
    ensures text { IsPut into.old.items into.new.items
        (decimal stamp ++ codes " from " ++ decimal from.0 ++ codes " " ++ decimal number) result }
    ensures stamp { IsWide stamp }
    ensures from { IsNarrow from.0 }
    ensures number { IsWide number }
{
    let mut line = [0; LINE];
    let at = write_digits(number, &mut line, LINE);
    let at = write_word(b" ", &mut line, at);
    let at = write_digits(u64::from(from.0), &mut line, at);
    let at = write_word(b" from ", &mut line, at);
    let at = write_digits(stamp, &mut line, at);
    put(into, &line[at..])
}

/// The event's stamp, and what the process did.
fn put_act(into: &mut Vec<u8>, event: &Event) -> Result<(), AllocError>
    ensures text { IsPut into.old.items into.new.items (decimal event.now.stamp ++ codes " " ++ did_text event.now.did) result }
    ensures stored { OnOk result (IsWide event.now.stamp × IsStoredDid event.now.did) }
{
    match &event.did {
        Did::Exec { place } => put_exec(into, event.stamp, *place),
        Did::From { from, number } => put_from(into, event.stamp, *from, *number),
    }
}

/// What a record has several of: events, messages, signals, reports.
trait Part {
    ghost text: { Self → List ℕ };

    ghost IsStored: { Self → Type 0 };

    fn put(&self, into: &mut Vec<u8>) -> Result<(), AllocError>
        ensures text { IsPut into.old.items into.new.items (text self.now) result }
        ensures stored { OnOk result (IsStored self.now) };
}

#[tactic(auto, using(crate::proofs::Fronts::kept_front))]
fn put_each<P: Part>(into: &mut Vec<u8>, parts: &[P]) -> Result<(), AllocError>
    ensures text { IsPut into.old.items into.new.items (flat_map P.text parts.now) result }
    ensures stored { OnOk result (All P.IsStored parts.now) }
{
    for part in parts {
        part.put(into)?;
    }
    Ok(())
}

impl Part for Event {
    ghost text = { event_text };

    ghost IsStored = { IsStoredEvent };

    #[tactic(auto, unfolding(crate::specs::RecordText::event_text))]
    fn put(&self, into: &mut Vec<u8>) -> Result<(), AllocError> {
        put_act(into, self)?;
        put_spaced_outcome(into, &self.outcome)?;
        put_byte(into, b'\n')
    }
}

fn put_events(into: &mut Vec<u8>, events: &[Event]) -> Result<(), AllocError>
    ensures text { IsPut into.old.items into.new.items (flat_map event_text events.now) result }
    ensures stored { OnOk result (All IsStoredEvent events.now) }
{
    into.reserve(events.len().saturating_mul(EVENT_LINE))?;
    put_each(into, events)
}

impl Part for Left {
    ghost text = { left_text };

    ghost IsStored = { IsStoredLeft };

    #[tactic(auto, unfolding(crate::specs::RecordText::left_text))]
    fn put(&self, into: &mut Vec<u8>) -> Result<(), AllocError> {
        put_numbered(into, b"left ", self.arrival)?;
        put_spaced_term(into, &self.message)?;
        put_byte(into, b'\n')
    }
}

fn put_signal_numbers(into: &mut Vec<u8>, signal: &Signal) -> Result<(), AllocError>
    ensures text { IsPut into.old.items into.new.items
        (codes "queued " ++ decimal signal.now.from.0 ++ codes " " ++ decimal signal.now.number ++ codes " " ++
        decimal signal.now.stamp) result }
    ensures from { IsNarrow signal.now.from.0 }
    ensures number { OnOk result (IsWide signal.now.number) }
    ensures stamp { OnOk result (IsWide signal.now.stamp) }
{
    put_pid(into, b"queued ", signal.from)?;
    put_spaced_number(into, signal.number)?;
    put_spaced_number(into, signal.stamp)
}

impl Part for Signal {
    ghost text = { queued_text };

    ghost IsStored = { IsStoredSignal };

    #[tactic(auto, unfolding(crate::specs::RecordText::queued_text))]
    fn put(&self, into: &mut Vec<u8>) -> Result<(), AllocError> {
        put_signal_numbers(into, self)?;
        put_spaced_kind(into, &self.kind)?;
        put_byte(into, b'\n')
    }
}

fn put_ended(into: &mut Vec<u8>, reason: &Term) -> Result<(), AllocError>
    ensures text { IsPut into.old.items into.new.items (codes "state ended " ++ term_text reason.now ++ codes "\n") result }
    ensures stored { OnOk result (IsTerm reason.now) }
{
    put_term(into, b"state ended ", reason)?;
    put_byte(into, b'\n')
}

pub(crate) fn put_state(into: &mut Vec<u8>, state: &State) -> Result<(), AllocError>
    ensures text { IsPut into.old.items into.new.items (state_text state.now) result }
    ensures stored { OnOk result (IsStoredState state.now) }
{
    match state {
        State::Ended { reason } => put_ended(into, reason),
        State::Waiting => put(into, b"state waiting\n"),
        State::Cut => put(into, b"state cut\n"),
    }
}

pub(crate) fn put_head(into: &mut Vec<u8>, pid: Pid, name: &Name) -> Result<(), AllocError>
    ensures text { IsPut into.old.items into.new.items (head_text pid.0 name.now) result }
    ensures stored { OnOk result (IsNarrow pid.0 × (is_token name.now ≡ true)) }
{
    put_pid(into, b"process ", pid)?;
    put_byte(into, b' ')?;
    put(into, name.bytes())?;
    put_byte(into, b'\n')
}

/// What the process did.
fn put_past(into: &mut Vec<u8>, report: &Report) -> Result<(), AllocError>
    ensures text { IsPut into.old.items into.new.items
        (head_text report.now.pid.0 report.now.name ++ flat_map event_text report.now.events) result }
    ensures pid { OnOk result (IsNarrow report.now.pid.0) }
    ensures name { OnOk result (is_token report.now.name ≡ true) }
    ensures events { OnOk result (All IsStoredEvent report.now.events) }
{
    put_head(into, report.pid, &report.name)?;
    put_events(into, report.events.as_slice())
}

/// What it did, and what waits for it.
fn put_lists(into: &mut Vec<u8>, report: &Report) -> Result<(), AllocError>
    ensures text { IsPut into.old.items into.new.items
        (head_text report.now.pid.0 report.now.name ++ flat_map event_text report.now.events ++
        flat_map left_text report.now.left ++ flat_map queued_text report.now.queued) result }
    ensures pid { OnOk result (IsNarrow report.now.pid.0) }
    ensures name { OnOk result (is_token report.now.name ≡ true) }
    ensures events { OnOk result (All IsStoredEvent report.now.events) }
    ensures left { OnOk result (All IsStoredLeft report.now.left) }
    ensures queued { OnOk result (All IsStoredSignal report.now.queued) }
{
    put_past(into, report)?;
    put_each(into, report.left.as_slice())?;
    put_each(into, report.queued.as_slice())
}

impl Part for Report {
    ghost text = { report_text };

    ghost IsStored = { IsStoredReport };

    #[tactic(auto, unfolding(crate::specs::RecordText::report_text))]
    fn put(&self, into: &mut Vec<u8>) -> Result<(), AllocError> {
        put_lists(into, self)?;
        put_state(into, &self.state)
    }
}

#[tactic(auto, using(crate::proofs::Fronts::kept_front))]
fn put_record(into: &mut Vec<u8>, reports: &[Report]) -> Result<(), AllocError>
    ensures text { IsPut into.old.items into.new.items (record_text reports.now) result }
    ensures stored { OnOk result (IsStoredRecord reports.now) }
{
    put(into, b"sigrecord 1\n")?;
    put_each(into, reports)?;
    Ok(())
}

/// Appends the record's text. Each record has one text. Where memory is refused, `into` is as
/// before. A record whose names are name tokens and whose terms are no larger than what is read, as
/// one that was gathered of a script with such names, can be read: `read_record` gives it back.
pub fn print_record(given: &Record, into: &mut Vec<u8>) -> Result<(), AllocError>
    ensures text { OnOk result (into.new.items ≡ into.old.items ++ record_text given.now) }
    ensures err { OnErr result (into.new.items ≡ into.old.items) }
    ensures readable { OnOk result (CanBeReread given.now) }
{
    let before = into.len();
    let appended = put_record(into, given.reports());
    if appended.is_err() {
        into.truncate(before);
    }
    appended
}

/// Appends the line with which each record's text begins. Where memory is refused, `into` is as before.
pub fn print_header(into: &mut Vec<u8>) -> Result<(), AllocError>
    ensures text { OnOk result (into.new.items ≡ into.old.items ++ header_text) }
    ensures err { OnErr result (into.new.items ≡ into.old.items) }
{
    let before = into.len();
    let appended = put(into, b"sigrecord 1\n");
    if appended.is_err() {
        into.truncate(before);
    }
    appended
}

/// Appends what a record's text tells of these processes. The texts of a record's reports, cut into
/// parts anywhere and one behind the other, are behind its header the text of the record, as
/// `a_records_text_is_that_of_its_parts` says. What was printed lies in memory (`stored`). Where memory is
/// refused, `into` is as before.
pub fn print_reports(reports: &[Report], into: &mut Vec<u8>) -> Result<(), AllocError>
    ensures text { OnOk result (into.new.items ≡ into.old.items ++ reports_text reports.now) }
    ensures err { OnErr result (into.new.items ≡ into.old.items) }
    ensures stored { OnOk result (IsStoredRecord reports.now) }
{
    let before = into.len();
    let appended = put_each(into, reports);
    if appended.is_err() {
        into.truncate(before);
    }
    appended
}
