ghost use Rattle.std.specs.Prelude.{◌≡◌, ◌+◌, ◌⊎◌, ℕ, List, map, string_bytes};
ghost use Rattle.sig_base.specs.Flow.{Rose, Adds, IsNotPassed};
ghost use Rattle.sig_edge.specs.Streams.{IsReadWithin, reading, writing};
ghost use Rattle.sig_edge.specs.Told.{AddsBeginning, FailedOnceAtMost};
ghost use Rattle.sig_tool.specs.declared.given.TheConstants.{MOST_INPUT};
ghost use Rattle.sig_view.specs.declared.command.Command.{Command as Asked};
ghost use Rattle.sig_view.specs.declared.status.ViewStatus.{ViewStatus};
ghost use Rattle.sig_view.specs.Answers.{as_done, IsAnswer, IsDue, IsRanSo, IsWellGiven};
ghost use Rattle.sig_view.specs.Texts.{IsTextRead};
ghost use Rattle.sig_view.specs.Told.{told_text};

use crate::charting::chart_text;
use crate::command::Command;
use crate::concurrency::concurrent_text;
use crate::searching::{outcome_record_text, outcomes_text};
use crate::status::ViewStatus;
use crate::telling::tell;
use crate::text::Text;
use sig_base::{Sink, Source, Written, write_whole};
use sig_search::Teller;
use std::alloc::Global;

/// What the command writes of the input.
fn text_of<S: Source, T: Teller>(
    alloc: Global,
    command: Command,
    input: &mut S,
    teller: &mut T,
) -> Result<Text, ViewStatus>
    ensures text { IsTextRead command (reading (S.left input.old) (S.left input.new) (S.faults input.old) (S.faults input.new)) result }
    ensures taken { IsReadWithin (MOST_INPUT + 1)
        (reading (S.left input.old) (S.left input.new) (S.faults input.old) (S.faults input.new)) }
    ensures behind { IsNotPassed (S.end input.old) (S.end input.new) }
{
    match command {
        Command::Chart { window } => Ok(Text::whole(chart_text(alloc, window, input)?)),
        Command::Concurrent { event } => Ok(Text::whole(concurrent_text(alloc, event, input)?)),
        Command::Outcomes { states } => outcomes_text(alloc, states, input, teller),
        Command::OutcomeRecord { states, number } => {
            outcome_record_text(alloc, states, number, input, teller)
        }
    }
}

/// Reads the input, and writes what the command says of it. The text is made whole before the first
/// write.
fn run_command<S: Source, O: Sink, T: Teller>(
    alloc: Global,
    command: Command,
    input: &mut S,
    out: &mut O,
    teller: &mut T,
) -> ViewStatus
    ensures run { IsRanSo command (reading (S.left input.old) (S.left input.new) (S.faults input.old) (S.faults input.new))
        (writing (O.held out.old) (O.held out.new) (O.faults out.old) (O.faults out.new)) result }
    ensures taken { IsReadWithin (MOST_INPUT + 1)
        (reading (S.left input.old) (S.left input.new) (S.faults input.old) (S.faults input.new)) }
    ensures behind { IsNotPassed (S.end input.old) (S.end input.new) }
{
    match text_of(alloc, command, input, teller) {
        Ok(text) => match write_whole(out, text.bytes.as_slice()) {
            Written::Whole => text.end,
            Written::WriteFault { written: _ } => ViewStatus::WriteFault,
        },
        Err(status) => status,
    }
}

/// Reads the arguments, and writes what their command says of the input.
#[tactic(auto, using(sig_edge::proofs::TakenLemmas::none_taken))]
fn run_words<S: Source, O: Sink, T: Teller>(
    alloc: Global,
    words: &[String],
    input: &mut S,
    out: &mut O,
    teller: &mut T,
) -> ViewStatus
    ensures answer { IsAnswer (map string_bytes words.now)
        (reading (S.left input.old) (S.left input.new) (S.faults input.old) (S.faults input.new))
        (writing (O.held out.old) (O.held out.new) (O.faults out.old) (O.faults out.new)) result }
    ensures taken { IsReadWithin (MOST_INPUT + 1)
        (reading (S.left input.old) (S.left input.new) (S.faults input.old) (S.faults input.new)) }
    ensures behind { IsNotPassed (S.end input.old) (S.end input.new) }
{
    match Command::of(words) {
        Some(command) => run_command(alloc, command, input, out, teller),
        None => ViewStatus::Usage,
    }
}

/// Reads the input to its end, a script with a record behind it or a script alone, and writes to `out`
/// what the command says of it. A script with a record is read as `tool` of sig_tool reads one.
///
/// The words may be `chart`, and behind it `--from S`, `--to T` or both in this order, with numbers of
/// one decimal digit or more that 64 bits hold: of a script and its record it writes the chart of the
/// events whose stamps lie between the two, both included; without one of them it begins with the first,
/// or ends with the last. Or they are three: `concurrent P I`, with numbers as `before` of the tool has
/// them, writes a line `concurrent Q FIRST LAST` for each process Q that has events which neither
/// happened before the event I of the process P nor after it, by ascending pid; these are its events from
/// FIRST to LAST. The events of a process are counted from 1.
///
/// Or the words are `outcomes`, and behind it `--states N`, `--record K` or both in either order: the input
/// is a script alone, of which a search may visit N states (1 to 10,000,000; 200,000 without the option).
/// It writes a list of outcomes in which settled runs of the script end, each once, by ascending text. In
/// its first line `all` says that no settled run ends otherwise, and `more` that
/// more than N states were met, no two of them the same but for stamps, numbers of signals and the order
/// between the monitors of different watchers; then each of the first N that has no choice has its outcome
/// listed. With `--record K` it writes the record of a settled run that ends in the outcome K of such a list.
///
/// Of causes that stand together the first in this order is told:
///
/// - `Usage`: exactly where the words are no command. The input wasn't read.
/// - `ReadFault`, `TooLong`, `BadScript`, `BadRecord`, `No`: as [`tool`](sig_tool::tool) tells them with
///   `check`. With `outcomes` only the first three come, and what is said there of the script's part is
///   said of the whole input.
/// - `NoEvent`: exactly where the record is that of a settled run, and lacks the event of `concurrent`.
/// - `TooManyEvents`: exactly where the record is that of a settled run, and more than
///   [`MOST_EVENTS`](sig_chart::MOST_EVENTS) of its events have the stamps of `chart`.
/// - `NoOutcome`: only where the input spells a script, with `--record K`. All outcomes of its settled runs
///   are fewer than K, or K is 0.
/// - `NotFound`: only where the input spells a script, with `--record K`, of which the search met so many
///   states, more than N. K isn't 0, and a list of what such a search meets, with `more`, has fewer outcomes
///   than K.
/// - `WriteFault`: only where a write to `out` failed, and no second one. It has taken the beginning of the
///   text.
/// - `Done` or `Unfinished`: `out` has taken the whole text. It is `Unfinished` exactly where that lists
///   outcomes with the word `more`, or is the record that ends in one of such a list: so many states were
///   met, more than N.
///
/// `Memory` may come in place of each but `Usage`, where memory was wanting. No read failed, but with
/// `ReadFault`, and no write to `out`, but with `WriteFault`. Whatever the status, of the input at most
/// [`MOST_INPUT`](sig_tool::MOST_INPUT) bytes and one more are taken, and it isn't read behind its end or
/// behind a failed read, if it wasn't before. Only `Done`, `Unfinished` and `WriteFault` have written to `out`.
/// What a status tells is written to `err` where no write to it fails, and else its beginning; a fault of `err`
/// changes no status, and there is one at most. While a search goes on the teller is told before each visit how
/// many states were visited and how many were met; no clause says so.
pub fn view<S: Source, O: Sink, E: Sink, T: Teller>(
    alloc: Global,
    words: &[String],
    input: &mut S,
    out: &mut O,
    err: &mut E,
    teller: &mut T,
) -> ViewStatus
    ensures answer { IsAnswer (map string_bytes words.now)
        (reading (S.left input.old) (S.left input.new) (S.faults input.old) (S.faults input.new))
        (writing (O.held out.old) (O.held out.new) (O.faults out.old) (O.faults out.new)) result }
    ensures told { (Rose (E.faults err.old) (E.faults err.new) → ⊥) → Adds (E.held err.old) (E.held err.new) (told_text result) }
    ensures beginning { AddsBeginning (E.held err.old) (E.held err.new) (told_text result) }
    ensures once { FailedOnceAtMost (writing (E.held err.old) (E.held err.new) (E.faults err.old) (E.faults err.new)) }
    ensures taken { IsReadWithin (MOST_INPUT + 1)
        (reading (S.left input.old) (S.left input.new) (S.faults input.old) (S.faults input.new)) }
    ensures behind { IsNotPassed (S.end input.old) (S.end input.new) }
    // What is due for the input is answered, where nothing fails and there is memory.
    ensures complete { (command : Asked) (bytes : List ℕ) (due : ViewStatus) → IsDue command bytes due →
        IsWellGiven command (map string_bytes words.now) bytes due
        (reading (S.left input.old) (S.left input.new) (S.faults input.old) (S.faults input.new))
        (writing (O.held out.old) (O.held out.new) (O.faults out.old) (O.faults out.new))
        → (as_done result ≡ due) ⊎ (result ≡ ViewStatus.Memory) }
{
    let status = run_words(alloc, words, input, out, teller);
    tell(err, status);
    status
}
