ghost use Rattle.std.specs.Prelude.{◌≡◌, ◌+◌, ◌⊎◌, ℕ, List, map, string_bytes};
ghost use Rattle.sig_base.specs.Flow.{Rose, Adds, IsNotPassed};
ghost use Rattle.sig_edge.specs.Streams.{IsReadWithin, reading, writing};
ghost use Rattle.sig_edge.specs.Told.{AddsBeginning, FailedOnceAtMost};
ghost use Rattle.sig_tool.specs.declared.command.Command.{Command as Asked};
ghost use Rattle.sig_tool.specs.declared.given.TheConstants.{MOST_INPUT};
ghost use Rattle.sig_tool.specs.declared.status.ToolStatus.{ToolStatus};
ghost use Rattle.sig_tool.specs.Answers.{IsAnswer, IsDue, IsRanSo, IsWellGiven};
ghost use Rattle.sig_tool.specs.Texts.{IsTextRead};
ghost use Rattle.sig_tool.specs.Told.{told_text};

use crate::checking::check_text;
use crate::command::Command;
use crate::expanding::expand_text;
use crate::linking::links_text;
use crate::ordering::before_text;
use crate::replaying::replay_text;
use crate::status::ToolStatus;
use crate::telling::tell;
use sig_base::{Sink, Source, Written, write_whole};
use std::alloc::Global;

/// What the command writes of the input.
fn text_of<S: Source>(alloc: Global, command: Command, input: &mut S) -> Result<Vec<u8>, ToolStatus>
    ensures text { IsTextRead command (reading (S.left input.old) (S.left input.new) (S.faults input.old) (S.faults input.new)) result }
    ensures taken { IsReadWithin (MOST_INPUT + 1)
        (reading (S.left input.old) (S.left input.new) (S.faults input.old) (S.faults input.new)) }
    ensures behind { IsNotPassed (S.end input.old) (S.end input.new) }
{
    match command {
        Command::Check => check_text(alloc, input),
        Command::Replay => replay_text(alloc, input),
        Command::Links => links_text(alloc, input),
        Command::Before { first, second } => before_text(alloc, first, second, input),
        Command::Expand => expand_text(alloc, input),
    }
}

/// Reads the input, and writes what the command says of it. The text is made whole before the first
/// write.
fn run_command<S: Source, O: Sink>(
    alloc: Global,
    command: Command,
    input: &mut S,
    out: &mut O,
) -> ToolStatus
    ensures run { IsRanSo command (reading (S.left input.old) (S.left input.new) (S.faults input.old) (S.faults input.new))
        (writing (O.held out.old) (O.held out.new) (O.faults out.old) (O.faults out.new)) result }
    ensures taken { IsReadWithin (MOST_INPUT + 1)
        (reading (S.left input.old) (S.left input.new) (S.faults input.old) (S.faults input.new)) }
    ensures behind { IsNotPassed (S.end input.old) (S.end input.new) }
{
    match text_of(alloc, command, input) {
        Ok(text) => match write_whole(out, text.as_slice()) {
            Written::Whole => ToolStatus::Done,
            Written::WriteFault { written: _ } => ToolStatus::WriteFault,
        },
        Err(status) => status,
    }
}

/// Reads the arguments, and writes what their command says of the input.
#[tactic(auto, using(sig_edge::proofs::TakenLemmas::none_taken))]
fn run_words<S: Source, O: Sink>(
    alloc: Global,
    words: &[String],
    input: &mut S,
    out: &mut O,
) -> ToolStatus
    ensures answer { IsAnswer (map string_bytes words.now)
        (reading (S.left input.old) (S.left input.new) (S.faults input.old) (S.faults input.new))
        (writing (O.held out.old) (O.held out.new) (O.faults out.old) (O.faults out.new)) result }
    ensures taken { IsReadWithin (MOST_INPUT + 1)
        (reading (S.left input.old) (S.left input.new) (S.faults input.old) (S.faults input.new)) }
    ensures behind { IsNotPassed (S.end input.old) (S.end input.new) }
{
    match Command::of(words) {
        Some(command) => run_command(alloc, command, input, out),
        None => ToolStatus::Usage,
    }
}

/// Reads the input to its end, a script with a record behind it or a text of calls, and writes to `out`
/// what the command says of it. The record begins at the first line that is exactly `sigrecord 1`; where
/// there is none, its part of the input is empty. The words may be one: `check` writes `yes` and a line
/// feed where the record is that of a settled run of the script; `replay` then writes the record, as it
/// is gathered from processes that made its choices; `links` writes a line `link P Q` for each two
/// processes that wait at its end with a link between them, by ascending pids, P below Q. `expand` takes
/// the whole input as a text of calls ([`expand`](sig_call::expand)), and writes the canonical text of the
/// script that it spells. Or the words are five: `before P I Q J`, with four numbers of one decimal digit
/// or more, writes `yes` and a line feed where the event I of the process P happened before the event J
/// of the process Q, and else `no` and a line feed; the events of a process are counted from 1.
///
/// Of causes that stand together the first in this order is told:
///
/// - `Usage`: exactly where the words are no command. The input wasn't read.
/// - `ReadFault`: only where a read failed, and no second one.
/// - `TooLong`: exactly where one byte more than [`MOST_INPUT`](crate::MOST_INPUT) was taken, and with
///   `expand` one more than [`MOST_BYTES`](sig_script::MOST_BYTES).
/// - `BadCall`: exactly where the command is `expand`, and a line can't stand in a text of calls; with the
///   first such line and why.
/// - `BadScript`: exactly where the script's part spells no script; with the first line that is refused
///   and why, or line 0 where it has more bytes than a script may have. With `expand`, where the expanded
///   text spells none; with the line of the input from which the refused line comes, line 0 where the
///   expanded text has more bytes than a script may have, or the line after the last where it ends too
///   early.
/// - `BadRecord`: exactly where the record's part is no record's text; with the first line, counted from
///   the first of that part, that isn't whole or can't stand there.
/// - `No`: exactly where the record isn't that of a settled run of the script; with the first event, of
///   all processes in the order of their stamps and counted from 1, with which the events are no run,
///   or one more than there are where they are one.
/// - `NoEvent`: exactly where the record is that of a settled run, and lacks one of the two events.
/// - `WriteFault`: only where a write to `out` failed, and no second one. It has taken the beginning of the
///   text.
/// - `Done`: `out` has taken the whole text.
///
/// `Memory` may come in place of each but `Usage`, where memory was wanting. No read failed, but with
/// `ReadFault`, and no write to `out`, but with `WriteFault`. Whatever the status, of the input at most
/// [`MOST_INPUT`](crate::MOST_INPUT) bytes and one more are taken, and it isn't read behind its end or behind
/// a failed read, if it wasn't before. Only `Done` and `WriteFault` have written to `out`. What a status tells
/// is written to `err` where no write to it fails, and else its beginning; a fault of `err` changes no status,
/// and there is one at most.
pub fn tool<S: Source, O: Sink, E: Sink>(
    alloc: Global,
    words: &[String],
    input: &mut S,
    out: &mut O,
    err: &mut E,
) -> ToolStatus
    ensures answer { IsAnswer (map string_bytes words.now)
        (reading (S.left input.old) (S.left input.new) (S.faults input.old) (S.faults input.new))
        (writing (O.held out.old) (O.held out.new) (O.faults out.old) (O.faults out.new)) result }
    ensures told { (Rose (E.faults err.old) (E.faults err.new) → ⊥) → Adds (E.held err.old) (E.held err.new) (told_text result) }
    ensures beginning { AddsBeginning (E.held err.old) (E.held err.new) (told_text result) }
    ensures once { FailedOnceAtMost (writing (E.held err.old) (E.held err.new) (E.faults err.old) (E.faults err.new)) }
    ensures taken { IsReadWithin (MOST_INPUT + 1)
        (reading (S.left input.old) (S.left input.new) (S.faults input.old) (S.faults input.new)) }
    ensures behind { IsNotPassed (S.end input.old) (S.end input.new) }
    // What is due for the input is answered, where nothing fails and there is memory.
    ensures complete { (command : Asked) (bytes : List ℕ) (due : ToolStatus) → IsDue command bytes due →
        IsWellGiven command (map string_bytes words.now) bytes due
        (reading (S.left input.old) (S.left input.new) (S.faults input.old) (S.faults input.new))
        (writing (O.held out.old) (O.held out.new) (O.faults out.old) (O.faults out.new))
        → (result ≡ due) ⊎ (result ≡ ToolStatus.Memory) }
{
    let status = run_words(alloc, words, input, out);
    tell(err, status);
    status
}
