//! The canonical text of a script.

ghost use Rattle.std.specs.Prelude.{◌≡◌, ◌++◌, ◌+◌, ◌<◌, ◌≤◌, ◌^◌, [], ◌∷◌, OnOk, OnErr, IfOk, All, length};
ghost use Rattle.std.specs.List.{flat_map};
ghost use Rattle.sig_program.specs.declared.label.Label.{Label};
ghost use Rattle.sig_program.specs.Scripts.{AreRising};
ghost use Rattle.sig_terms.specs.Putting.{IsPut};
ghost use Rattle.sig_canon.specs.Printing.{labels_from};
ghost use Rattle.sig_canon.specs.ScriptText.{
  names_of,
  labels_there,
  placed_lines,
  data_lines,
  process_lines,
  procs_lines,
  turns_line,
  header_line,
  spaced,
  line_text,
  script_text,
};

use crate::instruction_text::put_instr;
use crate::putting::{put, put_count, put_word};
use sig_kinds::QueueData;
use sig_program::{Instr, Label, Proc, Script, Version};
use sig_terms::Name;
use std::alloc::AllocError;

/// Appends the line of a word and a name.
fn put_named(into: &mut Vec<u8>, word: &[u8], name: &Name) -> Result<(), AllocError>
    ensures { IsPut into.old.items into.new.items (line_text (spaced word.now (name.now ∷ []))) result }
{
    put(into, word)?;
    put_word(into, name.bytes())?;
    put(into, b"\n")
}

/// Appends the lines of the labels at this place, and answers the labels behind them. None of the
/// labels stands before the place.
#[tactic(auto, using(crate::proofs::PrintLemmas::kept_front))]
fn put_labels<'l>(
    into: &mut Vec<u8>,
    labels: &'l [Label],
    place: u32,
) -> Result<&'l [Label], AllocError>
    requires rising { AreRising labels.now }
    requires behind { All (λ (l : Label). place ≤ l.place) labels.now }
    ensures put { IsPut into.old.items into.new.items (flat_map line_text (labels_there labels.now place)) result }
    ensures rest { IfOk result (λ rest. rest.now ≡ labels_from (place + 1) labels.now) }
{
    let mut rest = labels;
    while let Some((label, others)) = rest.split_first() {
        if label.place != place {
            return Ok(rest);
        }
        put_named(into, b"label", &label.name)?;
        rest = others;
    }
    Ok(rest)
}

/// Appends the instructions, each behind the labels at its place, and the labels behind the last.
/// The labels' places never fall, so those of a place stand at the front of those that are left.
fn put_placed(
    into: &mut Vec<u8>,
    procs: &[Proc],
    labels: &[Label],
    instrs: &[Instr],
) -> Result<(), AllocError>
    requires few { length instrs.now + 1 < 2 ^ 32 }
    requires rising { AreRising labels.now }
    requires behind { All (λ (l : Label). 1 ≤ l.place) labels.now }
    ensures { IsPut into.old.items into.new.items (flat_map line_text (placed_lines (names_of procs.now) labels.now 1 instrs.now)) result }
{
    let mut rest = labels;
    let mut place: u32 = 1;
    for instr in instrs {
        rest = put_labels(into, rest, place)?;
        put_instr(into, procs, labels, instr)?;
        place += 1;
    }
    put_labels(into, rest, place)?;
    Ok(())
}

/// Appends the line of where a process keeps its messages, which stands in version 2 for a process
/// that keeps them off its heap.
fn put_queue_data(
    into: &mut Vec<u8>,
    version: Version,
    queue_data: QueueData,
) -> Result<(), AllocError>
    ensures { IsPut into.old.items into.new.items (flat_map line_text (data_lines version queue_data)) result }
{
    match (version, queue_data) {
        (Version::Two, QueueData::OffHeap) => put(into, b"message_queue_data off_heap\n"),
        (Version::Two, QueueData::OnHeap) => put(into, b""),
        (Version::One, _) => put(into, b""),
    }
}

/// Appends the lines of a process of a script of this version.
#[tactic(auto, using(crate::proofs::PrintLemmas::kept_front))]
fn put_proc(
    into: &mut Vec<u8>,
    version: Version,
    procs: &[Proc],
    proc: &Proc,
) -> Result<(), AllocError>
    ensures { IsPut into.old.items into.new.items (flat_map line_text (process_lines version (names_of procs.now) proc.now)) result }
{
    put_named(into, b"process", &proc.name)?;
    put_queue_data(into, version, proc.queue_data)?;
    put_placed(into, procs, proc.labels.as_slice(), proc.instrs.as_slice())?;
    Ok(())
}

/// Appends the lines of the processes of a script of this version.
fn put_procs(into: &mut Vec<u8>, version: Version, procs: &[Proc]) -> Result<(), AllocError>
    ensures { IsPut into.old.items into.new.items (flat_map line_text (procs_lines version procs.now)) result }
{
    for proc in procs {
        put_proc(into, version, procs, proc)?;
    }
    Ok(())
}

/// Appends the line of the turns.
fn put_turns(into: &mut Vec<u8>, turns: u32) -> Result<(), AllocError>
    ensures { IsPut into.old.items into.new.items (line_text (turns_line turns)) result }
{
    put(into, b"turns ")?;
    put_count(into, turns)?;
    put(into, b"\n")
}

/// Appends the first line.
fn put_header(into: &mut Vec<u8>, version: Version) -> Result<(), AllocError>
    ensures { IsPut into.old.items into.new.items (line_text (header_line version)) result }
{
    match version {
        Version::One => put(into, b"sigscript 1\n"),
        Version::Two => put(into, b"sigscript 2\n"),
    }
}

#[tactic(auto, using(crate::proofs::PrintLemmas::kept_front))]
fn put_script(
    into: &mut Vec<u8>,
    version: Version,
    turns: u32,
    procs: &[Proc],
) -> Result<(), AllocError>
    ensures { IsPut into.old.items into.new.items (script_text (record { version = version; turns = turns; procs = procs.now })) result }
{
    put_header(into, version)?;
    put_turns(into, turns)?;
    put_procs(into, version, procs)?;
    Ok(())
}

/// Appends the script's canonical text: one line for each fact, one space between the parts of a
/// line, and each label directly before the instruction at its place. It takes time in the length
/// of the text. Where memory is refused, `into` is as before. (The language of scripts is this
/// project's own.)
pub fn print_script(script: &Script, into: &mut Vec<u8>) -> Result<(), AllocError>
    ensures text { OnOk result (into.new.items ≡ into.old.items ++ script_text script.now) }
    ensures err { OnErr result (into.new.items ≡ into.old.items) }
{
    let before = into.len();
    let appended = put_script(into, script.version, script.turns, script.procs.as_slice());
    if appended.is_err() {
        into.truncate(before);
    }
    appended
}
