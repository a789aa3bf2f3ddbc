ghost use Rattle.std.specs.Prelude.{◌≡◌, ◌+◌, ◌≤◌, ◌⊎◌, ℕ, List, map, string_bytes, IfOk, OnOk, Option};
ghost use Rattle.sig_base.specs.Flow.{Rose, Adds, IsNotPassed};
ghost use Rattle.sig_edge.specs.Streams.{IsReadWithin, reading, writing};
ghost use Rattle.sig_edge.specs.Told.{AddsBeginning, FailedOnceAtMost};
ghost use Rattle.sig_program.specs.Scripts.{Program, IsScriptWithin};
ghost use Rattle.sig_program.specs.ScriptNames.{AreNames};
ghost use Rattle.sig_model.specs.OneWorker.{IsClear};
ghost use Rattle.sig_model.specs.CrewLaw.{IsLawfulCrew};
ghost use Rattle.sig_process.specs.Standing.{runnings_of};
ghost use Rattle.sig_workers.specs.Rounds.{HasSettled};
ghost use Rattle.sig_record.specs.RunRecord.{IsOfSettledRun};
ghost use Rattle.sig_record.specs.RecordText.{record_text};
ghost use Rattle.sig_record.specs.ReadableRecord.{CanBeReread};
ghost use Rattle.sig_record.specs.SizedRecord.{IsSizedRecord};
ghost use Rattle.sig_host.specs.Answers.{AreTexts, IsAnswer, IsRun, IsWellGiven, summary_for};
ghost use Rattle.sig_host.specs.Told.{told_text, text_in};
ghost use Rattle.sig_host.specs.Words.{IsInRange};

use crate::alone::end_alone;
use crate::ending::Ending;
use crate::gathering::{record_of, summary_of};
use crate::printing::print_apart;
use crate::scripts::script_for;
use crate::settings::Settings;
use crate::status::Status;
use crate::telling::tell;
use crate::texts::Texts;
use crate::writing::write_run;
use sig_base::{Gate, Sink, Source};
use sig_process::Crew;
use sig_program::{MOST_PROCESSES, Script};
use sig_record::Record;
use sig_script::MOST_BYTES;
use sig_workers::run_rounds;
use std::alloc::{AllocError, Global};
use std::mem;
use std::sync::Wait;
use std::thread::Threads;

/// Runs the crew of a script until it has come to rest, by rounds of the workers of the settings, under their
/// quota and policy.
fn run_crew<R: Threads + Wait + Sync, G: Gate>(
    rt: &R,
    alloc: Global,
    settings: Settings,
    crew: Crew,
    gate: &G,
) -> Result<Crew, AllocError>
    requires range { IsInRange settings }
    requires lawful { (script : Program) × IsScriptWithin script × IsLawfulCrew script (runnings_of crew) }
    requires clear { IsClear (runnings_of crew) }
    ensures lawful { (script : Program) → IsLawfulCrew script (runnings_of crew) → IfOk result (λ c. IsLawfulCrew script (runnings_of c)) }
    ensures clear { IfOk result (λ c. IsClear (runnings_of c)) }
    ensures settled { (script : Program) → IsLawfulCrew script (runnings_of crew) → IfOk result (λ c. HasSettled script (runnings_of c)) }
{
    let Settings {
        workers,
        quota,
        policy,
        generate: _,
    } = settings;
    let (last, _) = run_rounds(rt, alloc, crew, workers, quota, policy, gate)?;
    Ok(last)
}

/// The record of a run of the script by the workers of the settings, which are several.
fn record_by_several<R: Threads + Wait + Sync, G: Gate>(
    rt: &R,
    alloc: Global,
    settings: Settings,
    script: Script,
    gate: &G,
) -> Result<Record, AllocError>
    requires range { IsInRange settings }
    requires names { AreNames script }
    ensures run { IfOk result (IsOfSettledRun script) }
    ensures sized { IfOk result IsSizedRecord }
{
    prove!(script.count() as usize <= MOST_PROCESSES);
    let crew = Crew::start(alloc, script)?;
    let crew = run_crew(rt, alloc, settings, crew, gate)?;
    record_of(alloc, crew)
}

/// The texts of the record, made by so many threads, and of its summary where one is asked for.
fn texts_of<R: Threads + Sync>(
    rt: &R,
    alloc: Global,
    given: &Record,
    asked: bool,
    threads: u32,
) -> Result<Texts, AllocError>
    ensures record { IfOk result (λ texts. texts.record.items ≡ record_text given.now) }
    ensures summary { IfOk result (λ texts. text_in texts.summary ≡ summary_for asked given.now) }
    ensures readable { OnOk result (CanBeReread given.now) }
{
    let summary = summary_of(alloc, given, asked)?;
    let record = print_apart(rt, alloc, given, threads)?;
    Ok(Texts { record, summary })
}

/// Runs the script with several workers. The texts of its record, and of the summary where one is asked for.
/// The record itself is left as it lies in memory, which isn't given back: that would take more than a tenth
/// of a run, where several workers have made it.
fn texts_by_several<R: Threads + Wait + Sync, G: Gate>(
    rt: &R,
    alloc: Global,
    settings: Settings,
    script: Script,
    asked: bool,
    gate: &G,
) -> Result<Texts, AllocError>
    requires range { IsInRange settings }
    requires several { 2 ≤ settings.workers }
    requires names { AreNames script }
    ensures { IfOk result (AreTexts settings.workers script asked) }
{
    let given = record_by_several(rt, alloc, settings, script, gate)?;
    let texts = texts_of(rt, alloc, &given, asked, settings.workers);
    mem::forget(given);
    texts
}

/// Runs what the settings ask for with their several workers, and writes the record.
fn run_several<R: Threads + Wait + Sync, S: Source, O: Sink, G: Gate>(
    rt: &R,
    alloc: Global,
    settings: Settings,
    script: &mut S,
    out: &mut O,
    gate: &G,
) -> Ending
    requires range { IsInRange settings }
    requires several { 2 ≤ settings.workers }
    ensures run { IsRun settings.workers settings.generate
        (reading (S.left script.old) (S.left script.new) (S.faults script.old) (S.faults script.new))
        (writing (O.held out.old) (O.held out.new) (O.faults out.old) (O.faults out.new))
        result.status (text_in result.summary) }
    ensures taken { IsReadWithin (MOST_BYTES + 1)
        (reading (S.left script.old) (S.left script.new) (S.faults script.old) (S.faults script.new)) }
    ensures behind { IsNotPassed (S.end script.old) (S.end script.new) }
{
    let asked = settings.generate.is_some();
    match script_for(alloc, settings.generate, script) {
        Ok(script) => write_run(
            texts_by_several(rt, alloc, settings, script, asked, gate),
            out,
        ),
        Err(status) => Ending::short(status),
    }
}

/// Reads the arguments, runs what they ask for, and writes the record: without threads, but where they ask for
/// several workers.
fn run_words<R: Threads + Wait + Sync, S: Source, O: Sink, G: Gate>(
    rt: &R,
    alloc: Global,
    arguments: &[String],
    script: &mut S,
    out: &mut O,
    gate: &G,
) -> Ending
    ensures answer { IsAnswer (map string_bytes arguments.now)
        (reading (S.left script.old) (S.left script.new) (S.faults script.old) (S.faults script.new))
        (writing (O.held out.old) (O.held out.new) (O.faults out.old) (O.faults out.new))
        result.status (text_in result.summary) }
    ensures taken { IsReadWithin (MOST_BYTES + 1)
        (reading (S.left script.old) (S.left script.new) (S.faults script.old) (S.faults script.new)) }
    ensures behind { IsNotPassed (S.end script.old) (S.end script.new) }
{
    match end_alone(alloc, arguments, script, out) {
        Ok(ending) => ending,
        Err(settings) => run_several(rt, alloc, settings, script, out, gate),
    }
}

/// Reads the arguments; makes the script, with `--generate`, or else reads it to its end; runs it
/// with as many workers as they ask for; and writes the text of the record to `out`. What the record
/// tells is a settled run of the script's machine, however many workers there are and whatever the
/// policy of buffers; with one worker it is the one-worker run, of which a script has one. With
/// `--generate` the source isn't read. It begins as [`run_alone`](crate::run_alone) does, and tells the gate and
/// starts threads only where that answers `None`. How many workers there are, what the gate is told and which
/// threads are started, no clause says.
///
/// - `Done`: `out` has taken the whole text. No read and no write to `out` failed, and without `--generate` the source
///   has nothing left.
/// - `BadScript`: only without `--generate`, where the bytes spell no script; with the first line
///   that is refused and why, or line 0 where they are more than [`MOST_BYTES`]. No read failed,
///   and the source has nothing left, but where they are more. Nothing was written to `out`.
/// - `Usage`: exactly where [`words`] answers it, and so never on arguments in the plain form. The
///   source wasn't read, and nothing was written to `out`.
/// - `ReadFault`: only without `--generate`, where a read failed, and no second one. Nothing was written to `out`.
/// - `WriteFault`: only where a write to `out` failed, and no second one. It has taken the beginning of the
///   text. No read failed, and without `--generate` the source has nothing left.
/// - `Memory`: memory was wanting. No read failed, and nothing was written to `out`.
///
/// What a status tells is written to `err` where no write to it fails, and else its beginning: with `Done`
/// the summary of the record, if the script was made. A fault of `err` changes no status, and there is one
/// at most. Whatever the status, of the source at most [`MOST_BYTES`] bytes and one more are taken, and it isn't
/// read behind its end or behind a failed read, if it wasn't before.
/// Arguments in the plain form with a script, and no fault of the source and of `out`, give `Done` or
/// `Memory`, if the call returns. No clause says that it does, since it may wait for threads: who asks for one
/// worker and needs a proof of that calls `run_alone`.
pub fn run<R: Threads + Wait + Sync, S: Source, O: Sink, E: Sink, G: Gate>(
    rt: &R,
    alloc: Global,
    arguments: &[String],
    script: &mut S,
    out: &mut O,
    err: &mut E,
    gate: &G,
) -> Status
    ensures answer { (summary : Option (List ℕ)) × IsAnswer (map string_bytes arguments.now)
        (reading (S.left script.old) (S.left script.new) (S.faults script.old) (S.faults script.new))
        (writing (O.held out.old) (O.held out.new) (O.faults out.old) (O.faults out.new))
        result summary
        × ((Rose (E.faults err.old) (E.faults err.new) → ⊥) → Adds (E.held err.old) (E.held err.new) (told_text result summary))
        × AddsBeginning (E.held err.old) (E.held err.new) (told_text result summary) }
    ensures once { FailedOnceAtMost (writing (E.held err.old) (E.held err.new) (E.faults err.old) (E.faults err.new)) }
    ensures complete { IsWellGiven (map string_bytes arguments.now)
        (reading (S.left script.old) (S.left script.new) (S.faults script.old) (S.faults script.new))
        (writing (O.held out.old) (O.held out.new) (O.faults out.old) (O.faults out.new))
        → (result ≡ Status.Done) ⊎ (result ≡ Status.Memory) }
    ensures taken { IsReadWithin (MOST_BYTES + 1)
        (reading (S.left script.old) (S.left script.new) (S.faults script.old) (S.faults script.new)) }
    ensures behind { IsNotPassed (S.end script.old) (S.end script.new) }
{
    let ending = run_words(rt, alloc, arguments, script, out, gate);
    tell(err, &ending);
    ending.status
}
