//! The top call where one worker runs the script: it needs no threads, and returns.

ghost use Rattle.std.specs.Prelude.{◌≡◌, ◌+◌, ◌≤◌, ◌⊎◌, ℕ, List, map, string_bytes, IfErr, IfNone, IfOk, IfSome, OnOk, Option};
ghost use Rattle.sig_base.specs.Flow.{Rose, Adds, IsNotPassed};
ghost use Rattle.sig_edge.specs.Streams.{IsReadWithin, IsUnread, IsUnwritten, reading, writing};
ghost use Rattle.sig_edge.specs.Told.{AddsBeginning, FailedOnceAtMost};
ghost use Rattle.sig_program.specs.Scripts.{Program};
ghost use Rattle.sig_program.specs.ScriptNames.{AreNames};
ghost use Rattle.sig_model.specs.OneWorker.{IsClear, RunsTo};
ghost use Rattle.sig_model.specs.CrewLaw.{IsLawfulCrew};
ghost use Rattle.sig_process.specs.Standing.{runnings_of};
ghost use Rattle.sig_workers.specs.Rounds.{HasSettled};
ghost use Rattle.sig_record.specs.RunRecord.{IsOfSettledRun};
ghost use Rattle.sig_record.specs.RecordText.{record_text};
ghost use Rattle.sig_record.specs.ReadableRecord.{CanBeReread};
ghost use Rattle.sig_record.specs.SizedRecord.{IsSizedRecord};
ghost use Rattle.sig_host.specs.Alone.{AskForSeveral, IsOfOne};
ghost use Rattle.sig_host.specs.Answers.{AreTexts, IsAnswer, IsRecordAlone, IsRun, IsWellGiven, summary_for};
ghost use Rattle.sig_host.specs.Told.{told_text, text_in};
ghost use Rattle.sig_host.specs.Words.{AreSettings, IsInRange};

use crate::command_line::words;
use crate::ending::Ending;
use crate::gathering::{record_of, summary_of};
use crate::printing::print_alone;
use crate::scripts::script_for;
use crate::settings::Settings;
use crate::status::Status;
use crate::telling::tell;
use crate::texts::Texts;
use crate::words_error::WordsError;
use crate::writing::write_run;
use sig_base::{Sink, Source};
use sig_model::lawful_crew_comes_to_rest;
use sig_process::Crew;
use sig_program::Script;
use sig_record::Record;
use sig_script::MOST_BYTES;
use sig_workers::run_one;
use std::alloc::{AllocError, Global};
use std::mem;

/// Runs the crew of a script until it has come to rest, by passes over its processes.
fn run_crew(crew: Crew) -> Result<Crew, AllocError>
    requires lawful { (script : Program) × IsLawfulCrew script (runnings_of crew) }
    requires clear { IsClear (runnings_of crew) }
    ensures lawful { (script : Program) → IsLawfulCrew script (runnings_of crew) → IfOk result (λ c. IsLawfulCrew script (runnings_of c)) }
    ensures clear { IfOk result (λ c. IsClear (runnings_of c)) }
    ensures settled { (script : Program) → IsLawfulCrew script (runnings_of crew) → IfOk result (λ c. HasSettled script (runnings_of c)) }
    ensures run { IfOk result (λ c. RunsTo (runnings_of crew) (runnings_of c)) }
{
    lawful_crew_comes_to_rest();
    run_one(crew)
}

/// The record of the one-worker run of the script.
fn record_alone(alloc: Global, script: Script) -> Result<Record, AllocError>
    requires names { AreNames script }
    ensures run { IfOk result (IsOfSettledRun script) }
    ensures alone { IfOk result (IsRecordAlone script) }
    ensures sized { IfOk result IsSizedRecord }
{
    let crew = Crew::start(alloc, script)?;
    let crew = run_crew(crew)?;
    record_of(alloc, crew)
}

/// The texts of the record, and of its summary where one is asked for.
fn texts_of(alloc: Global, given: &Record, asked: bool) -> Result<Texts, AllocError>
    ensures record { IfOk result (λ texts. texts.record.items ≡ record_text given.now) }
    ensures summary { IfOk result (λ texts. text_in texts.summary ≡ summary_for asked given.now) }
    ensures readable { OnOk result (CanBeReread given.now) }
{
    let summary = summary_of(alloc, given, asked)?;
    let record = print_alone(alloc, given)?;
    Ok(Texts { record, summary })
}

/// Runs the script with one worker. The texts of its record, and of the summary where one is asked for. The
/// record itself is left as it lies in memory, which isn't given back: that would take a tenth of a run.
fn texts_alone(alloc: Global, script: Script, asked: bool) -> Result<Texts, AllocError>
    requires names { AreNames script }
    ensures { IfOk result (AreTexts 1 script asked) }
{
    let given = record_alone(alloc, script)?;
    let texts = texts_of(alloc, &given, asked);
    mem::forget(given);
    texts
}

/// Runs what the settings ask for with one worker, and writes the record.
fn run_settings<S: Source, O: Sink>(
    alloc: Global,
    settings: Settings,
    script: &mut S,
    out: &mut O,
) -> Ending
    requires { IsInRange settings }
    ensures run { IsRun 1 settings.generate
        (reading (S.left script.old) (S.left script.new) (S.faults script.old) (S.faults script.new))
        (writing (O.held out.old) (O.held out.new) (O.faults out.old) (O.faults out.new))
        result.status (text_in result.summary) }
    ensures taken { IsReadWithin (MOST_BYTES + 1)
        (reading (S.left script.old) (S.left script.new) (S.faults script.old) (S.faults script.new)) }
    ensures behind { IsNotPassed (S.end script.old) (S.end script.new) }
{
    match script_for(alloc, settings.generate, script) {
        Ok(script) => write_run(texts_alone(alloc, script, settings.generate.is_some()), out),
        Err(status) => Ending::short(status),
    }
}

/// Reads the arguments, and where they don't ask for several workers, runs what they ask for with one, and
/// writes the record. The error is the settings, where they ask for several.
#[tactic(auto, using(sig_edge::proofs::TakenLemmas::none_taken))]
pub(crate) fn end_alone<S: Source, O: Sink>(
    alloc: Global,
    arguments: &[String],
    script: &mut S,
    out: &mut O,
) -> Result<Ending, Settings>
    ensures answer { IfOk result (λ ending. IsAnswer (map string_bytes arguments.now)
        (reading (S.left script.old) (S.left script.new) (S.faults script.old) (S.faults script.new))
        (writing (O.held out.old) (O.held out.new) (O.faults out.old) (O.faults out.new))
        ending.status (text_in ending.summary)) }
    ensures one { IfOk result (λ ending. IsOfOne (map string_bytes arguments.now)
        (reading (S.left script.old) (S.left script.new) (S.faults script.old) (S.faults script.new)) ending.status) }
    ensures settings { IfErr result (λ settings. AreSettings (map string_bytes arguments.now) settings × IsInRange settings × (2 ≤ settings.workers)) }
    ensures same { IfErr result (λ _. script.new ≡ script.old) }
    ensures unread { IfErr result (λ _. IsUnread (reading (S.left script.old) (S.left script.new) (S.faults script.old) (S.faults script.new))) }
    ensures unwritten { IfErr result (λ _. IsUnwritten (writing (O.held out.old) (O.held out.new) (O.faults out.old) (O.faults out.new))) }
    ensures taken { IsReadWithin (MOST_BYTES + 1)
        (reading (S.left script.old) (S.left script.new) (S.faults script.old) (S.faults script.new)) }
    ensures behind { IsNotPassed (S.end script.old) (S.end script.new) }
{
    match words(alloc, arguments) {
        Ok(settings) => {
            let several = settings.workers > 1;
            if several {
                return Err(settings);
            }
            Ok(run_settings(alloc, settings, script, out))
        }
        Err(WordsError::Usage) => Ok(Ending::short(Status::Usage)),
        Err(WordsError::Memory) => Ok(Ending::short(Status::Memory)),
    }
}

/// Does what [`run`](crate::run) does, where that needs one worker at most. It takes no threads and waits for
/// nobody, so it is proved to return, if its source and its sinks do.
///
/// It answers `None` exactly where the arguments have settings, by [`words`], that ask for two workers or more,
/// but where memory was wanting to read them. Then the source is what it was, and nothing was written to `out` or to `err`.
/// Else it answers a status, of which all holds that `run` says of it: each comes for the same cause, and leaves
/// the source, `out` and `err` so. Settings of the arguments then ask for one worker, or the status is `Memory`
/// and the source wasn't read. So with `Done` the record is that of the one-worker run.
///
/// Arguments in the plain form with a script, and no fault of the source and of `out`, give `Done`, `Memory` or
/// `None`.
pub fn run_alone<S: Source, O: Sink, E: Sink>(
    alloc: Global,
    arguments: &[String],
    script: &mut S,
    out: &mut O,
    err: &mut E,
) -> Option<Status>
    ensures answer { IfSome result (λ status. (summary : Option (List ℕ)) × IsAnswer (map string_bytes arguments.now)
        (reading (S.left script.old) (S.left script.new) (S.faults script.old) (S.faults script.new))
        (writing (O.held out.old) (O.held out.new) (O.faults out.old) (O.faults out.new))
        status summary
        × ((Rose (E.faults err.old) (E.faults err.new) → ⊥) → Adds (E.held err.old) (E.held err.new) (told_text status summary))
        × AddsBeginning (E.held err.old) (E.held err.new) (told_text status summary)) }
    ensures one { IfSome result (λ status. IsOfOne (map string_bytes arguments.now)
        (reading (S.left script.old) (S.left script.new) (S.faults script.old) (S.faults script.new)) status) }
    ensures several { IfNone result (AskForSeveral (map string_bytes arguments.now)) }
    ensures same { IfNone result (script.new ≡ script.old) }
    ensures unread { IfNone result (IsUnread (reading (S.left script.old) (S.left script.new) (S.faults script.old) (S.faults script.new))) }
    ensures unwritten { IfNone result (IsUnwritten (writing (O.held out.old) (O.held out.new) (O.faults out.old) (O.faults out.new))) }
    ensures untold { IfNone result (IsUnwritten (writing (E.held err.old) (E.held err.new) (E.faults err.old) (E.faults err.new))) }
    ensures once { FailedOnceAtMost (writing (E.held err.old) (E.held err.new) (E.faults err.old) (E.faults err.new)) }
    ensures complete { IfSome result (λ status. IsWellGiven (map string_bytes arguments.now)
        (reading (S.left script.old) (S.left script.new) (S.faults script.old) (S.faults script.new))
        (writing (O.held out.old) (O.held out.new) (O.faults out.old) (O.faults out.new))
        → (status ≡ Status.Done) ⊎ (status ≡ Status.Memory)) }
    ensures taken { IsReadWithin (MOST_BYTES + 1)
        (reading (S.left script.old) (S.left script.new) (S.faults script.old) (S.faults script.new)) }
    ensures behind { IsNotPassed (S.end script.old) (S.end script.new) }
{
    match end_alone(alloc, arguments, script, out) {
        Ok(ending) => {
            tell(err, &ending);
            Some(ending.status)
        }
        Err(_) => None,
    }
}
