//! The record of a crew that has come to rest, and the summary of a record.

ghost use Rattle.std.specs.Prelude.{◌≡◌, IfOk};
ghost use Rattle.sig_program.specs.Scripts.{Program};
ghost use Rattle.sig_program.specs.ScriptNames.{AreNames};
ghost use Rattle.sig_record.specs.RecordOf.{record_of};
ghost use Rattle.sig_record.specs.RunRecord.{IsOfSettledRun};
ghost use Rattle.sig_record.specs.SizedRecord.{IsSizedRecord};
ghost use Rattle.sig_model.specs.OneWorker.{IsClear};
ghost use Rattle.sig_model.specs.CrewLaw.{IsLawfulCrew};
ghost use Rattle.sig_process.specs.Standing.{runnings_of};
ghost use Rattle.sig_workers.specs.Rounds.{HasSettled};
ghost use Rattle.sig_host.specs.Answers.{summary_for};
ghost use Rattle.sig_host.specs.Told.{text_in};

use crate::summing::summary_text;
use sig_process::Crew;
use sig_record::{
    Record, a_lawful_crew_tells_a_readable_record, a_lawful_crew_tells_a_run, summarize,
};
use std::alloc::{AllocError, Global};

/// The record of a crew that has come to rest.
pub(crate) fn record_of(alloc: Global, crew: Crew) -> Result<Record, AllocError>
    requires lawful { (script : Program) × IsLawfulCrew script (runnings_of crew) }
    requires clear { IsClear (runnings_of crew) }
    ensures record { (script : Program) → IsLawfulCrew script (runnings_of crew) → IfOk result (λ r. r ≡ record_of (runnings_of crew)) }
    ensures run { (script : Program) → IsLawfulCrew script (runnings_of crew) → HasSettled script (runnings_of crew) →
        IfOk result (IsOfSettledRun script) }
    ensures sized { (script : Program) → IsLawfulCrew script (runnings_of crew) → AreNames script → IfOk result IsSizedRecord }
{
    a_lawful_crew_tells_a_run();
    a_lawful_crew_tells_a_readable_record();
    let given = Record::gather_at_end(alloc, crew)?;
    Ok(given)
}

/// The text of the record's summary, where one is asked for.
pub(crate) fn summary_of(
    alloc: Global,
    given: &Record,
    asked: bool,
) -> Result<Option<Vec<u8>>, AllocError>
    ensures { IfOk result (λ summary. text_in summary ≡ summary_for asked given.now) }
{
    if !asked {
        return Ok(None);
    }
    summary_text(alloc, &summarize(given)).map(Some)
}
