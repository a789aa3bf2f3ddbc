ghost use Rattle.std.specs.Prelude.{◌≡◌, IfOk, map, IsTrue, ◌↔◌};
ghost use Rattle.sig_program.specs.Scripts.{Program};
ghost use Rattle.sig_runs.specs.Crew.{crew_machine};
ghost use Rattle.sig_model.specs.Machine.{rules_of};
ghost use Rattle.sig_model.specs.CrewLaw.{IsLawfulCrew, whole_member};
ghost use Rattle.sig_model.specs.Keeping.{IsPlaced};
ghost use Rattle.sig_model.specs.OneWorker.{IsClear};
ghost use Rattle.sig_process.specs.Standing.{runnings_of};
ghost use Rattle.sig_record.specs.RecordOf.{record_of, sorted_record, AreInOrder, IsByPid};
ghost use Rattle.sig_record.specs.Records.{IsRecord};
ghost use Rattle.sig_record.specs.Merging.{IsMerged};
ghost use Rattle.sig_record.specs.RunRecord.{IsRecordOfRun};
ghost use Rattle.sig_record.specs.SettledRecord.{is_settled};

use crate::gathering::gather_all;
use crate::merging::{Merged, events_of, keys_of, sort_keys};
use crate::report::Report;
use crate::settling::are_settled;
use sig_lists::{Same, same_items};
use sig_process::Crew;
use std::alloc::{AllocError, Global};
use std::marker::Model;

/// The record of a run: a report for each process, by pid. The signals that a process has not
/// handled go to it, and stand by ascending sender and then number.
#[derive(Drop)]
pub struct Record {
    pub(crate) reports: Vec<Report>,
}

impl Model for Record {
    ghost use Rattle.std.specs.Coded.{codes};
    ghost use Rattle.std.specs.Prelude.{List};
    ghost use Rattle.sig_terms.specs.contracts.term.Term as term;
    ghost use Rattle.sig_record.specs.declared.report.Report.{Report};
    ghost use Rattle.sig_record.specs.Records.{IsRecord};

    ghost Value = { List Report };

    ghost coded = { Prim.hlevel (codes, term.the_row.coded) };

    ghost view = { λ r. r.reports.items };

    ghost invariant = { λ r. IsRecord r.reports.items };
}

impl Record {
    /// The reports, by pid.
    pub fn reports(&self) -> &[Report]
        ensures reports { result.now ≡ self.now }
        ensures kept { IsRecord self.now }
    {
        self.reports.as_slice()
    }

    /// The record of the run that this crew has made. The signals that a process has not handled are
    /// sorted by sender and then number; where the crew has all processes of its script, and those of
    /// each sender stood by ascending number, that only brings together those of one sender. Of a
    /// lawful crew it is the record of a run of the script's plain machine, in the order that `merge`
    /// lists; and where the names of the script's processes are name tokens, its text is read back as
    /// this record, as `a_lawful_crew_tells_a_readable_record` and `print_record` say. The error is
    /// want of memory.
    ///
    /// Asks that nothing is left of what a process of the crew has sent to others (its outbox is
    /// empty), and that the process at place p of the crew, from 0, has the pid p.
    pub fn gather(alloc: Global, crew: Crew) -> Result<Record, AllocError>
        requires clear { IsClear (runnings_of crew) }
        requires by_pid { IsByPid (runnings_of crew) }
        ensures sorted { IfOk result (λ r. r ≡ sorted_record (runnings_of crew)) }
        ensures in_order { IsPlaced (runnings_of crew) → AreInOrder (runnings_of crew) →
            IfOk result (λ r. r ≡ record_of (runnings_of crew)) }
        ensures lawful { (script : Program) → IsLawfulCrew script (runnings_of crew) → IfOk result (λ r. r ≡ record_of (runnings_of crew)) }
        ensures run { (script : Program) → IsLawfulCrew script (runnings_of crew) →
            IfOk result (IsRecordOfRun script (crew_machine (rules_of script) (map whole_member (runnings_of crew)))) }
    {
        Record::gathered(alloc, crew, false)
    }

    /// The same for a program that is about to end: the processes' labels and instructions stay as they lie in memory,
    /// and that memory isn't given back. To give back a long script line by line takes nearly as long as to make it.
    ///
    /// Asks what [`Record::gather`] asks.
    pub fn gather_at_end(alloc: Global, crew: Crew) -> Result<Record, AllocError>
        requires clear { IsClear (runnings_of crew) }
        requires by_pid { IsByPid (runnings_of crew) }
        ensures sorted { IfOk result (λ r. r ≡ sorted_record (runnings_of crew)) }
        ensures in_order { IsPlaced (runnings_of crew) → AreInOrder (runnings_of crew) →
            IfOk result (λ r. r ≡ record_of (runnings_of crew)) }
        ensures lawful { (script : Program) → IsLawfulCrew script (runnings_of crew) → IfOk result (λ r. r ≡ record_of (runnings_of crew)) }
        ensures run { (script : Program) → IsLawfulCrew script (runnings_of crew) →
            IfOk result (IsRecordOfRun script (crew_machine (rules_of script) (map whole_member (runnings_of crew)))) }
    {
        Record::gathered(alloc, crew, true)
    }

    /// As [`Record::gather`]; where the program is about to end as [`Record::gather_at_end`].
    fn gathered(alloc: Global, crew: Crew, ends: bool) -> Result<Record, AllocError>
        requires clear { IsClear (runnings_of crew) }
        requires by_pid { IsByPid (runnings_of crew) }
        ensures sorted { IfOk result (λ r. r ≡ sorted_record (runnings_of crew)) }
        ensures in_order { IsPlaced (runnings_of crew) → AreInOrder (runnings_of crew) →
            IfOk result (λ r. r ≡ record_of (runnings_of crew)) }
        ensures lawful { (script : Program) → IsLawfulCrew script (runnings_of crew) → IfOk result (λ r. r ≡ record_of (runnings_of crew)) }
        ensures run { (script : Program) → IsLawfulCrew script (runnings_of crew) →
            IfOk result (IsRecordOfRun script (crew_machine (rules_of script) (map whole_member (runnings_of crew)))) }
    {
        let reports = gather_all(alloc, crew.procs, ends)?;
        Ok(Record { reports })
    }

    /// Every event of the record once, by rising stamp, then pid, then place. The error is want of
    /// memory.
    pub fn merge(&self, alloc: Global) -> Result<Merged, AllocError>
        ensures { IfOk result (IsMerged self.now) }
    {
        let mut keys = keys_of(alloc, self.reports.as_slice())?;
        sort_keys(&mut keys);
        events_of(alloc, keys.as_slice())
    }

    /// Whether each process that isn't cut, and whose last event, if it has one, has a stamp below
    /// 2^62, has no signal to handle, or has one whose stamp is at least 2^62, which is never
    /// handled. It takes no memory.
    pub fn settled(&self) -> bool
        ensures { result ≡ is_settled self.now }
    {
        are_settled(self.reports.as_slice())
    }
}

impl Same for Record {
    fn same(&self, other: &Record) -> bool
        ensures { IsTrue result ↔ (self.now ≡ other.now) }
    {
        same_items(self.reports(), other.reports())
    }
}
