ghost use Rattle.std.specs.Prelude.{◌≡◌, List, Some, map, true};
ghost use Rattle.sig_program.specs.Scripts.{Program};
ghost use Rattle.sig_program.specs.ScriptNames.{AreNames};
ghost use Rattle.sig_runs.specs.Machine.{IsRun};
ghost use Rattle.sig_runs.specs.Crew.{opening_machine, crew_machine};
ghost use Rattle.sig_runs.specs.Settled.{IsSettled};
ghost use Rattle.sig_model.specs.Machine.{rules_of, opening_of};
ghost use Rattle.sig_model.specs.Running.{Running};
ghost use Rattle.sig_model.specs.OneWorker.{IsClear};
ghost use Rattle.sig_model.specs.CrewLaw.{IsLawfulCrew, whole_member};
ghost use Rattle.sig_model.specs.Still.{IsStillCrew};
ghost use Rattle.sig_record.specs.declared.merging.MergedAt.{MergedAt};
ghost use Rattle.sig_record.specs.RecordOf.{record_of};
ghost use Rattle.sig_record.specs.Merging.{IsMerged};
ghost use Rattle.sig_record.specs.SettledRecord.{is_settled};
ghost use Rattle.sig_record.specs.RunRecord.{events_listed, whole_rules, IsRecordOfRun};
ghost use Rattle.sig_record.specs.RecordText.{record_text};
ghost use Rattle.sig_record.specs.RecordFronts.{record_in};
ghost use Rattle.sig_record.specs.ReadableRecord.{IsReadableRecord};
ghost use Rattle.sig_record.specs.SizedRecord.{IsSizedRecord};
ghost use Rattle.sig_record.specs.StoredRecord.{IsStoredRecord};

/// The record of a lawful crew with empty outboxes is the record of a run of the script's plain
/// machine, in which a receive looks at all messages. Each list that `merge` may give of it is such
/// a run, event by event, and it leads to the crew's states and queued signals. Where the crew has
/// come to rest, so has the machine; where no process of it can do anything, `settled` of the record is
/// true. (Erlang Reference Manual, Processes, Delivery of Signals;
/// Expressions, Receive.)
pub fn a_lawful_crew_tells_a_run()
    ensures merged { (script : Program) (crew : List Running) (order : List MergedAt) → IsLawfulCrew script crew →
        IsClear crew → IsMerged (record_of crew) order →
        IsRun (whole_rules script) (opening_machine (opening_of script)) (events_listed (record_of crew) order)
        (crew_machine (rules_of script) (map whole_member crew)) }
    ensures record { (script : Program) (crew : List Running) → IsLawfulCrew script crew → IsClear crew →
        IsRecordOfRun script (crew_machine (rules_of script) (map whole_member crew)) (record_of crew) }
    ensures settled { (script : Program) (crew : List Running) → IsLawfulCrew script crew → IsClear crew →
        IsSettled (rules_of script) (crew_machine (rules_of script) (map whole_member crew)) →
        IsSettled (whole_rules script) (crew_machine (rules_of script) (map whole_member crew)) }
    ensures still { (script : Program) (crew : List Running) → IsLawfulCrew script crew → IsStillCrew crew →
        is_settled (record_of crew) ≡ true }
{}

/// The record of a lawful crew with empty outboxes, of a script whose processes' names are name
/// tokens, has such names, and its terms are no larger than what is read. So where it lies in memory,
/// as each record that `gather` gave does, its text is read back as this record. (The bounds are this
/// project's own.)
pub fn a_lawful_crew_tells_a_readable_record()
    ensures sized { (script : Program) (crew : List Running) → IsLawfulCrew script crew → IsClear crew → AreNames script →
        IsSizedRecord (record_of crew) }
    ensures readable { (script : Program) (crew : List Running) → IsLawfulCrew script crew → IsClear crew → AreNames script →
        IsStoredRecord (record_of crew) → IsReadableRecord (record_of crew) }
    ensures again { (script : Program) (crew : List Running) → IsLawfulCrew script crew → IsClear crew → AreNames script →
        IsStoredRecord (record_of crew) → record_in (record_text (record_of crew)) ≡ Some (record_of crew) }
{}
