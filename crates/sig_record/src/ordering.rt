ghost use Rattle.std.specs.Prelude.{ℕ, ◌≡◌, List, map, slice_get};
ghost use Rattle.sig_kinds.specs.declared.signal.Signal.{Signal};
ghost use Rattle.sig_program.specs.Scripts.{Program};
ghost use Rattle.sig_runs.specs.Crew.{Member, acts_of};
ghost use Rattle.sig_runs.specs.Order.{IsOrder};
ghost use Rattle.sig_model.specs.declared.event.Event.{Event};
ghost use Rattle.sig_model.specs.ProcessState.{ProcessState};
ghost use Rattle.sig_model.specs.Machine.{rules_of};
ghost use Rattle.sig_model.specs.Running.{Running};
ghost use Rattle.sig_model.specs.SettledRun.{events_of};
ghost use Rattle.sig_record.specs.declared.report.Report.{Report};
ghost use Rattle.sig_record.specs.declared.merging.MergedAt.{MergedAt};
ghost use Rattle.sig_record.specs.RecordOf.{record_of};
ghost use Rattle.sig_record.specs.Merging.{IsMerged, events_in, place_of};

/// The merged events of a record are the order of the events of each crew that the record tells of:
/// one whose processes did acts with these events.
pub fn merged_record_is_the_order()
    ensures reports { (script : Program) (reports : List Report)
        (members : List (Member ProcessState Signal Event)) (order : List MergedAt) →
        ((p : ℕ) → map (λ a. a.effect.event) (acts_of (slice_get members p)) ≡ events_in (slice_get reports p)) →
        IsMerged reports order → IsOrder (rules_of script) members (map place_of order) }
    ensures crew { (script : Program) (crew : List Running)
        (members : List (Member ProcessState Signal Event)) (order : List MergedAt) →
        ((p : ℕ) → map (λ a. a.effect.event) (acts_of (slice_get members p)) ≡ events_of (slice_get crew p)) →
        IsMerged (record_of crew) order → IsOrder (rules_of script) members (map place_of order) }
{}
