//! What lists of outcomes and charts keep. Nothing here runs: each contract is what was proved, and the bodies
//! are empty.

ghost use Rattle.std.specs.Prelude.{◌≡◌, ℕ, All, Bool, List, Some, true};
ghost use Rattle.sig_kinds.specs.declared.signal.Signal.{Signal};
ghost use Rattle.sig_program.specs.Scripts.{Program, IsWithin, IsScriptWithin};
ghost use Rattle.sig_runs.specs.Machine.{Machine};
ghost use Rattle.sig_model.specs.ProcessState.{ProcessState};
ghost use Rattle.sig_choices.specs.Origins.{origins_of};
ghost use Rattle.sig_record.specs.declared.report.Report.{Report};
ghost use Rattle.sig_record.specs.declared.merging.MergedAt.{MergedAt};
ghost use Rattle.sig_record.specs.RunRecord.{events_listed, IsRecordOfRun};
ghost use Rattle.sig_chart.specs.declared.window.Window.{Window as Stamps};
ghost use Rattle.sig_chart.specs.Drawn.{AreShown};
ghost use Rattle.sig_view.specs.Charts.{IsDrawnFromSender};
ghost use Rattle.sig_outcomes.specs.Outcomes.{Rest};
ghost use Rattle.sig_outcomelaw.specs.Told.{outcome_told};
ghost use Rattle.sig_view.specs.Outcomes.{AreListed, IsOutcomeRecord, IsOutcomesText, numbered};
ghost use Rattle.sig_view.specs.OutcomeText.{names_of, outcomes_text};
ghost use Rattle.sig_view.specs.declared.status.ViewStatus.TheVariants.{Done};

/// Of a script there is one list of all its outcomes (`list`), and so one text with which `outcomes` ends as done
/// (`text`): however a search goes, and however many states it may visit. A record that `--record K` ends with as
/// done ends in outcome K of that list (`told`). (What an outcome is, is this project's own.)
pub fn a_whole_list_is_told_by_the_script()
    ensures list { (script : Program) (most other : ℕ) (outcomes listed : List (List Rest)) (states met : ℕ) →
        AreListed script most outcomes states true → AreListed script other listed met true → outcomes ≡ listed }
    ensures text { (script : Program) (most other : ℕ) (text written : List ℕ) →
        IsOutcomesText script most text Done → IsOutcomesText script other written Done → text ≡ written }
    ensures told { (script : Program) (most other number : ℕ) (text written : List ℕ) →
        (list : IsOutcomesText script most text Done) → (told : IsOutcomeRecord script other number written Done) →
        numbered number list.outcomes ≡ Some (outcome_told told.reports) }
{}

/// The text of a list of outcomes tells the list: two lists of outcomes of a script, each with `all` or with
/// `more`, that have the same text have the same outcomes and the same of the two words.
pub fn a_list_is_told_by_its_text()
    ensures { (script : Program) (most other : ℕ) (outcomes listed : List (List Rest)) (states met : ℕ)
        (all whole : Bool) → AreListed script most outcomes states all → AreListed script other listed met whole →
        outcomes_text (names_of script) outcomes all ≡ outcomes_text (names_of script) listed whole →
        (outcomes ≡ listed) × (all ≡ whole) }
{}

/// In a chart of the record of a run each queued signal is drawn from the event that sent it, wherever that
/// event is shown: that the signal's own stamp is looked at first leaves none out.
pub fn queued_signals_of_a_run_are_drawn()
    ensures { (script : Program) (machine : Machine ProcessState Signal) (reports : List Report) (w : Stamps) (shown : List MergedAt) →
        IsScriptWithin script → All IsWithin script.procs → (run : IsRecordOfRun script machine reports) → AreShown reports w shown →
        All (λ r. All (IsDrawnFromSender reports (origins_of script (events_listed reports run.order)) w shown) r.queued) reports }
{}
