//! The law in every run, and in a crew that has come to rest. Nothing here runs: the contracts are
//! what was proved, and the bodies are empty.

ghost use Rattle.std.specs.Prelude.{◌≡◌, ◌≢◌, ◌<◌, ◌↔◌, ℕ, List, Some, slice_get, true, All};
ghost use Rattle.std.specs.List.{Contains, AllPairs};
ghost use Rattle.sig_kinds.specs.declared.signal.Signal.{Signal};
ghost use Rattle.sig_program.specs.Scripts.{Program};
ghost use Rattle.sig_runs.specs.Machine.{Machine, At, IsRun};
ghost use Rattle.sig_runs.specs.Crew.{opening_machine};
ghost use Rattle.sig_runs.specs.Marks.{by_whole};
ghost use Rattle.sig_runs.specs.PairFacts.{HoldOfPairs};
ghost use Rattle.sig_runs.specs.Settled.{IsSettled};
ghost use Rattle.sig_model.specs.declared.event.Event.{Event};
ghost use Rattle.sig_model.specs.ProcessState.{ProcessState};
ghost use Rattle.sig_model.specs.Machine.{rules_of, opening_of};
ghost use Rattle.sig_model.specs.Marking.{whole_of};
ghost use Rattle.sig_model.specs.PrintedState.{is_waiting};
ghost use Rattle.sig_model.specs.Running.{Running};
ghost use Rattle.sig_model.specs.CrewLaw.{IsLawfulCrew};
ghost use Rattle.sig_linklaw.specs.LinkReport.{HasComeToRest, pair, linked_pairs, IsLinked, HasLowFirst, IsLower};
ghost use Rattle.sig_linklaw.specs.LinkLaw.{one_link, IsGoing, AreOfOneMind};

/// The link law of a script's machine. In each settled run, for two different processes that are
/// neither ended, nor cut, nor late, each has the other as an active peer or neither has, and
/// neither awaits an acknowledgement of the other. So it is in the runs that look from the marks
/// on, and in those that look at all messages. At each moment of a run that looks from the marks on,
/// two processes that haven't ended agree with what is on its way between them (`always`). (Erlang
/// Reference Manual, Processes, Links: a link is bidirectional. The acknowledgements are this
/// project's own.)
pub fn processes_agree_on_their_link()
    ensures from_marks { (script : Program) (events : List (At Event)) (end : Machine ProcessState Signal) →
        IsRun (rules_of script) (opening_machine (opening_of script)) events end → IsSettled (rules_of script) end →
        (p q : ℕ) (s t : ProcessState) → p ≢ q → IsGoing script.turns end p s → IsGoing script.turns end q t →
        AreOfOneMind p q s.tables.links t.tables.links }
    ensures over_all { (script : Program) (events : List (At Event)) (end : Machine ProcessState Signal) →
        IsRun (by_whole (rules_of script) (whole_of script)) (opening_machine (opening_of script)) events end →
        IsSettled (by_whole (rules_of script) (whole_of script)) end →
        (p q : ℕ) (s t : ProcessState) → p ≢ q → IsGoing script.turns end p s → IsGoing script.turns end q t →
        AreOfOneMind p q s.tables.links t.tables.links }
    ensures always { (script : Program) (events : List (At Event)) (end : Machine ProcessState Signal) →
        IsRun (rules_of script) (opening_machine (opening_of script)) events end →
        HoldOfPairs one_link (rules_of script) end }
{}

/// The link law of a crew. In a lawful crew with empty outboxes that has come to rest, of two
/// different processes that wait each has the other as an active peer or neither has, and neither
/// awaits an acknowledgement of the other. So the pairs that are listed by the links of the processes
/// with the lower pids are those listed by the links of the others. (Erlang Reference Manual,
/// Processes, Links.)
pub fn waiting_processes_agree_on_their_link()
    ensures law { (script : Program) (crew : List Running) → HasComeToRest script crew →
        (p q : ℕ) (r t : Running) → p ≢ q → slice_get crew p ≡ Some r → slice_get crew q ≡ Some t →
        is_waiting r ≡ true → is_waiting t ≡ true → AreOfOneMind p q r.state.tables.links t.state.tables.links }
    ensures first { (script : Program) (crew : List Running) → HasComeToRest script crew →
        (p q : ℕ) → p < q → Contains (linked_pairs crew) (pair p q) ↔ IsLinked crew p q }
    ensures second { (script : Program) (crew : List Running) → HasComeToRest script crew →
        (p q : ℕ) → p < q → Contains (linked_pairs crew) (pair p q) ↔ IsLinked crew q p }
    ensures low { (crew : List Running) → All HasLowFirst (linked_pairs crew) }
    ensures ascending { (script : Program) (crew : List Running) → IsLawfulCrew script crew → AllPairs IsLower (linked_pairs crew) }
{}
