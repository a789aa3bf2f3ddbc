//! Processes that run apart, each by a local run of its own, and what becomes of their events when they are put in the
//! order of their stamps: a run of the machine that has all processes and a list of signals for each ordered pair.
//!
//! Nothing here runs. A state `S`, a signal `X` and an event `E` are any types, `Rules` is what the theory reads of them,
//! and each function is a theorem: its contract is what was proved, and its body is empty.
#![tactic(auto)]

ghost use Rattle.std.specs.Prelude.{ℕ, ◌≡◌, ◌<◌, ◌≤◌, List, [], ◌∷◌, ◌++◌, length, map, cond, is_some, Option, Some, slice_get};
ghost use Rattle.std.specs.List.{All, AllAdjacentBelow, count_by};
ghost use Rattle.sig_runs.specs.Rules.{Did, Effect, Rules, KeepStamps, addressed, coming_from};
ghost use Rattle.sig_runs.specs.Machine.{Machine, At, Applied, apply, choice, IsRun};
ghost use Rattle.sig_runs.specs.Machine.Choice.{Executes, Handles};
ghost use Rattle.sig_runs.specs.Possible.{IsExecution, IsHandling};
ghost use Rattle.sig_runs.specs.LocalRun.{Local, Act, CanDo, IsLocalRun, handles, sends};
ghost use Rattle.sig_runs.specs.Replay.{RanAlone, OneMore};
ghost use Rattle.sig_runs.specs.Crew.{Member, IsLawful, acts_of, opening_machine, crew_machine};
ghost use Rattle.sig_runs.specs.Order.{Place, IsOrder, NotAfter, counts, events_at, events_by, stamp_at, act_at};
ghost use Rattle.sig_runs.specs.OnTheWay.{AtWork, IsLawfulAtWork, machine_at_work, opened_crew, DoesAct, Delivers};
ghost use Rattle.sig_runs.specs.Fresh.{Marking, MakesFresh};
ghost use Rattle.sig_runs.specs.Marks.{AllMarksSound, KeepsMarksSound, by_whole};
ghost use Rattle.sig_runs.specs.Settled.{IsSettled, HandlesLate};
ghost use Rattle.sig_runs.specs.Still.{IsStillMember, CutsHigh};
ghost use Rattle.sig_runs.specs.Everywhere.{Facts, HoldEverywhere, EventKeeps};

mod pair_law;

pub use pair_law::{StatedOfPairs, pair_law_holds_in_every_run};

/// The merge theorem. Whatever the rules of a process are, if they stamp as they should, the events of a lawful crew in
/// their order are a run of the machine. It begins with the processes as they were opened and no signal sent, and it ends
/// with the crew's states and with exactly the signals that are queued in the crew. Each process's events come in it as
/// the process had them.
pub fn merge_is_a_run<S, X, E>()
    ensures run { (rules : Rules S X E) (opening : List S) (crew : List (Member S X E))
        (order : List Place) →
        KeepStamps rules → IsLawful rules opening crew → IsOrder rules crew order →
        IsRun rules (opening_machine opening) (events_at crew order) (crew_machine rules crew) }
    ensures events { (rules : Rules S X E) (opening : List S) (crew : List (Member S X E))
        (order : List Place) →
        KeepStamps rules → IsLawful rules opening crew → IsOrder rules crew order →
        (p : ℕ) → events_by p (events_at crew order)
        ≡ map (λ a. a.effect.event) (acts_of (slice_get crew p)) }
{}

/// What the laws on references and marks read of a state, a signal and a reference. A type that has this stands for one
/// choice of it: the contracts that name it hold at each.
pub trait Marked<S, X, R> {
    ghost marking: { Marking S X R };
}

/// The merge theorem for processes that execute a receive from a mark on, told of the machine that looks at the whole
/// list of messages: under the law of freshness and the law of sound marks, the crew's events are a run of that machine
/// too. It ends with all references made and all marks sound, and where it is settled for processes that look from the
/// mark on, it is settled for those that look at the whole list.
pub fn merge_from_marks_is_a_run<S, X, E, R, M: Marked<S, X, R>>()
    ensures run { (rules : Rules S X E) (whole : ℕ → S → Option (Effect S X E)) (opening : List S)
        (crew : List (Member S X E)) (order : List Place) →
        MakesFresh M.marking rules → KeepsMarksSound M.marking rules whole →
        AllMarksSound M.marking (opening_machine opening) →
        KeepStamps rules → IsLawful rules opening crew → IsOrder rules crew order →
        IsRun (by_whole rules whole) (opening_machine opening) (events_at crew order)
        (crew_machine rules crew) }
    ensures sound { (rules : Rules S X E) (whole : ℕ → S → Option (Effect S X E)) (opening : List S)
        (crew : List (Member S X E)) (order : List Place) →
        MakesFresh M.marking rules → KeepsMarksSound M.marking rules whole →
        AllMarksSound M.marking (opening_machine opening) →
        KeepStamps rules → IsLawful rules opening crew → IsOrder rules crew order →
        AllMarksSound M.marking (crew_machine rules crew) }
    ensures settled { (rules : Rules S X E) (whole : ℕ → S → Option (Effect S X E))
        (m : Machine S X) → KeepsMarksSound M.marking rules whole → AllMarksSound M.marking m →
        IsSettled rules m → IsSettled (by_whole rules whole) m }
{}

/// The marker law: in every run of the machine that looks at the whole list of messages, all references are made and all
/// marks are sound, if they are at its opening. The same events are a run of the machine that looks from the mark on, and
/// the other way round.
pub fn marks_stay_sound<S, X, E, R, M: Marked<S, X, R>>()
    ensures sound { (rules : Rules S X E) (whole : ℕ → S → Option (Effect S X E))
        (opening end : Machine S X) (events : List (At E)) → MakesFresh M.marking rules →
        KeepsMarksSound M.marking rules whole → AllMarksSound M.marking opening →
        IsRun (by_whole rules whole) opening events end → AllMarksSound M.marking end }
    ensures from_the_mark { (rules : Rules S X E) (whole : ℕ → S → Option (Effect S X E))
        (opening end : Machine S X) (events : List (At E)) → MakesFresh M.marking rules →
        KeepsMarksSound M.marking rules whole → AllMarksSound M.marking opening →
        IsRun (by_whole rules whole) opening events end → IsRun rules opening events end }
    ensures from_the_head { (rules : Rules S X E) (whole : ℕ → S → Option (Effect S X E))
        (opening end : Machine S X) (events : List (At E)) → MakesFresh M.marking rules →
        KeepsMarksSound M.marking rules whole → AllMarksSound M.marking opening →
        IsRun rules opening events end → IsRun (by_whole rules whole) opening events end }
{}

/// A list of keys that is sorted by stamp, then pid, then place, and that has one key for each event of a crew and no
/// other, gives the order of the crew's events.
pub fn sorted_keys_are_the_order<S, X, E, K>()
    ensures { (rules : Rules S X E) (crew : List (Member S X E)) (stamp : K → ℕ) (place : K → Place)
        (keys : List K) →
        ((a : Place) → count_by (counts place a) keys ≡ cond (is_some (act_at crew a)) 1 0) →
        All (λ k. stamp k ≡ stamp_at rules crew (place k)) keys →
        AllAdjacentBelow (NotAfter stamp place) keys (length keys) →
        IsOrder rules crew (map place keys) }
{}

/// What a running process has to keep: one more event makes the list of its events and the list of the signals that it
/// handled longer, these two lists tell its local run again, and what it sent grows by what the event sends.
pub fn one_more_event_tells_the_run<S, X, E>()
    ensures { (rules : Rules S X E) (p : ℕ) (opening now : Local S X) (events : List E)
        (handled : List X) (a : Act S X E) →
        KeepStamps rules → RanAlone rules p opening events handled now →
        CanDo rules p now a.input a.effect → OneMore rules p opening now events handled a }
{}

/// In a local run stamps only rise: no event has a stamp above the last one of the end, and each handled signal has a lower
/// one. So what bounds the last stamp bounds all.
pub fn no_stamp_is_above_the_last<S, X, E>()
    ensures events { (rules : Rules S X E) (p : ℕ) (opening end : Local S X) (events : List E)
        (handled : List X) →
        KeepStamps rules → RanAlone rules p opening events handled end →
        All (λ e. rules.event_stamp e ≤ rules.last end.state) events }
    ensures handled { (rules : Rules S X E) (p : ℕ) (opening end : Local S X) (events : List E)
        (handled : List X) →
        KeepStamps rules → RanAlone rules p opening events handled end →
        All (λ x. rules.stamp x < rules.last end.state) handled }
{}

/// One more event of a process keeps a crew at work lawful, and it is one step of the machine in which the crew's signals
/// are queued, those in outboxes too.
pub fn event_is_one_step<S, X, E>()
    ensures keeps { (rules : Rules S X E) (opening : List S) (old new : AtWork S X E)
        (p : ℕ) (a : Act S X E) →
        KeepStamps rules → IsLawfulAtWork rules opening old → DoesAct rules old p a new →
        IsLawfulAtWork rules opening new }
    ensures is_step { (rules : Rules S X E) (opening : List S) (old new : AtWork S X E)
        (p : ℕ) (a : Act S X E) →
        KeepStamps rules → IsLawfulAtWork rules opening old → DoesAct rules old p a new →
        apply rules (machine_at_work rules old) (choice p (rules.did a.effect.event))
        ≡ Some (record { machine = machine_at_work rules new; event = a.effect.event }) }
{}

/// One delivery from an outbox to its receiver keeps a crew at work lawful, and it is no step: the machine stays as it is.
pub fn delivery_is_no_step<S, X, E>()
    ensures keeps { (rules : Rules S X E) (opening : List S) (old new : AtWork S X E)
        (s t : ℕ) →
        IsLawfulAtWork rules opening old → Delivers rules old s t new →
        IsLawfulAtWork rules opening new }
    ensures is_no_step { (rules : Rules S X E) (opening : List S) (old new : AtWork S X E)
        (s t : ℕ) →
        IsLawfulAtWork rules opening old → Delivers rules old s t new →
        machine_at_work rules new ≡ machine_at_work rules old }
{}

/// With empty outboxes a crew at work is lawful exactly where the crew is, and its machine is the crew's.
pub fn empty_outboxes_leave_the_crew<S, X, E>()
    ensures lawful { (rules : Rules S X E) (opening : List S) (work : AtWork S X E) →
        ((q : ℕ) → work.outbox q ≡ []) → IsLawfulAtWork rules opening work →
        IsLawful rules opening work.crew }
    ensures at_work { (rules : Rules S X E) (opening : List S) (work : AtWork S X E) →
        ((q : ℕ) → work.outbox q ≡ []) → IsLawful rules opening work.crew →
        IsLawfulAtWork rules opening work }
    ensures machine { (rules : Rules S X E) (work : AtWork S X E) →
        ((q : ℕ) → work.outbox q ≡ []) → machine_at_work rules work ≡ crew_machine rules work.crew }
{}

/// A crew as it was opened is lawful, and its machine is the one before the first event.
pub fn opened_crew_is_lawful<S, X, E>()
    ensures lawful { (rules : Rules S X E) (opening : List S) →
        IsLawfulAtWork rules opening (opened_crew opening) }
    ensures machine { (rules : Rules S X E) (opening : List S) →
        machine_at_work rules (opened_crew opening) ≡ opening_machine opening }
{}

/// A local run keeps by itself the law of a process with itself: its signals to itself that it handled, and then those
/// that it has not, are those that it had and then those that it sent to itself.
pub fn local_run_keeps_its_own_pair<S, X, E>()
    ensures { (rules : Rules S X E) (p : ℕ) (acts : List (Act S X E)) (opening end : Local S X) →
        IsLocalRun rules p opening acts end →
        coming_from rules p (handles acts) ++ end.own
        ≡ opening.own ++ addressed rules p (sends acts) }
{}

/// A round keeps the law of one pair, that what the receiver handled of the sender, and then what is queued, is what the
/// sender sent. In the round the sender put signals into the receiver's queue; the receiver fetched the first of them, and
/// what was left at the end of the round goes behind what is queued.
pub fn round_keeps_the_pair<X>()
    ensures { (handled queued sent handled' queued' fetched put left : List X) →
        handled ++ queued ≡ sent → handled' ++ queued' ≡ (handled ++ queued) ++ fetched →
        put ≡ fetched ++ left →
        handled' ++ (queued' ++ left) ≡ sent ++ put }
{}

/// Nothing else is possible: what the machine gives for a choice comes only of a process that is there and isn't cut. An
/// execution comes only of one that has not ended and for which no signal to itself is queued. A handling takes the oldest
/// signal of its pair, whose stamp is below 2^62, and one of another process only where no signal of the process to itself
/// is queued.
pub fn nothing_else_is_possible<S, X, E>()
    ensures executed { (rules : Rules S X E) (m : Machine S X) (p : ℕ) (next : Applied S X E) →
        apply rules m (Executes p) ≡ Some next → IsExecution rules m p next }
    ensures handled { (rules : Rules S X E) (m : Machine S X) (p f : ℕ) (next : Applied S X E) →
        apply rules m (Handles p f) ≡ Some next → IsHandling rules m p f next }
{}

/// From a settled machine only a late process goes on, and only by handling a signal. So a run that ends settled can be
/// extended by no choice where no process is late.
pub fn settled_run_goes_on_only_late<S, X, E>()
    ensures step { (rules : Rules S X E) (m : Machine S X) (p : ℕ) (did : Did)
        (next : Applied S X E) →
        IsSettled rules m → apply rules m (choice p did) ≡ Some next → HandlesLate rules m p did }
    ensures run { (rules : Rules S X E) (opening end far : Machine S X) (events later : List (At E))
        (a : At E) →
        IsRun rules opening events end → IsSettled rules end →
        IsRun rules opening (events ++ a ∷ later) far →
        HandlesLate rules end a.pid (rules.did a.event) }
{}

/// A lawful crew in which no process can do anything is settled, so the pass or the round that finds nothing to do is the
/// last one. A process can do nothing where it can't handle a signal, and can't execute or its instruction isn't defined.
pub fn still_crew_is_settled<S, X, E>()
    ensures { (rules : Rules S X E) (opening : List S) (crew : List (Member S X E)) →
        KeepStamps rules → CutsHigh rules → IsLawful rules opening crew →
        ((p : ℕ) (m : Member S X E) → slice_get crew p ≡ Some m → IsStillMember rules p m) →
        IsSettled rules (crew_machine rules crew) }
{}

/// A fact of each process and a fact of each signal. A type that has this stands for one choice of them: the contract that
/// names it holds at each.
pub trait Stated<S, X> {
    ghost facts: { Facts S X };
}

/// A law over all runs from the law on one event: what each event keeps, of its process and of the signals that it handles
/// and sends, holds of all processes and all queued signals at the end of each run, if it holds at the opening.
pub fn event_law_holds_in_every_run<S, X, E, F: Stated<S, X>>()
    ensures { (rules : Rules S X E) (opening end : Machine S X) (events : List (At E)) →
        EventKeeps F.facts rules → HoldEverywhere F.facts opening → IsRun rules opening events end →
        HoldEverywhere F.facts end }
{}
