ghost use Rattle.std.specs.Prelude.{ℕ, List, ◌++◌};
ghost use Rattle.sig_runs.specs.Rules.{Rules, addressed, coming_from};
ghost use Rattle.sig_runs.specs.Machine.{Machine, At, IsRun};
ghost use Rattle.sig_runs.specs.LocalRun.{Local, Act, IsLocalRun, handles, sends};
ghost use Rattle.sig_runs.specs.PairFacts.{PairFacts, AreSymmetric, HoldOfPairs, KeepSenders, FirstKeeps, PairKeeps};

/// A fact of each two processes and of the signals on their way between them. A type that has this stands for one choice
/// of it: the contract that names it holds at each.
pub trait StatedOfPairs<S, X> {
    ghost facts: { PairFacts S X };
}

/// A law over all runs on each two different processes, from the law on one event. If what a process sends comes from it,
/// what the events of either keep holds of each two processes and their two lists at the end of each run (`run`), if it
/// holds at the opening and no signal stands in another process's list there. A fact that holds in both orders asks for
/// the events of one of the two alone (`symmetric`). It is kept too where one of the two goes on alone and the other does
/// nothing (`alone`): what it handled of the other goes from the front of one list, what it sent comes behind the other.
pub fn pair_law_holds_in_every_run<S, X, E, F: StatedOfPairs<S, X>>()
    ensures run { (rules : Rules S X E) (opening end : Machine S X) (events : List (At E)) →
        KeepSenders rules → PairKeeps F.facts rules → HoldOfPairs F.facts rules opening → IsRun rules opening events end →
        HoldOfPairs F.facts rules end }
    ensures symmetric { (rules : Rules S X E) →
        AreSymmetric F.facts → FirstKeeps F.facts rules → PairKeeps F.facts rules }
    ensures alone { (rules : Rules S X E) (p q : ℕ) (t : S) (acts : List (Act S X E)) (local end : Local S X)
        (out back : List X) →
        FirstKeeps F.facts rules →
        F.facts.of_pair p q local.state t out (coming_from rules q (handles acts) ++ back) →
        IsLocalRun rules p local acts end →
        F.facts.of_pair p q end.state t (out ++ addressed rules q (sends acts)) back }
{}
