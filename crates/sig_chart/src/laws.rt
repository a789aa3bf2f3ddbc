//! What the shapes of a chart keep. Nothing here runs: the contracts are what was proved, and the bodies
//! are empty.

ghost use Rattle.std.specs.Prelude.{◌≡◌, All, length, map};
ghost use Rattle.std.specs.List.{AllPairs, filter};
ghost use Rattle.sig_chart.specs.declared.window.TheConstants.{MOST_EVENTS};
ghost use Rattle.sig_chart.specs.declared.window.Window.{Window as Stamps};
ghost use Rattle.sig_chart.specs.Drawn.{AreShown};
ghost use Rattle.sig_kinds.specs.declared.signal.Signal.{Signal};
ghost use Rattle.sig_chart.specs.Laid.{IsAbove, IsOfItsRow, spot_of, end_of};
ghost use Rattle.sig_chart.specs.Laid.{EndsAtHandling, BeginsAtSender, HasOneOrigin, BeginsAbove, HasItsStamp};
ghost use Rattle.sig_chart.specs.Shapes.{Ground, chart_of, stub_in, stub_of};

/// Each later mark stands in a lower row, so no two stand at one place (`apart`). Each event that is shown
/// has its mark: there are as many (`each`), and each is that of the event that is shown in its row (`of`).
pub fn marks_stand_apart()
    ensures apart { (w : Stamps) (g : Ground) → AllPairs IsAbove (chart_of w g).marks }
    ensures each { (w : Stamps) (g : Ground) → AreShown g.reports w g.shown → length (chart_of w g).marks ≡ length g.shown }
    ensures of { (w : Stamps) (g : Ground) → All (IsOfItsRow g) (chart_of w g).marks }
{}

/// For each mark of a handling there is one arrow, which ends there, and there is no other (`ends`). The
/// event that is shown there is one of the arrow's receiver, and handled the signal with the arrow's number
/// of its sender (`of`). An arrow that begins in a row begins at the event that sent the signal, as the
/// origin of the signal tells (`begins`). Where one begins in no row, and the signal has one origin, the
/// event that sent it isn't shown (`above`).
pub fn an_arrow_leads_from_sending_to_handling()
    ensures ends { (w : Stamps) (g : Ground) →
        map end_of (chart_of w g).arrows ≡ map spot_of (filter (λ m. m.handled) (chart_of w g).marks) }
    ensures of { (w : Stamps) (g : Ground) → All (EndsAtHandling g) (chart_of w g).arrows }
    ensures begins { (w : Stamps) (g : Ground) → All (BeginsAtSender g) (chart_of w g).arrows }
    ensures above { (w : Stamps) (g : Ground) → All (λ a. HasOneOrigin g a → BeginsAbove g a) (chart_of w g).arrows }
{}

/// A queued signal is drawn where the event that sent it is shown: that its own stamp is looked at first
/// leaves none out. So it is of a signal that has the stamp of the event that sent it, as each queued signal
/// of a run's record has.
pub fn queued_signals_are_drawn()
    ensures { (w : Stamps) (g : Ground) (s : Signal) → AreShown g.reports w g.shown → HasItsStamp g s →
        stub_in w g.origins g.shown s ≡ stub_of g.origins g.shown s }
{}

/// The limit in numbers: [`MOST_EVENTS`](crate::MOST_EVENTS) is 2,000.
pub fn the_limits_of_charts()
    ensures events { MOST_EVENTS ≡ 2000 }
{}
