ghost use Rattle.std.specs.Prelude.{◌≡◌, ◌↔◌, List};
ghost use Rattle.sig_layout.specs.declared.layout.TheConstants.{BUFFERS, SLOTS, WORDS};
ghost use Rattle.sig_layout.specs.declared.policy.TheConstants.{AUTO_FEW, AUTO_RUN, AUTO_SCORE};
ghost use Rattle.sig_layout.specs.declared.senders.TheConstants.{PIDS};
ghost use Rattle.sig_layout.specs.declared.setup.Setup.{Setup};
ghost use Rattle.sig_layout.specs.declared.policy.Policy.{Policy};
ghost use Rattle.sig_layout.specs.declared.entry.Entry.{Entry};
ghost use Rattle.sig_layout.specs.declared.decision.Due.{Due};
ghost use Rattle.sig_layout.specs.Core.{QState, Reached};
ghost use Rattle.sig_layout.specs.Policies.{IsPolicy, IsDue, IsLawfulJournal};
ghost use Rattle.sig_layout.specs.Summaries.{IsAllowed};
ghost use Rattle.sig_layout.specs.Rule.{Rule};

/// The queue rule holds of every state that steps reach from the opening.
pub fn rule()
    ensures { (z : Setup) → IsPolicy z.policy → (q : QState) → Reached z q → Rule q }
{}

/// What is due after a journal is one thing.
pub fn due_is_one()
    ensures { (p : Policy) (j : List Entry) (d e : Due) → IsDue p j d → IsDue p j e → d ≡ e }
{}

/// A journal is lawful exactly where each of its entries might come when it was added, and no
/// install is due at the end.
pub fn lawful_is_allowed()
    ensures { (p : Policy) (j : List Entry) → IsLawfulJournal p j ↔ IsAllowed p j }
{}

/// The limits in numbers: [`PIDS`](crate::PIDS) is 256, [`BUFFERS`](crate::BUFFERS) is 64,
/// [`WORDS`](crate::WORDS) is 536, [`SLOTS`](crate::SLOTS) is 65, [`AUTO_SCORE`](crate::AUTO_SCORE)
/// is 64, [`AUTO_RUN`](crate::AUTO_RUN) is 16, and [`AUTO_FEW`](crate::AUTO_FEW) is 4.
pub fn the_limits_of_queues()
    ensures pids { PIDS ≡ 256 }
    ensures buffers { BUFFERS ≡ 64 }
    ensures words { WORDS ≡ 536 }
    ensures slots { SLOTS ≡ 65 }
    ensures score { AUTO_SCORE ≡ 64 }
    ensures run { AUTO_RUN ≡ 16 }
    ensures few { AUTO_FEW ≡ 4 }
{}
