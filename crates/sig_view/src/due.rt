//! Which status is due.

ghost use Rattle.std.specs.Prelude.{◌≡◌, ◌⊎◌, ℕ, List};
ghost use Rattle.sig_edge.specs.Streams.{Reading, Writing};
ghost use Rattle.sig_view.specs.declared.command.Command.{Command as Asked};
ghost use Rattle.sig_view.specs.declared.status.ViewStatus.{ViewStatus};
ghost use Rattle.sig_view.specs.declared.status.ViewStatus.TheVariants.{Memory};
ghost use Rattle.sig_view.specs.Answers.{as_done, IsAnswer, IsDue, IsWellGiven};

/// A command and the bytes of an input determine the status that is due: there is at most one (`due`). Where
/// one is due, and no read fails, nor a write where it is `Done`, each status that answers the words is this one
/// or `Memory`; or, where `Done` is due, `Unfinished` (`answer`).
pub fn one_status_is_due()
    ensures due { (command : Asked) (bytes : List ℕ) (a b : ViewStatus) → IsDue command bytes a → IsDue command bytes b → a ≡ b }
    ensures answer { (command : Asked) (words : List (List ℕ)) (bytes : List ℕ) (due status : ViewStatus) (r : Reading) (w : Writing) →
        IsDue command bytes due → IsWellGiven command words bytes due r w → IsAnswer words r w status →
        (as_done status ≡ due) ⊎ (status ≡ Memory) }
{}
