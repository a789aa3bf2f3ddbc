//! Which status is due.

ghost use Rattle.std.specs.Prelude.{◌≡◌, ◌⊎◌, ℕ, List};
ghost use Rattle.sig_edge.specs.Streams.{Reading, Writing};
ghost use Rattle.sig_tool.specs.declared.command.Command.{Command as Asked};
ghost use Rattle.sig_tool.specs.declared.status.ToolStatus.{ToolStatus};
ghost use Rattle.sig_tool.specs.declared.status.ToolStatus.TheVariants.{Memory};
ghost use Rattle.sig_tool.specs.Answers.{IsAnswer, IsDue, IsWellGiven};

/// A command and the bytes of an input determine the status that is due: there is at most one (`due`). Where
/// one is due, and no read fails, nor a write where it is `Done`, each status that answers the words is this one
/// or `Memory` (`answer`).
pub fn one_status_is_due()
    ensures due { (command : Asked) (bytes : List ℕ) (a b : ToolStatus) → IsDue command bytes a → IsDue command bytes b → a ≡ b }
    ensures answer { (command : Asked) (words : List (List ℕ)) (bytes : List ℕ) (due status : ToolStatus) (r : Reading) (w : Writing) →
        IsDue command bytes due → IsWellGiven command words bytes due r w → IsAnswer words r w status →
        (status ≡ due) ⊎ (status ≡ Memory) }
{}
