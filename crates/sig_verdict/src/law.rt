//! The law, of what a run answers and what a check is due to answer.

ghost use Rattle.std.specs.Prelude.{◌≡◌, ◌++◌, ◌≤◌, ℕ, List, [], codes, length, Option, Some, None};
ghost use Rattle.sig_edge.specs.Streams.{Reading, Writing};
ghost use Rattle.sig_host.specs.Answers.{IsAnswer};
ghost use Rattle.sig_host.specs.Words.{AreSettings};
ghost use Rattle.sig_host.specs.declared.settings.Settings.{Settings};
ghost use Rattle.sig_host.specs.declared.status.Status.TheVariants.{Done};
ghost use Rattle.sig_tool.specs.Answers.{IsDue};
ghost use Rattle.sig_tool.specs.declared.command.Command.TheVariants.{Check};
ghost use Rattle.sig_tool.specs.declared.given.TheConstants.{MOST_INPUT};
ghost use Rattle.sig_tool.specs.declared.status.ToolStatus.TheVariants.{Done as Yes};

/// Where [`run`](sig_host::run) ended with `Done`, of an input that ends with a line feed and an output that was empty, and its
/// words don't ask for generated work, `sigtool check` is due `Done` for the input with the output behind it, and so writes `yes`
/// (`tool` of sig_tool, `complete`). Both together have at most [`MOST_INPUT`](sig_tool::MOST_INPUT) bytes. (What a record is, and
/// what `check` says of it, is this project's own.)
pub fn check_says_yes_to_what_run_wrote()
    ensures { (words : List (List ℕ)) (r : Reading) (w : Writing) (summary : Option (List ℕ)) (front output : List ℕ) →
        IsAnswer words r w Done summary →
        ((settings : Settings) → AreSettings words settings → settings.generate ≡ None) →
        r.left ≡ Some (front ++ codes "\n") → w.held ≡ Some [] → w.new ≡ Some output →
        length ((front ++ codes "\n") ++ output) ≤ MOST_INPUT →
        IsDue Check ((front ++ codes "\n") ++ output) Yes }
{}
