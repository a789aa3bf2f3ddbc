ghost use Rattle.sig_program.specs.Scripts.{Program};
ghost use Rattle.sig_model.specs.Machine.{rules_of};
ghost use Rattle.sig_call.specs.CallLaw.{CallsEnterOnce, EnterOnce};

/// The call law. In each run of each script, of the messages through the alias of one monitor that
/// was made with `reply_demonitor`, and the down of that monitor, at most one enters the mailbox of
/// the process that made it; so where one has entered, none enters later. It is so in the runs that
/// look at all messages (`whole`), and in those that look from the marks on (`marked`). (Erlang
/// Reference Manual, Processes, Process Aliases; module `erlang`, `monitor/3`.)
///
/// A plain message isn't counted, be it one that holds the monitor's reference.
pub fn a_call_is_answered_once()
    ensures whole { (script : Program) → CallsEnterOnce script }
    ensures marked { (script : Program) → EnterOnce script (rules_of script) }
{}
