ghost use Rattle.std.specs.Prelude.{◌≡◌, ◌↔◌, None};
ghost use Rattle.sig_program.specs.Scripts.{Declared, IsWithin};
ghost use Rattle.sig_model.specs.ProcessState.{ProcessState};
ghost use Rattle.sig_model.specs.Executing.{executing, executing_whole, IsWaiting, SkipsNone};

/// A process can't execute its instruction exactly where that is a receive without `after` for
/// which the scan finds no message. (Erlang Reference Manual, Expressions, Receive.)
pub fn only_a_receive_waits()
    ensures { (p : Declared) (s : ProcessState) → executing p s ≡ None ↔ IsWaiting p s }
{}

/// A receive through a marker is the manual's receive, which looks at all messages, where no message
/// before the mark holds the marker's reference: both take the same message by the same clause and
/// print the same number, and both go on or wait. The manual has no marks; they are an aid of the
/// runtime. (Erlang Reference Manual, Expressions, Receive.)
pub fn a_mark_skips_no_match()
    ensures { (p : Declared) (s : ProcessState) → IsWithin p → SkipsNone p s → executing_whole p s ≡ executing p s }
{}
