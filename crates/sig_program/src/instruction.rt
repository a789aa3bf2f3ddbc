ghost use Rattle.std.specs.Prelude.{◌≡◌, [], ◌∷◌, ◌↔◌, IsTrue, IfOk};
ghost use Rattle.sig_program.specs.Instructions.{word_of};
ghost use Rattle.sig_program.specs.Parts.{exprs_of, vars_of, IsInstrAmong};
ghost use Rattle.sig_program.specs.declared.instruction.Instr.TheVariants as instr;

use sig_kinds::AliasMode;
use sig_lists::{Copied, Sequence, copy_all};
use sig_patterns::{Clauses, Expr, Var};
use std::alloc::{AllocError, Global};
use std::mem::drop;

/// Where a receive goes on that finds no message.
#[derive(Drop)]
pub struct After {
    /// The place of a label among those of the process, from 0. `None` is the next instruction.
    pub target: Option<u32>,
}

/// What a receive does.
#[derive(Drop)]
pub struct Receiving {
    /// The variable of its marker. Each clause's pattern pins it, and the scan begins at the marker
    /// of its value.
    pub using: Option<Var>,
    /// The clauses, in the order in which they are tried.
    pub clauses: Clauses,
    /// Where it goes on that finds no message. `None`: it waits for one.
    pub after: Option<After>,
}

/// An instruction of a process.
#[derive(Drop)]
pub enum Instr {
    /// Sends a message. (Erlang Reference Manual, Expressions, Send.)
    Send {
        to: Expr,
        message: Expr,
    },
    /// Makes the value that of the variable. (Erlang Reference Manual, Expressions, Variables.)
    Set {
        var: Var,
        value: Expr,
    },
    /// Makes the variable a new reference. (Erlang Reference Manual, Data Types, Reference; module
    /// `erlang`, `make_ref/0`.)
    MakeRef {
        var: Var,
    },
    /// Takes the oldest message that a clause takes. (Erlang Reference Manual, Expressions, Receive;
    /// the runtime's instruction `recv_marker_use`.)
    Receive(Receiving),
    /// Sets up a link. (Erlang Reference Manual, Processes, Links; module `erlang`, `link/1`.)
    Link {
        peer: Expr,
    },
    /// Ends a link. (Erlang Reference Manual, Processes, Links; module `erlang`, `unlink/1`.)
    Unlink {
        peer: Expr,
    },
    /// Monitors a process by a new reference, which is an alias too where a mode is given. The mode
    /// is never `Reply`. (Erlang Reference Manual, Processes, Monitors; module `erlang`,
    /// `monitor/2` and `monitor/3`.)
    Monitor {
        var: Var,
        target: Expr,
        mode: Option<AliasMode>,
    },
    /// Ends a monitor, and removes the message of its end where `flush` stands. (Erlang Reference
    /// Manual, Processes, Monitors; module `erlang`, `demonitor/1` and `demonitor/2`.)
    Demonitor {
        reference: Expr,
        flush: bool,
    },
    /// Makes the variable a new alias, for one message where `reply` stands. (Erlang Reference
    /// Manual, Processes, Process Aliases; module `erlang`, `alias/0` and `alias/1`.)
    Alias {
        var: Var,
        reply: bool,
    },
    /// Ends an alias. (Erlang Reference Manual, Processes, Process Aliases; module `erlang`,
    /// `unalias/1`.)
    Unalias {
        reference: Expr,
    },
    /// Ends the process with the reason. (Erlang Reference Manual, Processes, Process Termination.)
    Exit {
        reason: Expr,
    },
    /// Sends an exit signal. (Erlang Reference Manual, Processes, Sending Exit Signals.)
    ExitTo {
        target: Expr,
        reason: Expr,
    },
    /// Makes the process trap exits, or trap them no more. (Erlang Reference Manual, Processes,
    /// Receiving Exit Signals.)
    Trap {
        on: bool,
    },
    /// Sets a marker behind the messages that are there, for a reference that is made next. (The
    /// runtime's instruction `recv_marker_reserve`.)
    Reserve,
    /// Binds the marker that was set to the reference that is the variable's value. (The runtime's
    /// instruction `recv_marker_bind`.)
    Bind {
        var: Var,
    },
    /// Takes the marker of the reference that is the variable's value away. (The runtime's
    /// instruction `recv_marker_clear`.)
    Clear {
        var: Var,
    },
    /// Goes on at a label: its place among those of the process, from 0.
    Goto {
        label: u32,
    },
    /// Ends the process.
    Stop,
}

/// The instructions of a process, in the order of their lines.
pub type Instrs = Sequence<Instr>;

impl After {
    /// An equal value.
    pub fn copy(&self) -> After
        ensures { result ≡ self.now }
    {
        After {
            target: self.target,
        }
    }
}

fn copy_marker(alloc: Global, marker: &Option<Var>) -> Result<Option<Var>, AllocError>
    ensures { IfOk result (λ x. x ≡ marker.now) }
{
    match marker {
        Some(var) => var.copy(alloc).map(Some),
        None => Ok(None),
    }
}

fn copy_after(after: &Option<After>) -> Option<After>
    ensures { result ≡ after.now }
{
    match after {
        Some(after) => Some(after.copy()),
        None => None,
    }
}

impl Receiving {
    /// An equal value. The error is want of memory.
    pub fn copy(&self, alloc: Global) -> Result<Receiving, AllocError>
        ensures { IfOk result (λ r. r ≡ self.now) }
    {
        let using = copy_marker(alloc, &self.using)?;
        let clauses = copy_all(alloc, &self.clauses)?;
        let after = copy_after(&self.after);
        Ok(Receiving {
            using,
            clauses,
            after,
        })
    }
}

fn copy_set(alloc: Global, var: &Var, value: &Expr) -> Result<Instr, AllocError>
    ensures { IfOk result (λ i. i ≡ instr.Set var.now value.now) }
{
    let var = var.copy(alloc)?;
    let value = value.copy(alloc)?;
    Ok(Instr::Set { var, value })
}

fn copy_monitor(
    alloc: Global,
    var: &Var,
    target: &Expr,
    mode: Option<AliasMode>,
) -> Result<Instr, AllocError>
    ensures { IfOk result (λ i. i ≡ instr.Monitor var.now target.now mode) }
{
    let var = var.copy(alloc)?;
    let target = target.copy(alloc)?;
    Ok(Instr::Monitor { var, target, mode })
}

impl Instr {
    /// An equal instruction, which has this expression and no variable.
    fn copy_with_one(&self, alloc: Global, expr: &Expr) -> Result<Instr, AllocError>
        requires exprs { exprs_of self.now ≡ expr.now ∷ [] }
        requires vars { vars_of self.now ≡ [] }
        ensures { IfOk result (λ i. i ≡ self.now) }
    {
        let expr = expr.copy(alloc)?;
        match self {
            Instr::Link { .. } => Ok(Instr::Link { peer: expr }),
            Instr::Unlink { .. } => Ok(Instr::Unlink { peer: expr }),
            Instr::Demonitor { flush, .. } => Ok(Instr::Demonitor {
                reference: expr,
                flush: *flush,
            }),
            Instr::Unalias { .. } => Ok(Instr::Unalias { reference: expr }),
            Instr::Exit { .. } => Ok(Instr::Exit { reason: expr }),
            _ => unreachable!(),
        }
    }

    /// An equal instruction, which has these two expressions.
    fn copy_with_two(&self, alloc: Global, first: &Expr, second: &Expr) -> Result<Instr, AllocError>
        requires { exprs_of self.now ≡ first.now ∷ second.now ∷ [] }
        ensures { IfOk result (λ i. i ≡ self.now) }
    {
        let first = first.copy(alloc)?;
        match second.copy(alloc) {
            Ok(second) => match self {
                Instr::Send { .. } => Ok(Instr::Send {
                    to: first,
                    message: second,
                }),
                Instr::ExitTo { .. } => Ok(Instr::ExitTo {
                    target: first,
                    reason: second,
                }),
                _ => unreachable!(),
            },
            Err(e) => {
                drop(first);
                Err(e)
            }
        }
    }

    /// An equal instruction, which has this variable and no expression.
    fn copy_with_var(&self, alloc: Global, var: &Var) -> Result<Instr, AllocError>
        requires exprs { exprs_of self.now ≡ [] }
        requires vars { vars_of self.now ≡ var.now.0 ∷ [] }
        ensures { IfOk result (λ i. i ≡ self.now) }
    {
        let var = var.copy(alloc)?;
        match self {
            Instr::MakeRef { .. } => Ok(Instr::MakeRef { var }),
            Instr::Alias { reply, .. } => Ok(Instr::Alias { var, reply: *reply }),
            Instr::Bind { .. } => Ok(Instr::Bind { var }),
            Instr::Clear { .. } => Ok(Instr::Clear { var }),
            _ => unreachable!(),
        }
    }

    /// An equal instruction. The error is want of memory.
    pub fn copy(&self, alloc: Global) -> Result<Instr, AllocError>
        ensures { IfOk result (λ i. i ≡ self.now) }
    {
        match self {
            Instr::Send {
                to: first,
                message: second,
            }
            | Instr::ExitTo {
                target: first,
                reason: second,
            } => self.copy_with_two(alloc, first, second),
            Instr::Link { peer: expr }
            | Instr::Unlink { peer: expr }
            | Instr::Demonitor {
                reference: expr,
                ..
            }
            | Instr::Unalias { reference: expr }
            | Instr::Exit { reason: expr } => self.copy_with_one(alloc, expr),
            Instr::MakeRef { var }
            | Instr::Alias { var, .. }
            | Instr::Bind { var }
            | Instr::Clear { var } => self.copy_with_var(alloc, var),
            Instr::Set { var, value } => copy_set(alloc, var, value),
            Instr::Receive(receiving) => receiving.copy(alloc).map(Instr::Receive),
            Instr::Monitor { var, target, mode } => copy_monitor(alloc, var, target, *mode),
            Instr::Trap { on } => Ok(Instr::Trap { on: *on }),
            Instr::Goto { label } => Ok(Instr::Goto { label: *label }),
            Instr::Reserve => Ok(Instr::Reserve),
            Instr::Stop => Ok(Instr::Stop),
        }
    }

    /// Whether each process that stands in an expression of the instruction is known: `known` is true at
    /// its place.
    pub fn names_only(&self, known: &[bool]) -> bool
        ensures { IsTrue result ↔ IsInstrAmong known.now self.now }
    {
        match self {
            Instr::Send {
                to: first,
                message: second,
            }
            | Instr::ExitTo {
                target: first,
                reason: second,
            } => first.names_only(known) && second.names_only(known),
            Instr::Set { value: expr, .. }
            | Instr::Link { peer: expr }
            | Instr::Unlink { peer: expr }
            | Instr::Monitor { target: expr, .. }
            | Instr::Demonitor {
                reference: expr,
                ..
            }
            | Instr::Unalias { reference: expr }
            | Instr::Exit { reason: expr } => expr.names_only(known),
            _ => true,
        }
    }
}

/// The word of an instruction that is no receive.
#[derive(Clone, Copy)]
pub enum Verb {
    /// `send`: sends a message.
    Send,
    /// `set`: makes a value that of a variable.
    Set,
    /// `make_ref`: makes a new reference.
    MakeRef,
    /// `link`: sets up a link.
    Link,
    /// `unlink`: ends a link.
    Unlink,
    /// `monitor`: monitors a process.
    Monitor,
    /// `demonitor`: ends a monitor.
    Demonitor,
    /// `alias`: makes a new alias.
    Alias,
    /// `unalias`: ends an alias.
    Unalias,
    /// `exit`: ends the process with a reason.
    Exit,
    /// `exit_to`: sends an exit signal.
    ExitTo,
    /// `trap`: makes the process trap exits, or trap them no more.
    Trap,
    /// `reserve`: sets a marker behind the messages that are there.
    Reserve,
    /// `bind`: binds the marker to a reference.
    Bind,
    /// `clear`: takes the marker of a reference away.
    Clear,
    /// `goto`: goes on at a label.
    Goto,
    /// `stop`: ends the process.
    Stop,
}

/// The verbs, each once.
pub const VERBS: [Verb; 17] = [
    Verb::Send,
    Verb::Set,
    Verb::MakeRef,
    Verb::Link,
    Verb::Unlink,
    Verb::Monitor,
    Verb::Demonitor,
    Verb::Alias,
    Verb::Unalias,
    Verb::Exit,
    Verb::ExitTo,
    Verb::Trap,
    Verb::Reserve,
    Verb::Bind,
    Verb::Clear,
    Verb::Goto,
    Verb::Stop,
];

impl Verb {
    /// The word of the instruction.
    pub fn word(self) -> &'static [u8]
        ensures { result.now ≡ word_of self }
    {
        match self {
            Verb::Send => b"send",
            Verb::Set => b"set",
            Verb::MakeRef => b"make_ref",
            Verb::Link => b"link",
            Verb::Unlink => b"unlink",
            Verb::Monitor => b"monitor",
            Verb::Demonitor => b"demonitor",
            Verb::Alias => b"alias",
            Verb::Unalias => b"unalias",
            Verb::Exit => b"exit",
            Verb::ExitTo => b"exit_to",
            Verb::Trap => b"trap",
            Verb::Reserve => b"reserve",
            Verb::Bind => b"bind",
            Verb::Clear => b"clear",
            Verb::Goto => b"goto",
            Verb::Stop => b"stop",
        }
    }
}

impl Copied for Instr {
    fn copied(&self, alloc: Global) -> Result<Instr, AllocError> {
        self.copy(alloc)
    }
}
