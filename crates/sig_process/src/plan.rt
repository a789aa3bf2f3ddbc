ghost use Rattle.std.specs.Prelude.{◌≡◌, length};
ghost use Rattle.sig_process.specs.Plans.{outgoing_of};

use crate::changing::Change;
use sig_kinds::Kind;
use sig_model::Outcome;
use sig_patterns::Var;
use sig_terms::{Pid, Ref, Term};

/// A signal that an event sends, before it has its stamp and number.
#[derive(Drop)]
pub(crate) struct Outgoing {
    /// Its receiver.
    pub to: Pid,
    /// What it says.
    pub kind: Kind,
}

/// What an event sends, in order. Most events send nothing or one signal, and that takes no list.
#[derive(Drop)]
pub(crate) enum Posts {
    /// Nothing.
    Nothing,
    /// One signal.
    One(Outgoing),
    /// These signals.
    Many(Vec<Outgoing>),
}

impl Posts {
    /// How many signals there are.
    pub(crate) fn len(&self) -> usize
        ensures { result ≡ length (outgoing_of self.now) }
    {
        match self {
            Posts::Nothing => 0,
            Posts::One(_) => 1,
            Posts::Many(posts) => posts.len(),
        }
    }
}

/// What an event will do, with all that it needs. Nothing has happened yet.
#[derive(Drop)]
pub(crate) struct Plan {
    /// The peer whose exit signal is obeyed: the link to it ends first.
    pub obeyed: Option<Pid>,
    /// What changes.
    pub change: Change,
    /// How the event goes.
    pub outcome: Outcome,
    /// What it sends, in order.
    pub posts: Posts,
}

/// The variable that an instruction gives a value.
#[derive(Drop)]
pub(crate) enum Binding {
    /// None.
    Nothing,
    /// It gets this value.
    Value { var: Var, value: Term },
    /// It gets a new reference, whose serial is used up then.
    Made { var: Var, reference: Ref },
}

/// What the execution of an instruction changes last in the messages and the receive markers.
#[derive(Drop)]
pub(crate) enum InboxChange {
    /// Nothing.
    Nothing,
    /// The message of the end of the monitor of this reference is removed.
    Flush { reference: Ref },
    /// A place behind all messages is reserved, with this next serial of a reference.
    Reserve { serial: u64 },
    /// The reserve is bound to the reference, where it may be.
    Bind { reference: Ref },
    /// The mark of the reference is taken out.
    Clear { reference: Ref },
}

/// What the execution of an instruction will do: a handling binds no variable, changes no marker, and
/// leaves the process at its place.
#[derive(Drop)]
pub(crate) struct Execution {
    /// The variable that gets a value.
    pub binding: Binding,
    /// What changes last in the messages and the markers.
    pub inbox: InboxChange,
    /// Where the process goes on.
    pub place: u32,
    /// All else.
    pub plan: Plan,
}
