ghost use Rattle.std.specs.Prelude.{◌≡◌};
ghost use Rattle.example_relay.specs.Relays.{message as said};

use sig_kinds::{Kind, Signal};
use sig_terms::{Pid, Ref, Term};

/// A message that is a reference of the sender.
pub fn message(from: Pid, to: Pid, number: u64, serial: u64) -> Signal
    ensures { result ≡ said from to number serial }
{
    let reference = Ref {
        owner: from,
        serial,
    };
    Signal {
        from,
        to,
        number,
        stamp: 0,
        kind: Kind::Message {
            term: Term::Ref(reference),
        },
    }
}
