//! Which event sent the signal that an event handled.

ghost use Rattle.std.specs.Prelude.{◌≡◌, IfOk};
ghost use Rattle.std.specs.Map.{lookup};
ghost use Rattle.std.specs.BTreeMap.{is_at};
ghost use Rattle.sig_order.specs.Senders.{IsIndex, signal_cmp, sender_told, sender_of};

use crate::at::At;
use sig_model::{Did, Origin};
use std::alloc::{AllocError, Global};
use std::collections::BTreeMap;

/// What a signal is looked up by.
#[derive(Clone, Copy, PartialEq, Eq, PartialOrd, Ord)]
pub(crate) struct SignalKey {
    /// Its sender.
    pub(crate) from: u32,
    /// Its receiver.
    pub(crate) to: u32,
    /// Its number among the signals of this pair.
    pub(crate) number: u64,
}

/// For each signal the number of the event that sent it, among its sender's events. The error is want
/// of memory.
pub(crate) fn index_of(
    alloc: Global,
    origins: &[Origin],
) -> Result<BTreeMap<SignalKey, u64>, AllocError>
    ensures { IfOk result (λ index. IsIndex origins.now index.entries) }
{
    let mut index = BTreeMap::new(alloc);
    for origin in origins {
        let key = SignalKey {
            from: origin.from.0,
            to: origin.to.0,
            number: origin.number,
        };
        index.insert(key, origin.event)?;
    }
    Ok(index)
}

/// The event that sent this signal. `None` exactly where the index has no such signal.
fn sender_known(index: &BTreeMap<SignalKey, u64>, key: SignalKey) -> Option<At>
    ensures { result ≡ sender_told key.from (lookup (is_at (signal_cmp key)) index.now.entries) }
{
    match index.get(&key) {
        Some(event) => Some(At {
            pid: key.from,
            event: *event,
        }),
        None => None,
    }
}

/// The event that sent the signal which an event of the process `to` handled. `None` exactly where it
/// handled none, or one of its own process, or one that the index doesn't have.
pub(crate) fn sender(index: &BTreeMap<SignalKey, u64>, to: u32, did: &Did) -> Option<At>
    ensures { result ≡ sender_of index.now.entries to did.now }
{
    match did {
        Did::Exec { .. } => None,
        Did::From { from, number } => {
            if from.0 == to {
                return None;
            }
            let key = SignalKey {
                from: from.0,
                to,
                number: *number,
            };
            sender_known(index, key)
        }
    }
}
