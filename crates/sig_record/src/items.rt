//! What stands several times one behind the other: the lines of one kind, the parts of the processes.

ghost use Rattle.std.specs.Prelude.{◌≡◌, ℕ, List, [], Bool};
ghost use Rattle.sig_record.specs.LineReaders.{Lines, many_lines};
ghost use Rattle.sig_record.specs.Refusing.{Yields};

use crate::refusal::Refusal;
use sig_lists::Sequence;
use std::alloc::Global;

/// What may stand behind others of its kind.
pub(crate) trait Item: Drop {
    /// Whether the bytes begin as one does.
    ghost begins: { List ℕ → Bool };

    /// The one of this process that stands there, behind these.
    ghost front: { ℕ → List Self → Lines Self };

    fn begins(bytes: &[u8]) -> bool
        ensures { result ≡ begins bytes.now };

    fn read<'a>(
        alloc: Global,
        pid: u32,
        before: &[Self],
        bytes: &'a [u8],
    ) -> Result<(Self, &'a [u8]), Refusal>
        ensures { Yields (λ x. (x.0, x.1.now)) result (front pid before.now bytes.now) };
}

/// Reads as many as stand there into the empty list, and gives what is behind them.
#[tactic(auto, using(crate::proofs::ItemSteps::fails_here))]
pub(crate) fn read_all<'a, T: Item>(
    alloc: Global,
    pid: u32,
    items: &mut Sequence<T>,
    bytes: &'a [u8],
) -> Result<&'a [u8], Refusal>
    requires { items.old ≡ [] }
    ensures { Yields (λ rest. (items.new, rest.now)) result (many_lines T.begins (T.front pid) bytes.now) }
{
    let mut rest = bytes;
    for _ in 0..bytes.len() {
        if !T::begins(rest) {
            return Ok(rest);
        }
        let (item, behind) = T::read(alloc, pid, items.as_slice(), rest)?;
        items.add(item)?;
        rest = behind;
    }
    if T::begins(rest) {
        Err(Refusal::Bad { left: rest.len() })
    } else {
        Ok(rest)
    }
}
