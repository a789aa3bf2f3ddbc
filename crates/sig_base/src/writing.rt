ghost use Rattle.std.specs.Prelude.{◌≡◌, ◌≤◌, []};
ghost use Rattle.sig_base.specs.Writing.{IsWritten};

use crate::sink::Sink;
use crate::source::Failed;

/// How writing all of some bytes ended.
#[derive(Clone, Copy, PartialEq, Eq)]
pub enum Written {
    /// The sink took all the bytes.
    Whole,
    /// A write failed.
    WriteFault {
        /// How many bytes the sink had taken before: fewer than there are.
        written: usize,
    },
}

/// Writes all the bytes, in as many calls as it takes. With no bytes it makes no call.
///
/// - [`Written::Whole`]: the sink holds what it held, followed by `bytes`. No write failed.
/// - [`Written::WriteFault`]: one write failed, which isn't made again: the sink's count of faults rose by
///   one. The sink holds what it held, followed by the first `written` bytes.
pub fn write_whole<O: Sink>(sink: &mut O, bytes: &[u8]) -> Written
    ensures written { IsWritten (O.held sink.old) (O.held sink.new) (O.faults sink.old)
        (O.faults sink.new) bytes.now result }
    ensures count { O.faults sink.old ≤ O.faults sink.new }
    ensures empty { bytes.now ≡ [] → sink.new ≡ sink.old }
{
    let mut at = 0;
    while at < bytes.len() {
        match sink.write(&bytes[at..]) {
            Ok(n) => at += n,
            Err(Failed) => return Written::WriteFault { written: at },
        }
    }
    Written::Whole
}
