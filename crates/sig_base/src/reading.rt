ghost use Rattle.std.specs.Prelude.{◌<◌, ◌≤◌, ◌≡◌, []};
ghost use Rattle.sig_base.specs.Flow.{IsNotPassed};
ghost use Rattle.sig_base.specs.Reading.{IsRead};

use crate::source::{Failed, Source};

/// How reading all of a source ended.
#[derive(Clone, Copy, PartialEq, Eq)]
pub enum ReadAll {
    /// The source came to its end, and all that it had was read.
    Whole,
    /// The source had more bytes than the limit.
    TooLong,
    /// A read failed.
    ReadFault,
    /// Memory was wanting. The bytes of the last read may be lost.
    Memory,
}

/// The most bytes that one read asks for.
const PIECE: usize = 4096;

/// Reads the source to its end into `into`. Whatever the answer, at most `limit` bytes and one more
/// are taken from the source, and no read is made behind the first one that gave no bytes or failed, if none
/// was before the call.
///
/// Asks that `into` is empty, and that `limit` is below [`usize::MAX`].
///
/// - [`ReadAll::Whole`]: `into` holds all bytes that the source had, at most `limit`.
/// - [`ReadAll::TooLong`]: `into` holds the first `limit + 1` bytes.
/// - [`ReadAll::ReadFault`]: one read failed: the source's count of faults rose by one. `into` holds what was taken.
/// - [`ReadAll::Memory`]: `into` could not grow. It holds the front of what was taken.
///
/// With any answer but [`ReadAll::ReadFault`] no read failed.
pub fn read_all<S: Source>(source: &mut S, limit: usize, into: &mut Vec<u8>) -> ReadAll
    requires below { limit < usize.MAX }
    requires empty { into.old.items ≡ [] }
    ensures read { IsRead (S.left source.old) (S.left source.new) (S.faults source.old)
        (S.faults source.new) limit into.new.items result }
    ensures behind { IsNotPassed (S.end source.old) (S.end source.new) }
    ensures count { S.faults source.old ≤ S.faults source.new }
{
    let mut piece = [0; PIECE];
    while into.len() <= limit {
        let room = (limit + 1 - into.len()).min(PIECE);
        match source.read(&mut piece[..room]) {
            Ok(0) => return ReadAll::Whole,
            Ok(n) => {
                if into.extend_from_slice(&piece[..n]).is_err() {
                    return ReadAll::Memory;
                }
            }
            Err(Failed) => return ReadAll::ReadFault,
        }
    }
    ReadAll::TooLong
}
