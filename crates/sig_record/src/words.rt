//! Words before digits, in texts that are written from their end.

ghost use Rattle.std.specs.Prelude.{◌≡◌, ◌+◌, ◌≤◌, ◌++◌, length, drop};

/// Writes the word so that it ends at `end`, and gives where it starts.
///
/// Asks that it has room before `end`, which is in the buffer.
pub(crate) fn write_word(word: &[u8], buffer: &mut [u8], end: usize) -> usize
    requires word { length word.now ≤ end }
    requires end { end ≤ length buffer.old }
    ensures start { result + length word.now ≡ end }
    ensures written { drop result buffer.new ≡ word.now ++ drop end buffer.old }
{
    let start = end - word.len();
    buffer[start..end].copy_from_slice(word);
    start
}
