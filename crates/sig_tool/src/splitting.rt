//! Where the record begins in the input.

ghost use Rattle.std.specs.Prelude.{◌≡◌, ◌≤◌, length, take, drop};
ghost use Rattle.sig_tool.specs.Split.{record_part, script_part};
ghost use Rattle.sig_tool.specs.declared.given.TheConstants.{MOST_INPUT};

use sig_terms::bytes::equal_bytes;
use sig_tokens::first_line;

/// The first line of a record.
const HEAD: &[u8] = b"sigrecord 1";

/// How many bytes stand before the first line that is exactly `sigrecord 1`: all, where no line is.
fn script_len(bytes: &[u8]) -> usize
    requires short { length bytes.now ≤ MOST_INPUT }
    ensures within { result ≤ length bytes.now }
    ensures script { take result bytes.now ≡ script_part bytes.now }
    ensures rest { drop result bytes.now ≡ record_part bytes.now }
{
    let mut at = 0;
    while at < bytes.len() {
        let line = first_line(&bytes[at..]);
        if equal_bytes(line, HEAD) {
            return at;
        }
        at += line.len() + 1;
    }
    bytes.len()
}

/// The script's part of the input, and the record's part behind it: this begins at the first line
/// that is exactly `sigrecord 1`, and is empty where no line is.
pub(crate) fn split(bytes: &[u8]) -> (&[u8], &[u8])
    requires short { length bytes.now ≤ MOST_INPUT }
    ensures script { result.0.now ≡ script_part bytes.now }
    ensures rest { result.1.now ≡ record_part bytes.now }
{
    let at = script_len(bytes);
    (&bytes[..at], &bytes[at..])
}
