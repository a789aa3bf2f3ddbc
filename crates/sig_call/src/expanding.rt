//! The script of a text of calls.

ghost use Rattle.std.specs.Prelude.{◌≡◌, ◌+◌, ◌<◌, ◌≤◌, ◌^◌, length, IfOk};
ghost use Rattle.sig_tokens.specs.Lines.{lines_of};
ghost use Rattle.sig_call.specs.CallLaw.{CallsEnterOnce};
ghost use Rattle.sig_call.specs.Expanding.{blank, line_expanded, lines_expanded};
ghost use Rattle.sig_call.specs.Expansion.{Gives, at_given, ends_in_feed, expansion, first_line, given_line, version_of};
ghost use Rattle.sig_reader.specs.Grammar.{script_of};

use crate::call_line::read_line;
use crate::expanded::ExpandedText;
use crate::fault::CallError;
use sig_program::{Script, Version};
use sig_reader::{MOST_BYTES, ScriptError, read_header, read_script};
use sig_tokens::{cut_line, first_line};
use std::alloc::{AllocError, Global};

/// The version of the text: that of its header, and 1 where its first line is none.
fn version_of(alloc: Global, bytes: &[u8]) -> Result<Version, AllocError>
    ensures { IfOk result (λ version. version ≡ version_of (first_line bytes.now)) }
{
    match read_header(alloc, first_line(bytes))? {
        Some(version) => Ok(version),
        None => Ok(Version::One),
    }
}

/// Whether the text ends with a line feed.
fn ends_in_feed(bytes: &[u8]) -> bool
    ensures { result ≡ ends_in_feed bytes.now }
{
    match bytes.last() {
        Some(b) => *b == b'\n',
        None => false,
    }
}

/// Appends what stands for line `n`, where the next call is call `k`: the number of the call behind
/// it.
fn expand_line(
    alloc: Global,
    version: Version,
    into: &mut ExpandedText,
    n: u64,
    k: u64,
    line: &[u8],
) -> Result<u64, CallError>
    requires { k < 2 ^ 31 }
    ensures expanded { Gives (λ next. (next, into.new)) result (line_expanded version n k into.old line.now) }
    ensures next { IfOk result (λ next. next ≤ k + 1) }
{
    let cut = cut_line(alloc, line, version)?;
    match read_line(line, &cut) {
        Ok(None) => {
            into.put_given(n, line)?;
            Ok(k)
        }
        Ok(Some(call)) => {
            into.put_call(n, k, &call)?;
            Ok(k + 1)
        }
        Err(kind) => Err(CallError::Call { line: n, kind }),
    }
}

/// The lines of the expanded text, and the number of the line behind the given ones.
fn expand_lines(
    alloc: Global,
    version: Version,
    bytes: &[u8],
) -> Result<(ExpandedText, u64), CallError>
    requires short { length bytes.now < 2 ^ 30 }
    ensures lines { Gives (λ x. x.0) result (lines_expanded version 1 1 blank (lines_of bytes.now)) }
    ensures count { IfOk result (λ x. x.1 ≡ length (lines_of bytes.now) + 1) }
{
    let mut into = ExpandedText::new(alloc);
    let mut n: u64 = 1;
    let mut k: u64 = 1;
    let mut at = 0;
    while at < bytes.len() {
        let line = first_line(&bytes[at..]);
        k = expand_line(alloc, version, &mut into, n, k, line)?;
        at += line.len() + 1;
        n += 1;
    }
    Ok((into, n))
}

/// The script of the expanded text. A refusal is told at the line from which the refused line comes.
fn read_expanded(alloc: Global, expanded: &ExpandedText, behind: u64) -> Result<Script, CallError>
    ensures { Gives (λ script. script) result (at_given (given_line expanded.now.from behind) (script_of expanded.now.text)) }
{
    match read_script(alloc, expanded.bytes()) {
        Ok(script) => Ok(script),
        Err(ScriptError::Fault { line, kind }) => Err(CallError::Script {
            line: expanded.given_line(behind, line),
            kind,
        }),
        Err(ScriptError::Memory) => Err(CallError::Memory),
    }
}

/// The script that a text of calls spells. In such a text a line may be `call X T M` or `call X T M ->
/// L`: it sends `{call,Ref,M}` to the process `T` and waits for `{Ref,Reply}`, which binds `X` to the
/// reply, or for the down of `T`, which binds `X` to its reason and goes on at the label. Each such line
/// stands for a monitor with an alias for one reply, the request, and a receive, as
/// `gen_server:call/2` does it since OTP 24; so behind a message through the alias, or the down, no
/// other of these enters the mailbox.
///
/// Errors, tried in this order: `TooLong` exactly where there are more than
/// [`MOST_BYTES`](sig_reader::MOST_BYTES) bytes; `Call` at the first line that is refused as a call, or
/// has a variable that begins with `Call_`; `Script` exactly where the expanded text spells no script,
/// at the line of the given text from which the refused line comes. `Memory` only where memory is
/// refused. (The language of scripts is this project's own.)
pub fn expand(alloc: Global, bytes: &[u8]) -> Result<Script, CallError>
    ensures expansion { Gives (λ script. script) result (expansion bytes.now) }
    ensures law { IfOk result CallsEnterOnce }
{
    if bytes.len() > MOST_BYTES {
        return Err(CallError::TooLong);
    }
    let version = version_of(alloc, bytes)?;
    let (mut expanded, behind) = expand_lines(alloc, version, bytes)?;
    expanded.close(ends_in_feed(bytes));
    read_expanded(alloc, &expanded, behind)
}
