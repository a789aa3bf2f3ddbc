//! The command `links`.

ghost use Rattle.std.specs.Prelude.{◌≡◌, ◌+◌, ◌++◌, IfOk, OnOk, decimal};
ghost use Rattle.sig_base.specs.Flow.{IsNotPassed};
ghost use Rattle.sig_edge.specs.Streams.{IsReadWithin, reading};
ghost use Rattle.sig_record.specs.RunRecord.{IsOfSettledRun};
ghost use Rattle.sig_tool.specs.declared.command.Command.TheVariants.{Links};
ghost use Rattle.sig_tool.specs.declared.given.TheConstants.{MOST_INPUT};
ghost use Rattle.sig_tool.specs.Texts.{IsTextRead};
ghost use Rattle.sig_tool.specs.Linking.{link_line, link_lines, IsLinksText};

use crate::given::{Given, read_checked};
use crate::replaying::replayed;
use crate::status::ToolStatus;
use itoa::Buffer;
use sig_base::Source;
use sig_linklaw::{Pair, report};
use sig_terms::Pid;
use std::alloc::{AllocError, Global};

/// Puts this word and the pid's number behind the text.
fn put_pid(text: &mut Vec<u8>, word: &[u8], pid: Pid) -> Result<(), AllocError>
    ensures { OnOk result (text.new.items ≡ text.old.items ++ (word.now ++ decimal pid.0)) }
{
    let mut digits = Buffer::new();
    text.extend_from_slice(word)?;
    text.extend_from_slice(digits.format(pid.0).as_bytes())
}

/// Puts the line of this pair behind the text.
fn put_link(text: &mut Vec<u8>, pair: &Pair) -> Result<(), AllocError>
    ensures { OnOk result (text.new.items ≡ text.old.items ++ link_line pair.now) }
{
    put_pid(text, b"link ", pair.low)?;
    put_pid(text, b" ", pair.high)?;
    text.extend_from_slice(b"\n")
}

/// The lines of these pairs.
fn lines_of(alloc: Global, pairs: &[Pair]) -> Result<Vec<u8>, AllocError>
    ensures { IfOk result (λ text. text.items ≡ link_lines pairs.now) }
{
    let mut text = Vec::new(alloc);
    for pair in pairs {
        put_link(&mut text, pair)?;
    }
    Ok(text)
}

/// The text of the links between the processes that made the choices of the given record.
fn text_of_links(alloc: Global, given: &Given) -> Result<Vec<u8>, AllocError>
    requires { IsOfSettledRun given.now.script given.now.told }
    ensures { IfOk result (λ text. IsLinksText given.now.script given.now.told text.items) }
{
    let made = replayed(alloc, given)?;
    let pairs = report(alloc, &made.0)?;
    lines_of(alloc, pairs.as_slice())
}

/// The text of `links`: a line `link P Q` for each pair of waiting processes with a link between them.
pub(crate) fn links_text<S: Source>(alloc: Global, input: &mut S) -> Result<Vec<u8>, ToolStatus>
    ensures text { IsTextRead Links (reading (S.left input.old) (S.left input.new) (S.faults input.old) (S.faults input.new)) result }
    ensures taken { IsReadWithin (MOST_INPUT + 1)
        (reading (S.left input.old) (S.left input.new) (S.faults input.old) (S.faults input.new)) }
    ensures behind { IsNotPassed (S.end input.old) (S.end input.new) }
{
    let given = read_checked(alloc, input)?;
    let text = text_of_links(alloc, &given)?;
    Ok(text)
}
