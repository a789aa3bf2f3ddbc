//! The command `before`.

ghost use Rattle.std.specs.Prelude.{◌≡◌, ◌+◌, IfOk};
ghost use Rattle.sig_base.specs.Flow.{IsNotPassed};
ghost use Rattle.sig_edge.specs.Streams.{IsReadWithin, reading};
ghost use Rattle.sig_record.specs.RunRecord.{IsOfSettledRun};
ghost use Rattle.sig_tool.specs.declared.command.Command.TheVariants.{Before};
ghost use Rattle.sig_tool.specs.declared.given.TheConstants.{MOST_INPUT};
ghost use Rattle.sig_tool.specs.Texts.{IsTextRead};
ghost use Rattle.sig_tool.specs.Ordering.{said, IsAnswered, IsOrderOf};

use crate::given::{Given, read_checked};
use crate::origins::origins_of;
use crate::status::ToolStatus;
use sig_base::Source;
use sig_order::{At, Happened};
use std::alloc::{AllocError, Global};

/// What is written where it is so.
const SO: &[u8] = b"yes\n";

/// What is written where it isn't.
const NOT_SO: &[u8] = b"no\n";

/// The order of the events of the given record.
fn order_of(alloc: Global, given: &Given) -> Result<Happened, AllocError>
    requires { IsOfSettledRun given.now.script given.now.told }
    ensures { IfOk result (IsOrderOf given.now.script given.now.told) }
{
    let origins = origins_of(alloc, given)?;
    Happened::build(alloc, &given.told, &origins)
}

/// `yes` where it is so, `no` where it isn't, and a line feed.
fn word(so: bool) -> &'static [u8]
    ensures { result.now ≡ said so }
{
    if so { SO } else { NOT_SO }
}

/// Whether the first event happened before the second, in words; `NoEvent` where the record lacks one.
fn answer(alloc: Global, order: &Happened, first: At, second: At) -> Result<Vec<u8>, ToolStatus>
    ensures { IsAnswered order.now first second result }
{
    if !order.has(first) {
        return Err(ToolStatus::NoEvent);
    }
    if !order.has(second) {
        return Err(ToolStatus::NoEvent);
    }
    let so = order.before(first, second);
    let text = Vec::from_slice(alloc, word(so))?;
    Ok(text)
}

/// The text of `before`: `yes` and a line feed where the first event happened before the second, `no`
/// and a line feed where it didn't.
pub(crate) fn before_text<S: Source>(
    alloc: Global,
    first: At,
    second: At,
    input: &mut S,
) -> Result<Vec<u8>, ToolStatus>
    ensures text { IsTextRead (Before first second)
        (reading (S.left input.old) (S.left input.new) (S.faults input.old) (S.faults input.new)) result }
    ensures taken { IsReadWithin (MOST_INPUT + 1)
        (reading (S.left input.old) (S.left input.new) (S.faults input.old) (S.faults input.new)) }
    ensures behind { IsNotPassed (S.end input.old) (S.end input.new) }
{
    let given = read_checked(alloc, input)?;
    let order = order_of(alloc, &given)?;
    answer(alloc, &order, first, second)
}
