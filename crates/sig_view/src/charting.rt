//! The command `chart`.

ghost use Rattle.std.specs.Prelude.{◌+◌};
ghost use Rattle.sig_base.specs.Flow.{IsNotPassed};
ghost use Rattle.sig_edge.specs.Streams.{IsReadWithin, reading};
ghost use Rattle.sig_tool.specs.declared.given.TheConstants.{MOST_INPUT};
ghost use Rattle.sig_view.specs.declared.command.Command.TheVariants.{Chart};
ghost use Rattle.sig_view.specs.Charts.{IsDrawn};
ghost use Rattle.sig_view.specs.Inputs.{IsRecordRead};

use crate::reading::read_settled;
use crate::status::ViewStatus;
use sig_base::Source;
use sig_chart::{ChartError, Window, chart};
use sig_model::Origins;
use sig_tool::{Given, origins_of};
use std::alloc::Global;

/// The chart of the events of the given record whose stamps lie in the window; `TooManyEvents` where
/// there are more than a chart draws.
fn draw(
    alloc: Global,
    given: &Given,
    origins: &Origins,
    window: Window,
) -> Result<Vec<u8>, ViewStatus>
    ensures { IsDrawn given.now.script given.now.told origins.now window result }
{
    match chart(alloc, &given.script, &given.told, origins, window) {
        Ok(text) => Ok(text),
        Err(ChartError::TooManyEvents) => Err(ViewStatus::TooManyEvents),
        Err(ChartError::Memory) => Err(ViewStatus::Memory),
    }
}

/// The text of `chart`: the chart of the events whose stamps lie in the window.
pub(crate) fn chart_text<S: Source>(
    alloc: Global,
    window: Window,
    input: &mut S,
) -> Result<Vec<u8>, ViewStatus>
    ensures text { IsRecordRead (Chart window)
        (reading (S.left input.old) (S.left input.new) (S.faults input.old) (S.faults input.new)) result }
    ensures taken { IsReadWithin (MOST_INPUT + 1)
        (reading (S.left input.old) (S.left input.new) (S.faults input.old) (S.faults input.new)) }
    ensures behind { IsNotPassed (S.end input.old) (S.end input.new) }
{
    let given = read_settled(alloc, input)?;
    let origins = origins_of(alloc, &given)?;
    draw(alloc, &given, &origins, window)
}
