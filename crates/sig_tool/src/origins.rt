//! Which event sent each signal of a record.

ghost use Rattle.std.specs.Prelude.{IfOk};
ghost use Rattle.sig_order.specs.Happening.{IsTraced};
ghost use Rattle.sig_record.specs.RunRecord.{IsOfSettledRun};
ghost use Rattle.sig_tool.specs.Origins.{AreOrigins};

use crate::given::Given;
use crate::replaying::replayed;
use sig_model::Origins;
use std::alloc::{AllocError, Global};

/// The origins of the signals of the run of which the given record is, as
/// [`replay`](sig_check::replay) gives them. The error is want of memory.
///
/// Asks that the record is that of a settled run of the script, as [`read_checked`](crate::read_checked)
/// gives it.
pub fn origins_of(alloc: Global, given: &Given) -> Result<Origins, AllocError>
    requires { IsOfSettledRun given.now.script given.now.told }
    ensures those { IfOk result (AreOrigins given.now.script given.now.told) }
    ensures traced { IfOk result (IsTraced given.now.told) }
{
    // For the proof alone, which takes from it that the script is within its limits.
    let _count = given.script.count();
    let made = replayed(alloc, given)?;
    Ok(made.1)
}
